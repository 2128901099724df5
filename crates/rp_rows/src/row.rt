//! The row of a household.
ghost use Rattle.std.specs.Prelude.{IfOk, Ok};
ghost use Rattle.rp_rows.specs.Rows.{IsFoundOn, IsRowOf};

use crate::asked::Asked;
use crate::fault::Fault;
use crate::homothetic::HomotheticTest;
use crate::verdicts::{Verdicts, verdicts_on};
use rp_num::{NoMemory, Seq};
use rp_table::Table;
use std::alloc::Global;

/// What is found of a household, or of a record that is no household's.
#[derive(Clone, Copy, Debug)]
pub enum Found {
    Verdicts(Verdicts),
    Fault(Fault),
}

/// A row: the household's id, the texts that are kept of it, and what is found of it.
#[derive(Debug, Drop)]
pub struct Row {
    pub household: Seq<u8>,
    pub kept: Seq<Seq<u8>>,
    pub found: Found,
}

/// The row of a household with this table.
pub fn verdict_row<T: HomotheticTest>(
    alloc: Global,
    asked: Asked,
    household: Seq<u8>,
    kept: Seq<Seq<u8>>,
    table: &Table,
) -> Result<Row, NoMemory>
    ensures { IfOk result (IsRowOf T.given asked household kept (Ok table.now)) }
{
    let found = found_on::<T>(alloc, asked, table)?;
    Ok(Row {
        household,
        kept,
        found,
    })
}

/// What is found on a table.
fn found_on<T: HomotheticTest>(
    alloc: Global,
    asked: Asked,
    table: &Table,
) -> Result<Found, NoMemory>
    ensures { IfOk result (IsFoundOn T.given asked table.now) }
{
    if !asked.may_be_asked_of(table) {
        return Ok(Found::Fault(Fault::OwnLevels));
    }
    let verdicts = verdicts_on::<T>(alloc, asked, table)?;
    Ok(Found::Verdicts(verdicts))
}
