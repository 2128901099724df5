//! The homothetic test, filled where it is withheld.
use rp_evidence::Homothetic;
use rp_filled::fill_homothetic;
use rp_num::NoMemory;
use rp_rows::{AsStated, HomotheticTest};
use rp_table::{Costs, Table};
use std::alloc::Global;

/// What is computed, with what rounded products find where that is withheld.
pub struct Filled;

impl HomotheticTest for Filled {
    ghost use Rattle.rp_rows_wide.specs.FilledTest.{IsGivenFilled};

    ghost given = { IsGivenFilled };

    fn verdict(alloc: Global, table: &Table, costs: &Costs) -> Result<Homothetic, NoMemory> {
        let stated = AsStated::verdict(alloc, table, costs)?;
        let found = fill_homothetic(alloc, table, stated)?;
        Ok(found)
    }
}
