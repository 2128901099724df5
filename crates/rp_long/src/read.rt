//! The reader of long files.
ghost use Rattle.std.specs.Prelude.{◌≡◌, ℕ, List, Ok, IfOk, map};
ghost use Rattle.rp_long.specs.Panels.{RefusedPanel, denoted_panel, panel_in};

use crate::LongFault;
use crate::columns::find_columns;
use crate::goods::{check_count, check_lengths, check_table_columns};
use crate::groups::group_records;
use crate::households::Households;
use rp_limits::long::RECORDS;
use rp_num::NoMemory;
use rp_sheet::{Records, TableFault};
use std::alloc::Global;

/// Reads as many records of a file as decide what it denotes as a long file.
pub fn read_long_records(alloc: Global, bytes: &[u8]) -> Result<Records, NoMemory>
    ensures { IfOk result (λ records. (id : List ℕ) (kept : List (List ℕ))
        → denoted_panel id kept records ≡ panel_in id kept bytes.now) }
{
    Records::of(alloc, bytes, RECORDS as usize + 2)
}

/// The households of a long file in which the ids have that name, with the texts under these names, or its first fault.
pub fn read_panel<'a>(
    alloc: Global,
    records: &'a Records,
    id: &[u8],
    kept: &[&[u8]],
) -> Result<Households<'a>, LongFault>
    ensures denoted { IfOk result (λ panel.
        denoted_panel id.now (map (λ name. name.now) kept.now) records.now ≡ Ok panel) }
    ensures refused { RefusedPanel result
        (denoted_panel id.now (map (λ name. name.now) kept.now) records.now) }
{
    if records.len() == 0 {
        return Err(LongFault::Table(TableFault::Empty));
    }
    let columns = find_columns(alloc, records, id, kept)?;
    check_table_columns(alloc, records, columns.table())?;
    check_count(records)?;
    check_lengths(records)?;
    let groups = group_records(alloc, records, columns.id())?;
    Ok(Households::new(records, columns, groups))
}
