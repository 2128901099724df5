//! The rows of bounds of a panel.
ghost use Rattle.std.specs.Prelude.{◌≡◌, ◌<◌, ◌++◌, ℕ, List, IfOk, OnOk, length, map, replicate, []};
ghost use Rattle.std.specs.List.{flat_map};
ghost use Rattle.rp_long.specs.Panels.{household_at};
ghost use Rattle.rp_bound_rows.specs.RowText.{text_of_row};
ghost use Rattle.rp_bound_rows.specs.Writing.{HasWritten};
ghost use Rattle.rp_bounds_panel.specs.BoundsText.{IsBoundsText, IsRowOfHousehold, id_fault};
ghost use Rattle.rp_bounds_panel.specs.BoundsText.{unnamed_row};
ghost use Rattle.rp_bounds_panel.specs.InnerRows.{WritesHouseholds};

use rp_bound_rows::{
    BoundFault, BoundRow, BoundSearch, BoundsAsked, FoundBounds, RowWriter, bound_row, start_rows,
};
use rp_long::{Households, IdFault, Unnamed};
use rp_num::{NoMemory, Seq};
use rp_rows::Fault;
use rp_sheet::TableFault;
use std::alloc::Global;

/// The table of bounds of a panel at the prices of a file of new ones, as text: the header, with the names of the columns
/// that are kept, the lines of each household, in the order of their first records, and one for each record that is
/// refused for its id.
pub fn write_bounds<S: BoundSearch>(
    alloc: Global,
    asked: BoundsAsked,
    new: &[u8],
    kept: &[&[u8]],
    panel: &Households<'_>,
) -> Result<Vec<u8>, NoMemory>
    ensures { IfOk result (λ text. IsBoundsText S.of_demand S.of_welfare asked new.now
        (map (λ name. name.now) kept.now) panel.now text.items) }
{
    let mut rows = start_rows(alloc, asked, kept)?;
    write_households::<S>(alloc, asked, new, panel, &mut rows)?;
    write_unnamed(alloc, kept.len(), panel.unnamed(), &mut rows)?;
    let text = rows.finish()?;
    Ok(text)
}

/// Writes the lines of each household.
fn write_households<S: BoundSearch>(
    alloc: Global,
    asked: BoundsAsked,
    new: &[u8],
    panel: &Households<'_>,
    rows: &mut RowWriter,
) -> Result<(), NoMemory>
    ensures { OnOk result (WritesHouseholds S.of_demand S.of_welfare asked new.now
        panel.now (length panel.now.households) rows.old rows.new) }
{
    for h in 0..panel.len() {
        let row = household_row::<S>(alloc, asked, new, panel, h)?;
        rows.write_row(alloc, &row)?;
    }
    Ok(())
}

/// The row of a household.
fn household_row<S: BoundSearch>(
    alloc: Global,
    asked: BoundsAsked,
    new: &[u8],
    panel: &Households<'_>,
    h: usize,
) -> Result<BoundRow, NoMemory>
    requires { h < length panel.now.households }
    ensures { IfOk result (IsRowOfHousehold S.of_demand S.of_welfare asked new.now
        (household_at panel.now h)) }
{
    let household = Seq::from_vec(Vec::from_slice(alloc, panel.id(h))?);
    let kept = panel.kept_texts(alloc, h)?;
    match panel.table(alloc, h) {
        Ok(table) => {
            let row = bound_row::<S>(alloc, asked, household, kept, &table, new)?;
            Ok(row)
        }
        Err(TableFault::NoMemory) => Err(NoMemory),
        Err(fault) => Ok(BoundRow {
            household,
            kept,
            found: FoundBounds::Fault(BoundFault::OfHousehold(Fault::OfTable(fault))),
        }),
    }
}

/// Writes a line for each record that is refused for its id, with so many texts that are kept.
fn write_unnamed(
    alloc: Global,
    kept: usize,
    unnamed: &[Unnamed],
    rows: &mut RowWriter,
) -> Result<(), NoMemory>
    ensures { OnOk result ((text : List ℕ) → HasWritten rows.old text
        → HasWritten rows.new
        (text ++ flat_map text_of_row (map (unnamed_row kept) unnamed.now))) }
{
    for refused in unnamed {
        let row = row_of_unnamed(alloc, kept, refused)?;
        rows.write_row(alloc, &row)?;
    }
    Ok(())
}

/// The row of a record that is refused for its id, with so many texts that are kept.
fn row_of_unnamed(alloc: Global, kept: usize, unnamed: &Unnamed) -> Result<BoundRow, NoMemory>
    ensures { IfOk result (λ row. row ≡ unnamed_row kept unnamed.now) }
{
    let kept = empty_texts(alloc, kept)?;
    Ok(BoundRow {
        household: Seq::from_vec(Vec::new(alloc)),
        kept,
        found: FoundBounds::Fault(BoundFault::OfHousehold(id_fault(*unnamed))),
    })
}

/// So many empty texts.
fn empty_texts(alloc: Global, count: usize) -> Result<Seq<Seq<u8>>, NoMemory>
    ensures { IfOk result (λ texts. texts ≡ replicate count []) }
{
    let mut texts = Vec::new(alloc);
    for _ in 0..count {
        texts.push(Seq::from_vec(Vec::new(alloc)))?;
    }
    Ok(Seq::from_vec(texts))
}

/// The fault of a record that is refused for its id.
fn id_fault(unnamed: Unnamed) -> Fault
    ensures { result ≡ id_fault unnamed }
{
    match unnamed.fault {
        IdFault::NoId => Fault::NoId { row: unnamed.row },
        IdFault::LongId => Fault::LongId { row: unnamed.row },
    }
}
