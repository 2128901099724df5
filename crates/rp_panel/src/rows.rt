//! The rows of a panel.
ghost use Rattle.std.specs.Prelude.{◌≡◌, ◌++◌, ◌<◌, IfOk, IfSome, OnOk, length, map, replicate, []};
ghost use Rattle.rp_long.specs.Panels.{household_at};
ghost use Rattle.rp_offered.specs.Offered.{AreFew};
ghost use Rattle.rp_panel.specs.PanelText.{AreRowsOf, IsPanelText, IsRowOfHousehold, id_fault, unnamed_row};

use crate::offered::{columns_after, places_asked, push_none_offered, push_offered};
use rp_long::{Households, IdFault, Unnamed};
use rp_num::{NoMemory, Seq};
use rp_offered::Places;
use rp_rows::{Asked, Fault, Found, HomotheticTest, Row, panel_text, verdict_row};
use rp_sheet::TableFault;
use std::alloc::Global;

/// The table of rows of a panel, as text: the header, with the names of the columns that are kept and, where
/// `offered` asks for them, of those that tell what choices spent of the budgets that were offered; a row for each household,
/// in the order of their first records; and one for each record that is refused for its id.
pub fn write_panel<T: HomotheticTest>(
    alloc: Global,
    asked: Asked,
    offered: bool,
    kept: &[&[u8]],
    panel: &Households<'_>,
) -> Result<Vec<u8>, NoMemory>
    ensures { IfOk result (λ text. IsPanelText T.given asked offered
        (map (λ name. name.now) kept.now) panel.now text.items) }
{
    let columns = columns_after(alloc, offered, kept)?;
    let places = places_asked(alloc, offered, panel)?;
    let mut rows = household_rows::<T>(alloc, asked, places, panel)?;
    push_unnamed(alloc, &mut rows, columns.len(), panel.unnamed())?;
    let text = panel_text(alloc, columns.as_slice(), rows.as_slice())?;
    Ok(text)
}

/// A row for each household.
fn household_rows<T: HomotheticTest>(
    alloc: Global,
    asked: Asked,
    offered: Option<Places>,
    panel: &Households<'_>,
) -> Result<Vec<Row>, NoMemory>
    requires { IfSome offered AreFew }
    ensures { IfOk result (λ rows.
        AreRowsOf T.given asked offered panel.now.households rows.items) }
{
    let mut rows = Vec::new(alloc);
    for h in 0..panel.len() {
        let row = household_row::<T>(alloc, asked, offered, panel, h)?;
        rows.push(row)?;
    }
    Ok(rows)
}

/// The row of a household.
fn household_row<T: HomotheticTest>(
    alloc: Global,
    asked: Asked,
    offered: Option<Places>,
    panel: &Households<'_>,
    h: usize,
) -> Result<Row, NoMemory>
    requires few { IfSome offered AreFew }
    requires within { h < length panel.now.households }
    ensures { IfOk result (IsRowOfHousehold T.given asked offered (household_at panel.now h)) }
{
    let household = Seq::from_vec(Vec::from_slice(alloc, panel.id(h))?);
    let kept = panel.kept_texts(alloc, h)?;
    match panel.table(alloc, h) {
        Ok(table) => {
            let texts = push_offered(alloc, kept, offered, &table)?;
            let row = verdict_row::<T>(alloc, asked, household, texts, &table)?;
            Ok(row)
        }
        Err(TableFault::NoMemory) => Err(NoMemory),
        Err(fault) => {
            let kept = push_none_offered(alloc, kept, offered)?;
            Ok(Row {
                household,
                kept,
                found: Found::Fault(Fault::OfTable(fault)),
            })
        }
    }
}

/// Appends a row for each record that is refused for its id, with so many texts that are kept.
fn push_unnamed(
    alloc: Global,
    rows: &mut Vec<Row>,
    kept: usize,
    unnamed: &[Unnamed],
) -> Result<(), NoMemory>
    ensures { OnOk result (
        rows.new.items ≡ rows.old.items ++ map (unnamed_row kept) unnamed.now) }
{
    for refused in unnamed {
        let kept = empty_texts(alloc, kept)?;
        rows.push(Row {
            household: Seq::from_vec(Vec::new(alloc)),
            kept,
            found: Found::Fault(id_fault(*refused)),
        })?;
    }
    Ok(())
}

/// So many empty texts.
fn empty_texts(alloc: Global, count: usize) -> Result<Seq<Seq<u8>>, NoMemory>
    ensures { IfOk result (λ texts. texts ≡ replicate count []) }
{
    let mut texts = Vec::new(alloc);
    for _ in 0..count {
        texts.push(Seq::from_vec(Vec::new(alloc)))?;
    }
    Ok(Seq::from_vec(texts))
}

/// The fault of a record that is refused for its id.
fn id_fault(unnamed: Unnamed) -> Fault
    ensures { result ≡ id_fault unnamed }
{
    match unnamed.fault {
        IdFault::NoId => Fault::NoId { row: unnamed.row },
        IdFault::LongId => Fault::LongId { row: unnamed.row },
    }
}
