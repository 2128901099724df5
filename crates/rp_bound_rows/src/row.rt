//! The row of a household.
ghost use Rattle.std.specs.Prelude.{◌≡◌, ◌≤◌, [], IfOk, Ok};
ghost use Rattle.rp_bound_rows.specs.PricePlaces.{price_places_beside};
ghost use Rattle.rp_bound_rows.specs.BoundRows.{IsBoundRowOf, IsFoundAt, IsFoundDemand, IsFoundOn};
ghost use Rattle.rp_bound_rows.specs.BoundRows.{HasLines, IsFoundWelfare};

use crate::asked::BoundsAsked;
use crate::demand::demand_lines;
use crate::fault::BoundFault;
use crate::line::Line;
use crate::price_places::read_price_places;
use crate::search::BoundSearch;
use crate::welfare::welfare_lines;
use rp_num::{NoMemory, Seq};
use rp_rows::Fault;
use rp_sheet::TableFault;
use rp_table::Table;
use rp_text::read_prices;
use std::alloc::Global;

/// The bounds of a household: how many observations and goods its table has, and for each record of new prices the lines
/// of the goods or of the observations.
#[derive(Debug, Drop)]
pub struct Bounds {
    pub observations: u32,
    pub goods: u32,
    pub at: Seq<Seq<Line>>,
}

/// What is found of a household, or of a record that is no household's.
#[derive(Debug, Drop)]
pub enum FoundBounds {
    Bounds(Bounds),
    Fault(BoundFault),
}

/// A row: the household's id, the texts that are kept of it, and what is found of it.
#[derive(Debug, Drop)]
pub struct BoundRow {
    pub household: Seq<u8>,
    pub kept: Seq<Seq<u8>>,
    pub found: FoundBounds,
}

/// The row of a household with this table beside the bytes of a file of new prices.
pub fn bound_row<S: BoundSearch>(
    alloc: Global,
    asked: BoundsAsked,
    household: Seq<u8>,
    kept: Seq<Seq<u8>>,
    table: &Table,
    new: &[u8],
) -> Result<BoundRow, NoMemory>
    ensures { IfOk result (IsBoundRowOf S.of_demand S.of_welfare asked new.now household kept
        (Ok table.now)) }
{
    let found = found_on::<S>(alloc, asked, table, new)?;
    Ok(BoundRow {
        household,
        kept,
        found,
    })
}

/// What is found on a table.
fn found_on<S: BoundSearch>(
    alloc: Global,
    asked: BoundsAsked,
    table: &Table,
    new: &[u8],
) -> Result<FoundBounds, NoMemory>
    ensures { IfOk result (IsFoundOn S.of_demand S.of_welfare asked table.now new.now) }
{
    if !table.levels().is_empty() {
        return Ok(FoundBounds::Fault(BoundFault::OfHousehold(Fault::OwnLevels)));
    }
    found_at::<S>(alloc, asked, table, new)
}

/// What is found on a table without levels.
fn found_at<S: BoundSearch>(
    alloc: Global,
    asked: BoundsAsked,
    table: &Table,
    new: &[u8],
) -> Result<FoundBounds, NoMemory>
    requires { table.now.levels ≡ [] }
    ensures { IfOk result (IsFoundAt S.of_demand S.of_welfare asked table.now new.now) }
{
    match asked {
        BoundsAsked::Demand => demand_on::<S>(alloc, table, new),
        BoundsAsked::Welfare => welfare_on::<S>(alloc, table, new),
    }
}

/// The bounds on demand, or the fault of the new prices.
fn demand_on<S: BoundSearch>(
    alloc: Global,
    table: &Table,
    new: &[u8],
) -> Result<FoundBounds, NoMemory>
    requires { table.now.levels ≡ [] }
    ensures { IfOk result (IsFoundDemand S.of_demand table.now new.now) }
{
    match read_prices(alloc, new, table, true) {
        Ok(prices) => {
            let at = demand_lines::<S>(alloc, table, &prices)?;
            Ok(bounds_with(table, at))
        }
        Err(TableFault::NoMemory) => Err(NoMemory),
        Err(fault) => Ok(FoundBounds::Fault(BoundFault::OfNewPrices(fault))),
    }
}

/// The bounds on the money metric, or the fault of the new prices.
#[tactic(auto, using(crate::proofs::PlacesLemmas::same_fault))]
fn welfare_on<S: BoundSearch>(
    alloc: Global,
    table: &Table,
    new: &[u8],
) -> Result<FoundBounds, NoMemory>
    requires { table.now.levels ≡ [] }
    ensures { IfOk result (IsFoundWelfare S.of_welfare table.now new.now) }
{
    match read_price_places(alloc, new, table) {
        Ok(places) => welfare_at::<S>(alloc, table, new, places),
        Err(TableFault::NoMemory) => Err(NoMemory),
        Err(fault) => Ok(FoundBounds::Fault(BoundFault::OfNewPrices(fault))),
    }
}

/// The bounds on the money metric at new prices that have so many places.
fn welfare_at<S: BoundSearch>(
    alloc: Global,
    table: &Table,
    new: &[u8],
    places: u32,
) -> Result<FoundBounds, NoMemory>
    requires no_levels { table.now.levels ≡ [] }
    requires few { places ≤ 6 }
    requires denoted { price_places_beside table.now new.now ≡ Ok places }
    ensures { IfOk result (IsFoundWelfare S.of_welfare table.now new.now) }
{
    prove!(table.goods() > 0);
    match read_prices(alloc, new, table, false) {
        Ok(prices) => {
            let money = places + u32::from(table.quantity_places());
            let at = welfare_lines::<S>(alloc, table, &prices, money)?;
            Ok(bounds_with(table, at))
        }
        Err(TableFault::NoMemory) => Err(NoMemory),
        Err(fault) => Ok(FoundBounds::Fault(BoundFault::OfNewPrices(fault))),
    }
}

/// The bounds with these lines.
fn bounds_with(table: &Table, at: Vec<Seq<Line>>) -> FoundBounds
    ensures { HasLines table.now at.items result }
{
    FoundBounds::Bounds(Bounds {
        observations: table.n(),
        goods: table.goods(),
        at: Seq::from_vec(at),
    })
}
