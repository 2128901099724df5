//! The lines of demand at new prices.
ghost use Rattle.std.specs.Prelude.{◌≡◌, ◌<◌, ◌≤◌, [], IfOk, length, slice_index};
ghost use Rattle.rp_garp.specs.Test.{IsTestOf};
ghost use Rattle.rp_table.specs.Rows.{row_of, rows_count};
ghost use Rattle.rp_table.specs.Tables.{goods_of};
ghost use Rattle.rp_bound_rows.specs.DemandLines.{AreDemandLines, AreDemandLinesAt, AreGoodLines};
ghost use Rattle.rp_bound_rows.specs.DemandLines.{AreGoodSides, IsGoodLine, IsSpentOn};
ghost use Rattle.rp_bound_rows.specs.InnerParts.{AreGoodsPast, HasGoods};
ghost use Rattle.rp_bound_rows.specs.SmallParts.{HasSmallDemand};

use crate::line::Line;
use crate::search::BoundSearch;
use crate::side::{Side, Sides};
use rp_evidence::DemandPart;
use rp_garp::GarpTest;
use rp_num::{NoMemory, Seq};
use rp_table::{Prices, Table};
use std::alloc::Global;

/// For each record of new prices the lines of the goods.
pub(crate) fn demand_lines<S: BoundSearch>(
    alloc: Global,
    table: &Table,
    new: &Prices,
) -> Result<Vec<Seq<Line>>, NoMemory>
    requires no_levels { table.now.levels ≡ [] }
    requires spent { IsSpentOn table.now new.now }
    ensures { IfOk result (λ at. AreDemandLines S.of_demand table.now new.now at.items) }
{
    let tested = GarpTest::of(alloc, table)?;
    let mut at = Vec::new(alloc);
    for i in 0..new.count() {
        let lines = demand_lines_at::<S>(alloc, table, &tested, new, i)?;
        at.push(lines)?;
    }
    Ok(at)
}

/// The lines of the goods at a record of new prices, from 0.
fn demand_lines_at<S: BoundSearch>(
    alloc: Global,
    table: &Table,
    tested: &GarpTest,
    new: &Prices,
    i: u32,
) -> Result<Seq<Line>, NoMemory>
    requires is_test { IsTestOf table.now tested.now }
    requires no_levels { table.now.levels ≡ [] }
    requires spent { IsSpentOn table.now new.now }
    requires listed { i < rows_count new.now.prices new.now.goods }
    ensures { IfOk result (AreDemandLinesAt S.of_demand table.now i
        (row_of new.now.prices new.now.goods i) (slice_index new.now.m i)) }
{
    prove!(new.count() <= 16);
    let part = S::demand(alloc, table, tested, new.row(i), new.m(i))?;
    let lines = good_lines(alloc, table, i, &part)?;
    Ok(lines)
}

/// The lines of the goods by this evidence.
fn good_lines(
    alloc: Global,
    table: &Table,
    i: u32,
    part: &DemandPart,
) -> Result<Seq<Line>, NoMemory>
    requires few { i < 16 }
    requires small { HasSmallDemand part.now }
    requires one_each { HasGoods (goods_of table.now) part.now }
    ensures { IfOk result (AreGoodLines table.now i part.now) }
{
    let mut lines = Vec::new(alloc);
    for g in 0..table.goods() {
        let line = good_line(alloc, table, i, part, g)?;
        lines.push(line)?;
    }
    Ok(Seq::from_vec(lines))
}

/// The line of good `g`.
fn good_line(
    alloc: Global,
    table: &Table,
    i: u32,
    part: &DemandPart,
    g: u32,
) -> Result<Line, NoMemory>
    requires few { i < 16 }
    requires small { HasSmallDemand part.now }
    requires one_each { HasGoods (goods_of table.now) part.now }
    requires good { g < goods_of table.now }
    ensures { IfOk result (IsGoodLine table.now i part.now g) }
{
    prove!(table.goods() > 0);
    let name = table.name(g);
    let about = Vec::from_slice(alloc, name.as_bytes())?;
    Ok(Line {
        price: i + 1,
        about: Seq::from_vec(about),
        bounds: good_sides(part, g, u32::from(table.quantity_places())),
    })
}

/// What is told of the bounds of good `g` on scaled quantities, where their scale has so many places.
fn good_sides(part: &DemandPart, g: u32, places: u32) -> Sides
    requires small { HasSmallDemand part.now }
    requires good { AreGoodsPast g part.now }
    requires few { places ≤ 12 }
    ensures { AreGoodSides places g part.now result }
{
    match part {
        DemandPart::Bounds { goods, .. } => {
            let bounds = &goods.as_slice()[g as usize];
            Sides {
                lower: Side::of(&bounds.lower, places),
                upper: Side::of(&bounds.upper, places),
            }
        }
        DemandPart::NoModel(_) => Sides {
            lower: Side::Violated,
            upper: Side::Violated,
        },
    }
}
