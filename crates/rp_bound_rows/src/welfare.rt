//! The lines of the money metric at new prices.
ghost use Rattle.std.specs.Prelude.{◌≡◌, ◌<◌, ◌≤◌, [], IfOk};
ghost use Rattle.rp_garp.specs.Test.{IsTestOf};
ghost use Rattle.rp_table.specs.Rows.{row_of, rows_count};
ghost use Rattle.rp_table.specs.Tables.{goods_of, records_of};
ghost use Rattle.rp_bound_rows.specs.SmallParts.{HasSmallWelfare};
ghost use Rattle.rp_bound_rows.specs.WelfareLines.{AreWelfareLines, AreWelfareLinesAt};
ghost use Rattle.rp_bound_rows.specs.WelfareLines.{AreWelfareSides, IsObservationLine};

use crate::amount::Amount;
use crate::line::Line;
use crate::search::BoundSearch;
use crate::side::{Side, Sides};
use rp_evidence::WelfarePart;
use rp_garp::GarpTest;
use rp_num::{NoMemory, Seq, print_u128};
use rp_table::{Prices, Table};
use std::alloc::Global;

/// For each record of new prices the lines of the observations, where money has so many places.
pub(crate) fn welfare_lines<S: BoundSearch>(
    alloc: Global,
    table: &Table,
    new: &Prices,
    places: u32,
) -> Result<Vec<Seq<Line>>, NoMemory>
    requires no_levels { table.now.levels ≡ [] }
    requires goods { new.now.goods ≡ goods_of table.now }
    requires few { places ≤ 12 }
    ensures { IfOk result (λ at.
        AreWelfareLines S.of_welfare table.now places new.now at.items) }
{
    let tested = GarpTest::of(alloc, table)?;
    let mut at = Vec::new(alloc);
    for i in 0..new.count() {
        let lines = welfare_lines_at::<S>(alloc, table, &tested, new, i, places)?;
        at.push(lines)?;
    }
    Ok(at)
}

/// The lines of the observations at a record of new prices, from 0.
fn welfare_lines_at<S: BoundSearch>(
    alloc: Global,
    table: &Table,
    tested: &GarpTest,
    new: &Prices,
    i: u32,
    places: u32,
) -> Result<Seq<Line>, NoMemory>
    requires is_test { IsTestOf table.now tested.now }
    requires no_levels { table.now.levels ≡ [] }
    requires goods { new.now.goods ≡ goods_of table.now }
    requires listed { i < rows_count new.now.prices new.now.goods }
    requires few { places ≤ 12 }
    ensures { IfOk result (AreWelfareLinesAt S.of_welfare table.now places i
        (row_of new.now.prices new.now.goods i)) }
{
    let mut lines = Vec::new(alloc);
    for t in 0..table.n() {
        let line = welfare_line::<S>(alloc, table, tested, new, i, places, t)?;
        lines.push(line)?;
    }
    Ok(Seq::from_vec(lines))
}

/// The line of observation `t`, from 0.
fn welfare_line<S: BoundSearch>(
    alloc: Global,
    table: &Table,
    tested: &GarpTest,
    new: &Prices,
    i: u32,
    places: u32,
    t: u32,
) -> Result<Line, NoMemory>
    requires is_test { IsTestOf table.now tested.now }
    requires no_levels { table.now.levels ≡ [] }
    requires goods { new.now.goods ≡ goods_of table.now }
    requires listed { i < rows_count new.now.prices new.now.goods }
    requires few { places ≤ 12 }
    requires observed { t < records_of table.now }
    ensures { IfOk result (IsObservationLine S.of_welfare table.now places i
        (row_of new.now.prices new.now.goods i) t) }
{
    prove!(new.count() <= 16);
    prove!(table.n() <= 512);
    let part = S::welfare(alloc, table, tested, new.row(i), t)?;
    let mut about = Vec::new(alloc);
    print_u128(alloc, &mut about, u128::from(t + 1))?;
    Ok(Line {
        price: i + 1,
        about: Seq::from_vec(about),
        bounds: welfare_sides(&part, places),
    })
}

/// What is told of the bounds on scaled money, where its scale has so many places.
fn welfare_sides(part: &WelfarePart, places: u32) -> Sides
    requires small { HasSmallWelfare part.now }
    requires few { places ≤ 12 }
    ensures { AreWelfareSides places part.now result }
{
    match part {
        WelfarePart::Bounds { upper, lower, .. } => Sides {
            lower: Side::of(lower, places),
            upper: Side::Given(Amount::in_units(u128::from(*upper), 1, places)),
        },
        WelfarePart::NoModel(_) => Sides {
            lower: Side::Violated,
            upper: Side::Violated,
        },
    }
}
