//! The verdicts on a table, without their evidence.
ghost use Rattle.std.specs.Prelude.{◌≡◌, ◌⊎◌, [], IfOk, None, Some, false, true};
ghost use Rattle.rp_table.specs.Cost.{IsCostsOf};
ghost use Rattle.rp_rows.specs.Asked.{MayBeAsked};
ghost use Rattle.rp_rows.specs.Verdicts.{AreVerdicts, IsAxiomVerdict, IsHomotheticFound, IsIndex};
ghost use Rattle.rp_rows.specs.Words.{is_attained};
ghost use Rattle.rp_rows.specs.Verdicts.{IsPowerFound, IsPumpFound, IsQuasilinearFound};

use crate::asked::{Asked, Draws};
use crate::homothetic::HomotheticTest;
use crate::ratio::Ratio;
use crate::verdict::Verdict;
use rp_effic::efficiency;
use rp_evidence::Garp;
use rp_garp::garp;
use rp_num::NoMemory;
use rp_power::power;
use rp_pump::pump;
use rp_quasi::quasilinear;
use rp_table::{Costs, Table};
use std::alloc::Global;

/// How many of so many random behaviours fail the axiom.
#[derive(Clone, Copy, Debug)]
pub struct Power {
    pub violations: u32,
    pub draws: u32,
}

/// The efficiency index, and whether it is attained.
#[derive(Clone, Copy)]
struct Index {
    level: Ratio,
    attained: bool,
}

/// The verdicts on a table, without their evidence: how many observations and goods it has, the generalized axiom, the
/// efficiency index and whether it is attained, the homothetic and the quasilinear test; and what is asked beside them.
#[derive(Clone, Copy, Debug)]
pub struct Verdicts {
    pub observations: u32,
    pub goods: u32,
    pub garp: Verdict,
    pub efficiency: Ratio,
    pub attained: bool,
    pub homothetic: Verdict,
    pub quasilinear: Verdict,
    pub pump: Option<Ratio>,
    pub power: Option<Power>,
}

/// The verdicts on a table, and what is asked beside them.
pub(crate) fn verdicts_on<T: HomotheticTest>(
    alloc: Global,
    asked: Asked,
    table: &Table,
) -> Result<Verdicts, NoMemory>
    requires { MayBeAsked asked table.now }
    ensures { IfOk result (AreVerdicts T.given asked table.now) }
{
    let costs = Costs::of(alloc, table)?;
    let garp = garp_on(alloc, table, &costs)?;
    let index = index_on(alloc, table, &costs)?;
    let homothetic = homothetic_on::<T>(alloc, table, &costs)?;
    let quasilinear = quasilinear_on(alloc, table, &costs)?;
    let pump = pump_asked(alloc, asked.pump, table, &costs)?;
    let power = power_asked(alloc, asked.power, table, &costs)?;
    Ok(Verdicts {
        observations: table.n(),
        goods: table.goods(),
        garp,
        efficiency: index.level,
        attained: index.attained,
        homothetic,
        quasilinear,
        pump,
        power,
    })
}

/// The verdict on the generalized axiom.
fn garp_on(alloc: Global, table: &Table, costs: &Costs) -> Result<Verdict, NoMemory>
    requires { IsCostsOf costs.now table.now }
    ensures { IfOk result (IsAxiomVerdict table.now) }
{
    prove!(table.n() >= 1);
    let evidence = garp(alloc, costs)?;
    Ok(Verdict::of_garp(&evidence))
}

/// The efficiency index, and whether it is attained.
fn index_on(alloc: Global, table: &Table, costs: &Costs) -> Result<Index, NoMemory>
    requires { IsCostsOf costs.now table.now }
    ensures { IfOk result (λ found.
        IsIndex table.now found.level.num found.level.den found.attained) }
{
    prove!(table.n() >= 1);
    let evidence = efficiency(alloc, costs)?;
    let attained = is_attained(&evidence.at);
    let level = Ratio::new(evidence.level.num, evidence.level.den);
    Ok(Index { level, attained })
}

/// Whether an index is attained, by the evidence at it.
fn is_attained(at: &Garp) -> bool
    ensures { result ≡ is_attained at.now }
{
    match at {
        Garp::Ranks(_) => true,
        Garp::Cycle(_) => false,
    }
}

/// The verdict of the homothetic test.
fn homothetic_on<T: HomotheticTest>(
    alloc: Global,
    table: &Table,
    costs: &Costs,
) -> Result<Verdict, NoMemory>
    requires { IsCostsOf costs.now table.now }
    ensures { IfOk result (IsHomotheticFound T.given table.now) }
{
    prove!(table.n() >= 1);
    let evidence = T::verdict(alloc, table, costs)?;
    Ok(Verdict::of_homothetic(&evidence))
}

/// The verdict of the quasilinear test.
fn quasilinear_on(alloc: Global, table: &Table, costs: &Costs) -> Result<Verdict, NoMemory>
    requires { IsCostsOf costs.now table.now }
    ensures { IfOk result (IsQuasilinearFound table.now) }
{
    prove!(table.n() >= 1);
    let evidence = quasilinear(alloc, costs)?;
    Ok(Verdict::of_quasilinear(&evidence))
}

/// The greatest money pump ratio, where it is asked.
fn pump_asked(
    alloc: Global,
    asked: bool,
    table: &Table,
    costs: &Costs,
) -> Result<Option<Ratio>, NoMemory>
    requires of_table { IsCostsOf costs.now table.now }
    requires may_be_asked { (asked ≡ false) ⊎ (table.now.levels ≡ []) }
    ensures { IfOk result (IsPumpFound asked table.now) }
{
    if !asked {
        return Ok(None);
    }
    let found = pump_on(alloc, table, costs)?;
    Ok(Some(found))
}

/// The greatest money pump ratio.
fn pump_on(alloc: Global, table: &Table, costs: &Costs) -> Result<Ratio, NoMemory>
    requires of_table { IsCostsOf costs.now table.now }
    requires no_levels { table.now.levels ≡ [] }
    ensures { IfOk result (λ found. IsPumpFound true table.now (Some found)) }
{
    let evidence = pump(alloc, costs)?;
    Ok(Ratio::new(evidence.num, evidence.den))
}

/// How many random behaviours fail the axiom, where it is asked.
fn power_asked(
    alloc: Global,
    asked: Option<Draws>,
    table: &Table,
    costs: &Costs,
) -> Result<Option<Power>, NoMemory>
    requires of_table { IsCostsOf costs.now table.now }
    requires may_be_asked { (asked ≡ None) ⊎ (table.now.levels ≡ []) }
    ensures { IfOk result (IsPowerFound asked table.now) }
{
    match asked {
        Some(draws) => {
            let found = power_on(alloc, draws, table, costs)?;
            Ok(Some(found))
        }
        None => Ok(None),
    }
}

/// How many random behaviours fail the axiom.
fn power_on(alloc: Global, draws: Draws, table: &Table, costs: &Costs) -> Result<Power, NoMemory>
    requires of_table { IsCostsOf costs.now table.now }
    requires no_levels { table.now.levels ≡ [] }
    ensures { IfOk result (λ found. IsPowerFound (Some draws) table.now (Some found)) }
{
    let violations = power(alloc, table, costs, draws.seed, draws.draws)?;
    Ok(Power {
        violations,
        draws: draws.draws,
    })
}
