//! Evidence by Afriat's theorem, class by class of observations.
ghost use Rattle.std.specs.Prelude.{◌≡◌, ◌<◌, ◌-◌, ◌↔◌, [], IsTrue, IfNone, IfOk, IfSome};
ghost use Rattle.rp_evidence.specs.AfriatEvidence.{ProvesAfriat, ProvesOwnAfriat};
ghost use Rattle.rp_evidence.specs.Count.{AreCounts};
ghost use Rattle.rp_evidence.specs.Garp.{HasNoViolation};
ghost use Rattle.rp_evidence.specs.StandardNumbers.{FitsUtility};
ghost use Rattle.rp_garp.specs.Test.{IsTest};
ghost use Rattle.rp_people.specs.Says.{SaysAfriat};
ghost use Rattle.rp_people.specs.TablesOfCosts.{OfEachTable};
ghost use Rattle.rp_pref.specs.Closure.{IsClosureOf};
ghost use Rattle.rp_pref.specs.Steps.{OwnStrict, OwnWeak};
ghost use Rattle.rp_table.specs.Cost.{cost_at, own_of};
ghost use Rattle.rp_afriat.specs.InnerFilling.{AreFilledAbove, AreForEach, FitAbove};
ghost use Rattle.rp_afriat.specs.InnerFilling.{StandardNumbersPassAt, scaled_at};
ghost use Rattle.rp_afriat.specs.AfriatVerdict.{IsOwnAfriatVerdict};

use crate::classes::{class_utility, first_of, set_utility};
use crate::multipliers::set_multipliers;
use rp_evidence::{AfriatPart, Garp, Numbers, UTILITY_WIDTH};
use rp_garp::GarpTest;
use rp_num::{NoMemory, Seq};
use rp_pref::Closure;
use rp_table::Costs;
use std::alloc::Global;

/// Evidence by Afriat's theorem, each observation held to its own level, or to all that it spent, from the test of a
/// table: whole numbers of an Afriat model where the axiom holds, class by class of the counts, unless one passes its
/// width; else the violation. With levels the utilities are in a scale 1,000 times that without.
pub fn afriat(alloc: Global, tested: &GarpTest) -> Result<AfriatPart, NoMemory>
    requires { IsTest tested.now }
    ensures proves { IfOk result (ProvesOwnAfriat tested.now.costs.n
        tested.now.costs.levels (cost_at tested.now.costs)) }
    ensures given { IfOk result (IsOwnAfriatVerdict tested.now.costs.n
        tested.now.costs.levels (cost_at tested.now.costs)) }
    ensures says { IfOk result (λ part.
        OfEachTable tested.now.costs (λ input. SaysAfriat input part)) }
    ensures proves_without_levels { IfOk result (λ part. tested.now.costs.levels ≡ []
        → ProvesAfriat tested.now.costs.n (cost_at tested.now.costs) part) }
{
    match &tested.garp {
        Garp::Ranks(_) => standard(alloc, &tested.costs, &tested.closure),
        Garp::Cycle(walk) => {
            let walk = Vec::from_slice(alloc, walk.as_slice())?;
            Ok(AfriatPart::NoModel(Seq::from_vec(walk)))
        }
    }
}

/// The standard numbers, or the place where they first pass their width.
fn standard(alloc: Global, costs: &Costs, closure: &Closure) -> Result<AfriatPart, NoMemory>
    requires holds { HasNoViolation costs.now.n (OwnWeak costs.now) (OwnStrict costs.now) }
    requires closes { IsClosureOf closure.now costs.now.n (OwnWeak costs.now) }
    ensures proves { IfOk result
        (ProvesOwnAfriat costs.now.n costs.now.levels (cost_at costs.now)) }
    ensures given { IfOk result
        (IsOwnAfriatVerdict costs.now.n costs.now.levels (cost_at costs.now)) }
{
    let n = costs.n() as usize;
    let counts = closure.counts(alloc)?;
    let mut u = vec![in alloc; 0i128; n]?;
    let mut lambda = vec![in alloc; 0u64; n]?;
    match fill(costs, counts.as_slice(), &mut u, &mut lambda) {
        Some(at) => Ok(AfriatPart::Wide { at }),
        None => Ok(AfriatPart::Model(Numbers {
            u: Seq::from_vec(u),
            lambda: Seq::from_vec(lambda),
        })),
    }
}

/// Fills in the numbers from the highest class down, as far as they keep their widths; says where one does not.
fn fill(costs: &Costs, counts: &[u32], u: &mut [i128], lambda: &mut [u64]) -> Option<u32>
    requires counted { AreCounts costs.now.n (OwnWeak costs.now) counts.now }
    requires each { AreForEach costs.now.n counts.now u.old lambda.old }
    ensures each { AreForEach costs.now.n counts.now u.new lambda.new }
    ensures filled { IfNone result
        (AreFilledAbove costs.now.n (scaled_at costs.now) (own_of costs.now) counts.now
        u.new lambda.new 0) }
    ensures fit { IfNone result (FitAbove costs.now.n counts.now u.new lambda.new 0) }
    ensures stops { IfSome result
        (StandardNumbersPassAt costs.now.n (OwnWeak costs.now) (scaled_at costs.now)
        (own_of costs.now) counts.now) }
{
    let n = costs.n();
    for done in 0..n {
        if let Some(at) = fill_class(costs, counts, n - done, u, lambda) {
            return Some(at);
        }
    }
    None
}

/// Fills in the numbers of a class, those of all higher classes being there; says where one passes its width.
fn fill_class(
    costs: &Costs,
    counts: &[u32],
    class: u32,
    u: &mut [i128],
    lambda: &mut [u64],
) -> Option<u32>
    requires counted { AreCounts costs.now.n (OwnWeak costs.now) counts.now }
    requires each { AreForEach costs.now.n counts.now u.old lambda.old }
    requires filled { AreFilledAbove costs.now.n (scaled_at costs.now) (own_of costs.now)
        counts.now u.old lambda.old class }
    requires fit { FitAbove costs.now.n counts.now u.old lambda.old class }
    ensures each { AreForEach costs.now.n counts.now u.new lambda.new }
    ensures filled { IfNone result
        (AreFilledAbove costs.now.n (scaled_at costs.now) (own_of costs.now) counts.now
        u.new lambda.new (class - 1)) }
    ensures fit { IfNone result (FitAbove costs.now.n counts.now u.new lambda.new (class - 1)) }
    ensures stops { IfSome result
        (StandardNumbersPassAt costs.now.n (OwnWeak costs.now) (scaled_at costs.now)
        (own_of costs.now) counts.now) }
{
    match first_of(costs.n(), counts, class) {
        None => None,
        Some(first) => {
            let x = class_utility(costs, counts, class, u, lambda);
            if !utility_fits(x) {
                return Some(first);
            }
            set_utility(counts, class, x, u);
            set_multipliers(costs, counts, class, u, lambda)
        }
    }
}

/// Whether a utility is within its width.
fn utility_fits(x: i128) -> bool
    ensures { IsTrue result ↔ FitsUtility x }
{
    -UTILITY_WIDTH <= x && x <= UTILITY_WIDTH
}
