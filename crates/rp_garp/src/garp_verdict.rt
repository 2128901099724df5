//! The verdict on the generalized axiom, with its evidence.
ghost use Rattle.std.specs.Prelude.{◌≡◌, [], IfOk};
ghost use Rattle.rp_evidence.specs.Garp.{ProvesGarp, ProvesOfPreference};
ghost use Rattle.rp_people.specs.Says.{SaysOfChoices};
ghost use Rattle.rp_people.specs.TableChoices.{choices_of};
ghost use Rattle.rp_people.specs.TablesOfCosts.{OfEachTable};
ghost use Rattle.rp_pref.specs.Steps.{OwnStrict, OwnWeak};
ghost use Rattle.rp_pref.specs.Violation.{IsVerdictOfPreference};
ghost use Rattle.rp_table.specs.Cost.{cost_at};
ghost use Rattle.rp_garp.specs.GarpVerdict.{IsGarpVerdict};

use rp_evidence::Garp;
use rp_num::NoMemory;
use rp_pref::{Closure, own_verdict};
use rp_table::Costs;
use std::alloc::Global;

/// The verdict on the generalized axiom of revealed preference (Varian 1982), each observation held to its own level,
/// or to all that it spent: the counts as ranks where it holds, else a shortest cycle of the first two observations
/// that violate it; its last step is strict.
pub fn garp(alloc: Global, costs: &Costs) -> Result<Garp, NoMemory>
    ensures proves { IfOk result (ProvesOfPreference costs.now.n
        (OwnWeak costs.now) (OwnStrict costs.now)) }
    ensures given { IfOk result (IsVerdictOfPreference costs.now.n
        (OwnWeak costs.now) (OwnStrict costs.now)) }
    ensures says { IfOk result (λ verdict. OfEachTable costs.now
        (λ input. SaysOfChoices (choices_of input) verdict)) }
    ensures proves_without_levels { IfOk result (λ verdict. costs.now.levels ≡ []
        → ProvesGarp costs.now.n (cost_at costs.now) verdict) }
    ensures given_without_levels { IfOk result (λ verdict. costs.now.levels ≡ []
        → IsGarpVerdict costs.now.n (cost_at costs.now) verdict) }
{
    let closure = Closure::own(alloc, costs)?;
    own_verdict(alloc, costs, &closure)
}
