//! The first two observations that contradict each other.
ghost use Rattle.std.specs.Prelude.{◌<◌, IfSome};
ghost use Rattle.rp_evidence.specs.First.{IsFirstOf};
ghost use Rattle.rp_people.specs.Rationalizing.{NoneHasBoth};
ghost use Rattle.rp_people.specs.TableChoices.{choices_of};
ghost use Rattle.rp_people.specs.TablesOfCosts.{OfEachTable};
ghost use Rattle.rp_pref.specs.Steps.{OwnStrict, OwnWeak};
ghost use Rattle.rp_table.specs.Cost.{cost_at};
ghost use Rattle.rp_garp.specs.Pairs.{Contradict, IsOwnPairs};

use rp_pref::{own_strict, own_weak};
use rp_table::Costs;

/// The first two observations, by the first and then by the second, of which the first is weakly
/// preferred to the second and the second strictly to the first (Varian 1982), each held to its own level.
pub fn pairs(costs: &Costs) -> Option<(u32, u32)>
    ensures own { IsOwnPairs costs.now.n costs.now.levels (cost_at costs.now) result }
    ensures says { IfSome result (λ p. OfEachTable costs.now
        (λ input. NoneHasBoth (choices_of input) p.0 p.1)) }
{
    for s in 0..costs.n() {
        if let Some(t) = first_contradicted(costs, s) {
            return Some((s, t));
        }
    }
    None
}

/// The first observation that `s` contradicts.
fn first_contradicted(costs: &Costs, s: u32) -> Option<u32>
    requires { s < costs.now.n }
    ensures { IsFirstOf costs.now.n
        (Contradict (OwnWeak costs.now) (OwnStrict costs.now) s) result }
{
    for t in 0..costs.n() {
        if own_weak(costs, s, t) && own_strict(costs, t, s) {
            return Some(t);
        }
    }
    None
}
