//! A mixture of listed kinds, or weights that show there is none.
ghost use Rattle.std.specs.Prelude.{IfOk, List, Ok, ℕ};
ghost use Rattle.rp_find_mixture.specs.MixtureVerdict.{IsPairVerdict, IsRunVerdict, ProvesMixture};
ghost use Rattle.rp_farkas.specs.PairCheck.{IsShownPair};
ghost use Rattle.rp_patch.specs.KindFailure.{EvidenceFailsOf};
ghost use Rattle.rp_patch.specs.Kinds.{AreAllOf, AreWhole, mixture_program};

use crate::listed::Listed;
use crate::program::MixtureProgram;
use crate::shares::listed_shares;
use rp_evidence::RandomPart;
use rp_farkas::Pair;
use rp_num::{NoMemory, Seq};
use rp_patch::weight_of_shares;
use rp_simplex::{Outcome, maximize};
use std::alloc::Global;

/// Whether some mixture of the kinds has the units, by the run of the program of mixtures over a list of all of them:
/// a mixture; a partial one of the greatest share with weights of the cells; or the step at which the run passes its
/// width. In each of these no clause of a checker finds anything wrong.
pub fn mixture<L: Listed>(alloc: Global, listed: &L) -> Result<RandomPart, NoMemory>
    requires whole { AreWhole (L.kinds listed.now) }
    requires formed { (kind : List ℕ) → (L.kinds listed.now).IsKind kind
        → (L.kinds listed.now).IsFormed kind }
    requires all { AreAllOf (L.kinds listed.now).IsKind (L.listed listed.now) }
    ensures proves { IfOk result (ProvesMixture (L.kinds listed.now)) }
    ensures run { IfOk result (IsRunVerdict (L.kinds listed.now) (L.listed listed.now)) }
    ensures passes { IfOk result (λ part. EvidenceFailsOf (L.kinds listed.now) part (Ok tt)) }
{
    let program = MixtureProgram::make(listed);
    match maximize(alloc, &program)? {
        Outcome::Optimal(pair) => verdict_of_pair(alloc, listed, pair),
        Outcome::Unbounded { .. } => unreachable!(),
        Outcome::Wide { step } => Ok(RandomPart::Wide { step }),
    }
}

/// What an equal pair shows: a mixture where the kinds have the whole total, else that there is none.
fn verdict_of_pair<L: Listed>(alloc: Global, listed: &L, pair: Pair) -> Result<RandomPart, NoMemory>
    requires { IsShownPair (mixture_program (L.kinds listed.now) (L.listed listed.now)) pair }
    ensures { IfOk result (IsPairVerdict (L.kinds listed.now) (L.listed listed.now) pair) }
{
    let parts = listed_shares(alloc, listed, pair.y.as_slice())?;
    let whole = u128::from(pair.den) * u128::from(listed.total());
    if weight_of_shares(parts.as_slice()) == whole {
        return Ok(RandomPart::Mixture {
            den: pair.den,
            parts: Seq::from_vec(parts),
        });
    }
    Ok(RandomPart::Violated {
        den: pair.den,
        parts: Seq::from_vec(parts),
        weights: pair.x,
    })
}
