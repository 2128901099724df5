//! Evidence from a program of types.
ghost use Rattle.std.specs.Prelude.{◌≡◌, ◌≤◌, IfOk, MatchOption, length};
ghost use Rattle.rp_generated.specs.Rounds.{AreParts, AreWeightsReadOff, IsMixtureReadOff, share_of};
ghost use Rattle.rp_whole_tableau.specs.Programs.{NumberPasses};

use rp_evidence::{RandomPart, Share};
use rp_farkas::{Entry, Pair};
use rp_num::{NoMemory, Seq};
use rp_whole_tableau::Grown;
use std::alloc::Global;
use std::cmp::Ordering;

/// The place at which a type is put, so that the parts stay in order.
fn place_of(parts: &[Share], numbers: &[u32]) -> usize
    ensures { result ≤ length parts.now }
{
    for k in 0..parts.len() {
        if parts[k].patches.as_slice().cmp(&numbers) == Ordering::Greater {
            return k;
        }
    }
    parts.len()
}

/// The type of a column of the program, with how much there is of it.
fn share_in(alloc: Global, program: &Grown, entry: Entry) -> Result<Share, NoMemory>
    ensures { IfOk result (λ share. share ≡ share_of program.now entry) }
{
    Ok(Share {
        patches: Seq::from_vec(Vec::from_slice(alloc, program.column(entry.at))?),
        weight: entry.value,
    })
}

/// The types that a point has some of, each with how much.
fn parts_of(alloc: Global, program: &Grown, entries: &[Entry]) -> Result<Vec<Share>, NoMemory>
    ensures { IfOk result (λ parts. AreParts program.now entries.now parts.items) }
{
    let mut parts = Vec::new(alloc);
    for k in 0..entries.len() {
        let part = share_in(alloc, program, entries[k])?;
        let at = place_of(parts.as_slice(), part.patches.as_slice());
        parts.insert(at, part)?;
    }
    Ok(parts)
}

/// The mixture that a program shows, where it has the whole total.
pub(crate) fn mixture(alloc: Global, program: &Grown) -> Result<Option<RandomPart>, NoMemory>
    ensures { IfOk result (λ found. MatchOption found (NumberPasses program.now)
        (IsMixtureReadOff program.now)) }
{
    let Some(Pair { den, y, .. }) = program.point(alloc)? else {
        return Ok(None);
    };
    let parts = parts_of(alloc, program, y.as_slice())?;
    Ok(Some(RandomPart::Mixture {
        den,
        parts: Seq::from_vec(parts),
    }))
}

/// The partial mixture and the weights that a program shows, where no type is too light.
pub(crate) fn violation(alloc: Global, program: &Grown) -> Result<Option<RandomPart>, NoMemory>
    ensures { IfOk result (λ found. MatchOption found (NumberPasses program.now)
        (AreWeightsReadOff program.now)) }
{
    let Some(Pair { den, y, x }) = program.pair(alloc)? else {
        return Ok(None);
    };
    let parts = parts_of(alloc, program, y.as_slice())?;
    Ok(Some(RandomPart::Violated {
        den,
        parts: Seq::from_vec(parts),
        weights: x,
    }))
}
