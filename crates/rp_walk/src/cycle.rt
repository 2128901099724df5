//! The closed walk that rounds without an end show.
ghost use Rattle.std.specs.Prelude.{◌≡◌, ℕ, suc, ◌*◌, ◌<◌, IfOk, IfSome, IfNone, All, length};
ghost use Rattle.std.specs.Prelude.{slice_index};
ghost use Rattle.rp_walk.specs.ExactTotal.{SameTotal};
ghost use Rattle.rp_walk.specs.InnerRounds.{Remembers};
ghost use Rattle.rp_walk.specs.InnerPairs.{NoPartnerBelow};
ghost use Rattle.rp_walk.specs.LeastTotals.{NoneTooWide};
ghost use Rattle.rp_walk.specs.RoundWalk.{IsFirstClosedPart, IsFirstLive, IsRoundWalk};
ghost use Rattle.rp_walk.specs.Outcome.{IsSettled};
ghost use Rattle.rp_walk.specs.Settled.{IsFirstBreakingPair, NoPairBreaks, PairBreaks};
ghost use Rattle.rp_walk.specs.Walk.{prefix_total};

use crate::outcome::Settled;
use crate::round::filled;
use crate::total::Total;
use rp_num::{NoMemory, Seq};
use std::alloc::Global;

/// The first pair that breaks, in the order of s and then t, with s < t.
pub(crate) fn first_breaking_pair<T: Total>(total: &T) -> Option<(u32, u32)>
    ensures first { IfSome result (λ pair. IsFirstBreakingPair (T.rule total.now) pair.0 pair.1) }
    ensures none { IfNone result (NoPairBreaks (T.rule total.now)) }
{
    for s in 0..total.n() {
        match first_breaking_partner(total, s) {
            Some(t) => return Some((s, t)),
            None => {}
        }
    }
    None
}

/// The first t after s with which s breaks.
fn first_breaking_partner<T: Total>(total: &T, s: u32) -> Option<u32>
    requires { s < (T.rule total.now).count }
    ensures after { IfSome result (λ t. s < t) }
    ensures within { IfSome result (λ t. t < (T.rule total.now).count) }
    ensures breaks { IfSome result (PairBreaks (T.rule total.now) s) }
    ensures first { IfSome result (NoPartnerBelow (T.rule total.now) s) }
    ensures none { IfNone result (NoPartnerBelow (T.rule total.now) s (T.rule total.now).count) }
{
    let n = total.n();
    for t in s + 1..n {
        if total.pair_breaks(s, t) {
            return Some(t);
        }
    }
    None
}

/// The closed walk s, t, s from the empty total.
pub(crate) fn cycle_of_pair<T: Total>(
    alloc: Global,
    total: &T,
    s: u32,
    t: u32,
) -> Result<Settled<T::Value>, NoMemory>
    requires { IsFirstBreakingPair (T.rule total.now) s t }
    ensures { IfOk result (IsSettled (T.rule total.now) T.fits T.exact) }
{
    let start = total.start();
    let steps = vec![in alloc; s, t, s]?;
    Ok(Settled::Cycle {
        start,
        steps: Seq::from_vec(steps),
    })
}

/// The first closed part of the walk of as many steps as there are observations that the rounds found
/// to `end`.
pub(crate) fn cycle_within<T: Total>(
    alloc: Global,
    total: &T,
    history: &[u32],
    end: u32,
) -> Result<Settled<T::Value>, NoMemory>
    requires history_len { let n = (T.rule total.now).count in length history.now ≡ n * n }
    requires remembers { Remembers (T.rule total.now) (T.rule total.now).count history.now }
    requires end_first { IsFirstLive (T.rule total.now) (T.rule total.now).count end }
    requires no_pair { NoPairBreaks (T.rule total.now) }
    requires none_too_wide { NoneTooWide (T.rule total.now) T.fits }
    ensures { IfOk result (IsSettled (T.rule total.now) T.fits T.exact) }
{
    let walk = round_walk(alloc, total, history, end)?;
    let (first, last) = first_closed_part(alloc, walk.as_slice(), total.n())?;
    let start = total_at(total, walk.as_slice(), first);
    let steps = Vec::from_slice(alloc, &walk[first..last + 1])?;
    Ok(Settled::Cycle {
        start,
        steps: Seq::from_vec(steps),
    })
}

/// The walk that the rounds found to `end`, from its last observation back to its first.
fn round_walk<T: Total>(
    alloc: Global,
    total: &T,
    history: &[u32],
    end: u32,
) -> Result<Vec<u32>, NoMemory>
    requires history_len { let n = (T.rule total.now).count in length history.now ≡ n * n }
    requires remembers { Remembers (T.rule total.now) (T.rule total.now).count history.now }
    requires end_first { IsFirstLive (T.rule total.now) (T.rule total.now).count end }
    ensures { IfOk result (λ walk. IsRoundWalk (T.rule total.now) walk.items) }
{
    let n = total.n() as usize;
    let mut walk = filled(alloc, total.n() + 1, end)?;
    let mut round = n;
    while round > 0 {
        round -= 1;
        let to = walk[round + 1] as usize;
        walk[round] = history[round * n + to];
    }
    Ok(walk)
}

/// The places between which the walk first comes back to an observation.
fn first_closed_part(alloc: Global, walk: &[u32], n: u32) -> Result<(usize, usize), NoMemory>
    requires within { All (λ s. s < n) walk.now }
    requires long { n < length walk.now }
    ensures { IfOk result (λ part. IsFirstClosedPart walk.now part.0 part.1) }
{
    let mut place = vec![in alloc; walk.len(); n as usize]?;
    for i in 0..walk.len() {
        let s = walk[i] as usize;
        let before = place[s];
        if before < walk.len() {
            return Ok((before, i));
        }
        place[s] = i;
    }
    unreachable!()
}

/// The total of a walk as far as one of its places, where its steps fit.
fn total_at<T: Total>(total: &T, walk: &[u32], place: usize) -> T::Value
    requires in_walk { place < length walk.now }
    requires within { All (λ s. s < (T.rule total.now).count) walk.now }
    requires fit { let w = T.rule total.now in let p = slice_index walk.now in
        (m : ℕ) → m < place → ¬ (¬ (T.fits (w.after (prefix_total w p m) (p m) (p (suc m))))) }
    ensures { SameTotal (prefix_total (T.rule total.now) (slice_index walk.now) place)
        (T.exact result) }
{
    let mut value = total.start();
    for i in 0..place {
        value = match total.step(value, walk[i], walk[i + 1]) {
            Ok(next) => next,
            Err(_) => unreachable!(),
        };
    }
    value
}
