//! One round of least totals.
ghost use Rattle.std.specs.Prelude.{◌≡◌, ℕ, ◌<◌, ◌≤◌, IfOk, IfSome, IfNone, vec_len, replicate};
ghost use Rattle.std.specs.Prelude.{slice_index};
ghost use Rattle.rp_walk.specs.InnerAdvance.{IsAdvance};
ghost use Rattle.rp_walk.specs.InnerRounds.{IsTried, StepsFit};

use crate::total::Total;
use rp_num::NoMemory;
use std::alloc::Global;

/// The least totals of walks with up to k steps, by the observation where they end.
#[derive(Drop)]
pub(crate) struct RoundTotals<V> {
    pub(crate) values: Vec<V>,
    /// The observation before the last one of the walk that this round found, or the number of
    /// observations where it found no lesser total.
    pub(crate) from: Vec<u32>,
}

/// What comes of one more step.
#[derive(Drop)]
pub(crate) enum Advance<V> {
    Next(RoundTotals<V>),
    TooWide { from: u32, to: u32 },
}

impl<V: Copy> RoundTotals<V> {
    /// The walks of no step. Each observation may be gone on from.
    pub(crate) fn at_zero(alloc: Global, n: u32, start: V) -> Result<RoundTotals<V>, NoMemory>
        ensures values { IfOk result (λ round. round.values.items ≡ replicate n start) }
        ensures from { IfOk result (λ round. round.from.items ≡ replicate n 0) }
    {
        Ok(RoundTotals {
            values: filled(alloc, n, start)?,
            from: filled(alloc, n, 0)?,
        })
    }

    /// The round after this one, before any step is tried.
    fn unimproved(&self, alloc: Global, n: u32) -> Result<RoundTotals<V>, NoMemory>
        ensures values { IfOk result (λ round. round.values.items ≡ self.now.values.items) }
        ensures from { IfOk result (λ round. round.from.items ≡ replicate n n) }
    {
        Ok(RoundTotals {
            values: Vec::from_slice(alloc, self.values.as_slice())?,
            from: filled(alloc, n, n)?,
        })
    }

    /// The first observation for which this round found a lesser total.
    pub(crate) fn first_improved(&self, n: u32) -> Option<u32>
        requires { vec_len self.now.from ≡ n }
        ensures within { IfSome result (λ s. s < n) }
        ensures improved { IfSome result (λ s. slice_index self.now.from.items s < n) }
        ensures first { IfSome result (λ s. (i : ℕ) → i < s
            → n ≤ slice_index self.now.from.items i) }
        ensures none { IfNone result ((s : ℕ) → s < n → n ≤ slice_index self.now.from.items s) }
    {
        for s in 0..n {
            if self.from[s as usize] < n {
                return Some(s);
            }
        }
        None
    }
}

/// A number of copies of a value.
pub(crate) fn filled<V: Copy>(alloc: Global, n: u32, value: V) -> Result<Vec<V>, NoMemory>
    ensures { IfOk result (λ values. values.items ≡ replicate n value) }
{
    let mut values = Vec::new(alloc);
    values.resize(n as usize, value)?;
    Ok(values)
}

/// Tries the steps from one observation with the total `v` to each. The answer is the first to which
/// the step does not fit.
fn try_steps<T: Total>(
    total: &T,
    v: T::Value,
    from: u32,
    next: &mut RoundTotals<T::Value>,
) -> Option<u32>
    requires from_in { from < (T.rule total.now).count }
    requires values_len { vec_len next.old.values ≡ (T.rule total.now).count }
    requires from_len { vec_len next.old.from ≡ (T.rule total.now).count }
    ensures tried { IfNone result (IsTried (T.rule total.now) T.exact (T.exact v) from
        next.old.values.items next.old.from.items (T.rule total.now).count
        next.new.values.items next.new.from.items) }
    ensures fit { IfNone result
        (StepsFit (T.rule total.now) T.fits (T.exact v) from (T.rule total.now).count) }
    ensures within { IfSome result (λ to. to < (T.rule total.now).count) }
    ensures wide { IfSome result (λ to. ¬ (T.fits ((T.rule total.now).after (T.exact v) from to))) }
    ensures fit_before { IfSome result (StepsFit (T.rule total.now) T.fits (T.exact v) from) }
{
    let n = total.n();
    let mut to = total.first_to_try(v, from, 0, next.values.as_slice());
    while to < n {
        let best = next.values[to as usize];
        match total.step(v, from, to) {
            Ok(found) => {
                if total.less(found, best) {
                    next.values[to as usize] = found;
                    next.from[to as usize] = from;
                }
            }
            Err(_) => return Some(to),
        }
        to = total.first_to_try(v, from, to + 1, next.values.as_slice());
    }
    None
}

/// One step more, from each observation whose total the last round made less.
pub(crate) fn next_round<T: Total>(
    alloc: Global,
    total: &T,
    round: &RoundTotals<T::Value>,
) -> Result<Advance<T::Value>, NoMemory>
    requires values_len { vec_len round.now.values ≡ (T.rule total.now).count }
    requires from_len { vec_len round.now.from ≡ (T.rule total.now).count }
    ensures { IfOk result (IsAdvance (T.rule total.now) T.fits T.exact
        round.now.values.items round.now.from.items) }
{
    let n = total.n();
    let mut next = round.unimproved(alloc, n)?;
    for from in 0..n {
        if round.from[from as usize] < n {
            let v = round.values[from as usize];
            match try_steps(total, v, from, &mut next) {
                Some(to) => return Ok(Advance::TooWide { from, to }),
                None => {}
            }
        }
    }
    Ok(Advance::Next(next))
}
