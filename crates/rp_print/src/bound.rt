//! The lines of bounds with their pairs.
ghost use Rattle.std.specs.Prelude.{◌≡◌, ◌++◌, OnOk};
ghost use Rattle.rp_print.specs.BoundText.{bound_text, bounds_text, entry_text, pair_line};
ghost use Rattle.rp_print.specs.BoundText.{pair_text};

use crate::entry::{Fraction, LongNumber, Ordinal, Print};
use crate::line::push_after;
use crate::list::push_list;
use rp_evidence::Bound;
use rp_farkas::{Entry, Pair};
use rp_num::NoMemory;
use std::alloc::Global;

/// An entry of a point: its column, which is counted from 1, and its value.
pub struct PointEntry;

impl Print for PointEntry {
    type Entry = Entry;

    ghost text = { entry_text };

    fn push(alloc: Global, out: &mut Vec<u8>, entry: Entry) -> Result<(), NoMemory> {
        Ordinal::push(alloc, out, entry.at)?;
        push_after::<LongNumber>(alloc, out, b":", entry.value)
    }
}

/// Appends a bound: its value, or the step at which it is withheld.
pub fn push_bound(alloc: Global, out: &mut Vec<u8>, bound: &Bound) -> Result<(), NoMemory>
    ensures { OnOk result (out.new.items ≡ out.old.items ++ bound_text bound.now) }
{
    match bound {
        Bound::Shown { value, .. } => Fraction::push(alloc, out, *value),
        Bound::Wide { step } => push_after::<LongNumber>(alloc, out, b"withheld ", *step),
    }
}

/// Appends a bound from below, and a cost from above with the observation that has it, which is counted from 0.
pub fn push_bounds(
    alloc: Global,
    out: &mut Vec<u8>,
    lower: &Bound,
    upper: u64,
    at: u32,
) -> Result<(), NoMemory>
    ensures { OnOk result (out.new.items ≡ out.old.items ++ bounds_text lower.now upper at) }
{
    out.extend_from_slice(b" lower ")?;
    push_bound(alloc, out, lower)?;
    push_after::<LongNumber>(alloc, out, b" upper ", upper)?;
    push_after::<Ordinal>(alloc, out, b" at ", at)
}

/// Appends the line of a shown bound's pair, after a word; nothing where the bound is withheld.
pub fn push_pair_line(
    alloc: Global,
    out: &mut Vec<u8>,
    word: &[u8],
    bound: &Bound,
) -> Result<(), NoMemory>
    ensures { OnOk result (out.new.items ≡ out.old.items ++ pair_line word.now bound.now) }
{
    match bound {
        Bound::Wide { .. } => Ok(()),
        Bound::Shown { pair, .. } => {
            out.extend_from_slice(word)?;
            push_pair(alloc, out, pair)?;
            out.push(b'\n')?;
            Ok(())
        }
    }
}

/// Appends a pair: its prices, the positive entries of its point, and their denominator.
fn push_pair(alloc: Global, out: &mut Vec<u8>, pair: &Pair) -> Result<(), NoMemory>
    ensures { OnOk result (out.new.items ≡ out.old.items ++ pair_text pair.now) }
{
    out.extend_from_slice(b"x ")?;
    push_list::<LongNumber>(alloc, out, pair.x.as_slice())?;
    out.extend_from_slice(b" y ")?;
    push_list::<PointEntry>(alloc, out, pair.y.as_slice())?;
    push_after::<LongNumber>(alloc, out, b" over ", pair.den)
}
