//! Lines of a report.
ghost use Rattle.std.specs.Prelude.{◌≡◌, ◌++◌, OnOk};
ghost use Rattle.std.specs.Fmt.{decimal};
ghost use Rattle.rp_num.specs.Fraction.{fraction_text};
ghost use Rattle.rp_print.specs.ListText.{line_of};

use crate::entry::{Fraction, LongNumber, Print};
use rp_num::{Frac, NoMemory};
use std::alloc::Global;

/// Appends a text and a line feed.
pub fn push_line(out: &mut Vec<u8>, text: &[u8]) -> Result<(), NoMemory>
    ensures { OnOk result (out.new.items ≡ out.old.items ++ line_of text.now) }
{
    out.extend_from_slice(text)?;
    out.push(b'\n')?;
    Ok(())
}

/// Appends an entry after a text.
pub fn push_after<P: Print>(
    alloc: Global,
    out: &mut Vec<u8>,
    before: &[u8],
    entry: P::Entry,
) -> Result<(), NoMemory>
    ensures { OnOk result (out.new.items ≡ out.old.items ++ before.now ++ P.text entry) }
{
    out.extend_from_slice(before)?;
    P::push(alloc, out, entry)
}

/// Appends a line of one number after a text.
pub fn push_number_line(
    alloc: Global,
    out: &mut Vec<u8>,
    before: &[u8],
    number: u64,
) -> Result<(), NoMemory>
    ensures { OnOk result (
        out.new.items ≡ out.old.items ++ line_of (before.now ++ decimal number)) }
{
    push_after::<LongNumber>(alloc, out, before, number)?;
    out.push(b'\n')?;
    Ok(())
}

/// Appends a line of one fraction after a text.
pub fn push_fraction_line(
    alloc: Global,
    out: &mut Vec<u8>,
    before: &[u8],
    fraction: Frac,
) -> Result<(), NoMemory>
    ensures { OnOk result (
        out.new.items ≡ out.old.items ++ line_of (before.now ++ fraction_text fraction)) }
{
    push_after::<Fraction>(alloc, out, before, fraction)?;
    out.push(b'\n')?;
    Ok(())
}
