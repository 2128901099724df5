//! The lines of mixtures and of weights that show there is none.
ghost use Rattle.std.specs.Prelude.{◌≡◌, ◌++◌, OnOk, codes};
ghost use Rattle.rp_num.specs.Fraction.{fraction_text};
ghost use Rattle.rp_print.specs.ListText.{line_of};
ghost use Rattle.rp_print.specs.MixtureText.{apportioned_text, mixture_text, part_text, parts_text};
ghost use Rattle.rp_print.specs.MixtureText.{violation_text};

use crate::entry::{LongNumber, Print};
use crate::line::{push_after, push_fraction_line, push_number_line};
use crate::list::{push_list, push_numbers_over};
use rp_evidence::Share;
use rp_num::{Frac, NoMemory};
use std::alloc::Global;

/// Appends the line on the unit that was asked for.
pub fn push_apportioned(alloc: Global, out: &mut Vec<u8>, unit: Option<u32>) -> Result<(), NoMemory>
    ensures { OnOk result (out.new.items ≡ out.old.items ++ apportioned_text unit) }
{
    match unit {
        Some(unit) => push_number_line(alloc, out, b"apportioned per ", u64::from(unit)),
        None => Ok(()),
    }
}

/// Appends a mixture over a denominator, after the name of what it is a mixture of.
pub fn push_mixture<P: Print<Entry = u32>>(
    alloc: Global,
    out: &mut Vec<u8>,
    name: &[u8],
    den: u64,
    parts: &[Share],
) -> Result<(), NoMemory>
    ensures { OnOk result (
        out.new.items ≡ out.old.items ++ mixture_text name.now P.text den parts.now) }
{
    out.extend_from_slice(name)?;
    push_number_line(alloc, out, b" mixture over ", den)?;
    push_parts::<P>(alloc, out, parts)
}

/// Appends what shows that there is no mixture: the greatest share, and the weights and a partial mixture over a
/// denominator, after the name of what it would be a mixture of.
pub fn push_violation<P: Print<Entry = u32>>(
    alloc: Global,
    out: &mut Vec<u8>,
    name: &[u8],
    share: Frac,
    den: u64,
    weights: &[u64],
    parts: &[Share],
) -> Result<(), NoMemory>
    ensures { OnOk result (out.new.items
        ≡ out.old.items ++ violation_text name.now P.text share den weights.now parts.now) }
{
    push_share(alloc, out, name, share)?;
    push_numbers_over(alloc, out, b"weights ", weights, den)?;
    push_parts::<P>(alloc, out, parts)
}

/// Appends the line of the greatest share.
fn push_share(alloc: Global, out: &mut Vec<u8>, name: &[u8], share: Frac) -> Result<(), NoMemory>
    ensures { OnOk result (out.new.items ≡ out.old.items
        ++ line_of (name.now ++ codes " violated share " ++ fraction_text share)) }
{
    out.extend_from_slice(name)?;
    push_fraction_line(alloc, out, b" violated share ", share)
}

/// Appends the parts of a mixture, a line each.
fn push_parts<P: Print<Entry = u32>>(
    alloc: Global,
    out: &mut Vec<u8>,
    parts: &[Share],
) -> Result<(), NoMemory>
    ensures { OnOk result (out.new.items ≡ out.old.items ++ parts_text P.text parts.now) }
{
    for part in parts {
        push_part::<P>(alloc, out, part)?;
    }
    Ok(())
}

/// Appends the line of a part: what it is made of, and its weight.
fn push_part<P: Print<Entry = u32>>(
    alloc: Global,
    out: &mut Vec<u8>,
    part: &Share,
) -> Result<(), NoMemory>
    ensures { OnOk result (out.new.items ≡ out.old.items ++ part_text P.text part.now) }
{
    out.extend_from_slice(b"part ")?;
    push_list::<P>(alloc, out, part.patches.as_slice())?;
    push_after::<LongNumber>(alloc, out, b" weight ", part.weight)?;
    out.push(b'\n')?;
    Ok(())
}
