//! The lines of a verdict of the homothetic test.
ghost use Rattle.std.specs.Prelude.{◌≡◌, ◌++◌, OnOk, codes};
ghost use Rattle.std.specs.Fmt.{decimal};
ghost use Rattle.rp_num.specs.Fraction.{fraction_text};
ghost use Rattle.rp_report.specs.HomotheticText.{homothetic_text};
ghost use Rattle.rp_print.specs.ListText.{line_of, ordinal_text, ordinals_text};

use rp_evidence::Homothetic;
use rp_num::{Frac, NoMemory};
use rp_print::{
    Number, Ordinal, push_after, push_fraction_line, push_fractions, push_line, push_ordinals,
};
use std::alloc::Global;

/// Appends the lines of a verdict of the homothetic test.
pub(crate) fn push_homothetic(
    alloc: Global,
    out: &mut Vec<u8>,
    verdict: &Homothetic,
) -> Result<(), NoMemory>
    ensures { OnOk result (out.new.items ≡ out.old.items ++ homothetic_text verdict.now) }
{
    match verdict {
        Homothetic::Values(values) => {
            push_line(out, b"homothetic holds")?;
            push_fractions(alloc, out, b"values ", values.as_slice())
        }
        Homothetic::Cycle { start, steps } => {
            push_line(out, b"homothetic violated")?;
            push_cycle(alloc, out, *start, steps.as_slice())
        }
        Homothetic::Withheld { steps, from, to } => {
            push_withheld(alloc, out, *steps, *from, *to)
        }
    }
}

/// Appends the lines of a start and of the closed walk from it.
fn push_cycle(alloc: Global, out: &mut Vec<u8>, start: Frac, steps: &[u32]) -> Result<(), NoMemory>
    ensures { OnOk result (out.new.items ≡ out.old.items
        ++ line_of (codes "start " ++ fraction_text start)
        ++ line_of (codes "cycle " ++ ordinals_text steps.now)) }
{
    push_fraction_line(alloc, out, b"start ", start)?;
    push_ordinals(alloc, out, b"cycle ", steps)
}

/// Appends the line on a homothetic verdict that is withheld. Ordinals are counted from 1.
fn push_withheld(
    alloc: Global,
    out: &mut Vec<u8>,
    steps: u32,
    from: u32,
    to: u32,
) -> Result<(), NoMemory>
    ensures { OnOk result (out.new.items ≡ out.old.items ++ line_of (
        codes "homothetic withheld steps " ++ decimal steps
        ++ codes " from " ++ ordinal_text from ++ codes " to " ++ ordinal_text to)) }
{
    push_after::<Number>(alloc, out, b"homothetic withheld steps ", steps)?;
    push_after::<Ordinal>(alloc, out, b" from ", from)?;
    push_after::<Ordinal>(alloc, out, b" to ", to)?;
    out.push(b'\n')?;
    Ok(())
}
