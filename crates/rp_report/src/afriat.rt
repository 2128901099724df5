//! The lines of evidence by Afriat's theorem.
ghost use Rattle.std.specs.Prelude.{◌≡◌, ◌++◌, OnOk, codes};
ghost use Rattle.rp_report.specs.AfriatText.{afriat_text};
ghost use Rattle.rp_print.specs.ListText.{line_of, numbers_text, ordinal_text, sums_text};

use rp_evidence::{AfriatPart, Numbers};
use rp_num::NoMemory;
use rp_print::{Ordinal, push_after, push_line, push_long_numbers, push_ordinals, push_sums};
use std::alloc::Global;

/// Appends the lines of evidence by Afriat's theorem.
pub(crate) fn push_afriat(
    alloc: Global,
    out: &mut Vec<u8>,
    evidence: &AfriatPart,
) -> Result<(), NoMemory>
    ensures { OnOk result (out.new.items ≡ out.old.items ++ afriat_text evidence.now) }
{
    match evidence {
        AfriatPart::Model(numbers) => {
            push_line(out, b"afriat model")?;
            push_model(alloc, out, numbers)
        }
        AfriatPart::NoModel(cycle) => {
            push_line(out, b"afriat none")?;
            push_ordinals(alloc, out, b"cycle ", cycle.as_slice())
        }
        AfriatPart::Wide { at } => push_withheld(alloc, out, *at),
    }
}

/// Appends the lines of the numbers.
fn push_model(alloc: Global, out: &mut Vec<u8>, numbers: &Numbers) -> Result<(), NoMemory>
    ensures { OnOk result (out.new.items
        ≡ out.old.items ++ line_of (codes "utility " ++ sums_text numbers.now.u)
        ++ line_of (codes "lambda " ++ numbers_text numbers.now.lambda)) }
{
    push_sums(alloc, out, b"utility ", numbers.u.as_slice())?;
    push_long_numbers(alloc, out, b"lambda ", numbers.lambda.as_slice())
}

/// Appends the line on numbers that are withheld. Ordinals are counted from 1.
fn push_withheld(alloc: Global, out: &mut Vec<u8>, at: u32) -> Result<(), NoMemory>
    ensures { OnOk result (
        out.new.items ≡ out.old.items
        ++ line_of (codes "afriat withheld at " ++ ordinal_text at)) }
{
    push_after::<Ordinal>(alloc, out, b"afriat withheld at ", at)?;
    out.push(b'\n')?;
    Ok(())
}
