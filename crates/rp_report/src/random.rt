//! The lines of evidence on random choices.
ghost use Rattle.std.specs.Prelude.{◌≡◌, ◌≤◌, ◌++◌, Ok, OnOk, length};
ghost use Rattle.rp_farkas.specs.Limits.{FitsEvidence};
ghost use Rattle.rp_patch.specs.RandomFailure.{RandomPartFails};
ghost use Rattle.rp_report.specs.RandomText.{random_text, share_of_units};

use rp_evidence::RandomPart;
use rp_num::{Frac, NoMemory};
use rp_patch::{Patches, weight_of_units};
use rp_print::{Ordinal, lowest_terms, push_mixture, push_number_line, push_violation};
use std::alloc::Global;

/// Appends the lines of evidence on random choices.
pub(crate) fn push_random(
    alloc: Global,
    out: &mut Vec<u8>,
    patches: &Patches,
    evidence: &RandomPart,
) -> Result<(), NoMemory>
    requires { RandomPartFails patches.now evidence.now (Ok tt) }
    ensures { OnOk result (out.new.items ≡ out.old.items ++ random_text patches.now evidence.now) }
{
    match evidence {
        RandomPart::Mixture { den, parts } => {
            push_mixture::<Ordinal>(alloc, out, b"random", *den, parts.as_slice())
        }
        RandomPart::Violated {
            den,
            parts,
            weights,
        } => {
            let weights = weights.as_slice();
            let share = share(patches, *den, weights);
            push_violation::<Ordinal>(
                alloc,
                out,
                b"random",
                share,
                *den,
                weights,
                parts.as_slice(),
            )
        }
        RandomPart::Wide { step } => push_number_line(alloc, out, b"random withheld ", *step),
    }
}

/// What the units of the patches weigh over the denominator, as a share of the total.
fn share(patches: &Patches, den: u64, weights: &[u64]) -> Frac
    requires fraction { 1 ≤ den }
    requires den_fits { FitsEvidence den }
    requires one_each { length weights.now ≡ length patches.now.patches }
    ensures { result ≡ share_of_units patches.now den weights.now }
{
    prove!(patches.budgets() >= 1);
    let whole = u128::from(den) * u128::from(patches.total());
    lowest_terms(weight_of_units(patches, weights), whole)
}
