//! The lines of a verdict of the quasilinear test.
ghost use Rattle.std.specs.Prelude.{◌≡◌, ◌++◌, OnOk};
ghost use Rattle.rp_report.specs.QuasilinearText.{quasilinear_text};

use rp_evidence::Quasi;
use rp_num::NoMemory;
use rp_print::{push_line, push_ordinals, push_sums};
use std::alloc::Global;

/// Appends the lines of a verdict of the quasilinear test.
pub(crate) fn push_quasilinear(
    alloc: Global,
    out: &mut Vec<u8>,
    verdict: &Quasi,
) -> Result<(), NoMemory>
    ensures { OnOk result (out.new.items ≡ out.old.items ++ quasilinear_text verdict.now) }
{
    match verdict {
        Quasi::Values(values) => {
            push_line(out, b"quasilinear holds")?;
            push_sums(alloc, out, b"values ", values.as_slice())
        }
        Quasi::Cycle(cycle) => {
            push_line(out, b"quasilinear violated")?;
            push_ordinals(alloc, out, b"cycle ", cycle.as_slice())
        }
    }
}
