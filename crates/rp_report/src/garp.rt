//! The lines of a verdict on the generalized axiom.
ghost use Rattle.std.specs.Prelude.{◌≡◌, ◌++◌, OnOk};
ghost use Rattle.rp_report.specs.GarpText.{garp_text};

use rp_evidence::Garp;
use rp_num::NoMemory;
use rp_print::{push_line, push_numbers, push_ordinals};
use std::alloc::Global;

/// Appends the lines of a verdict on the generalized axiom of revealed preference.
pub(crate) fn push_garp(alloc: Global, out: &mut Vec<u8>, verdict: &Garp) -> Result<(), NoMemory>
    ensures { OnOk result (out.new.items ≡ out.old.items ++ garp_text verdict.now) }
{
    match verdict {
        Garp::Ranks(ranks) => {
            push_line(out, b"garp holds")?;
            push_numbers(alloc, out, b"ranks ", ranks.as_slice())
        }
        Garp::Cycle(cycle) => {
            push_line(out, b"garp violated")?;
            push_ordinals(alloc, out, b"cycle ", cycle.as_slice())
        }
    }
}
