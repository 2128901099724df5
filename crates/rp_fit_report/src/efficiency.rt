//! The lines of an efficiency index, as in the report of a table certificate.
ghost use Rattle.std.specs.Prelude.{◌≡◌, ◌++◌, OnOk};
ghost use Rattle.rp_report.specs.EfficiencyText.{above_text, at_text, efficiency_text};

use rp_evidence::{Efficiency, Garp, Level};
use rp_num::NoMemory;
use rp_print::{push_numbers, push_ordinals};
use rp_report::push_index;
use std::alloc::Global;

/// Appends the lines of an efficiency index.
pub fn push_efficiency(
    alloc: Global,
    out: &mut Vec<u8>,
    evidence: &Efficiency,
) -> Result<(), NoMemory>
    ensures { OnOk result (out.new.items ≡ out.old.items ++ efficiency_text evidence.now) }
{
    push_index(alloc, out, evidence)?;
    push_numbers(alloc, out, b"below ", evidence.below.as_slice())?;
    push_above(alloc, out, evidence.level, evidence.above.as_slice())?;
    push_at(alloc, out, &evidence.at)
}

/// Appends the line on every greater level, where the index is not 1.
fn push_above(alloc: Global, out: &mut Vec<u8>, level: Level, above: &[u32]) -> Result<(), NoMemory>
    ensures { OnOk result (out.new.items ≡ out.old.items ++ above_text level above.now) }
{
    if level.num == level.den {
        return Ok(());
    }
    push_ordinals(alloc, out, b"above ", above)
}

/// Appends the line on the index itself.
fn push_at(alloc: Global, out: &mut Vec<u8>, at: &Garp) -> Result<(), NoMemory>
    ensures { OnOk result (out.new.items ≡ out.old.items ++ at_text at.now) }
{
    match at {
        Garp::Ranks(ranks) => push_numbers(alloc, out, b"at ranks ", ranks.as_slice()),
        Garp::Cycle(cycle) => push_ordinals(alloc, out, b"at cycle ", cycle.as_slice()),
    }
}
