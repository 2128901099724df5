//! The lines of an efficiency index.
ghost use Rattle.std.specs.Prelude.{◌≡◌, ◌++◌, OnOk};
ghost use Rattle.rp_report.specs.EfficiencyText.{above_text, at_text, attained_text};
ghost use Rattle.rp_report.specs.EfficiencyText.{efficiency_text, index_text, level_text};

use rp_evidence::{Efficiency, Garp, Level};
use rp_num::NoMemory;
use rp_print::{LongNumber, Print, push_after, push_line, push_numbers, push_ordinals};
use std::alloc::Global;

/// Appends the lines of an efficiency index.
pub(crate) fn push_efficiency(
    alloc: Global,
    out: &mut Vec<u8>,
    evidence: &Efficiency,
) -> Result<(), NoMemory>
    ensures { OnOk result (out.new.items ≡ out.old.items ++ efficiency_text evidence.now) }
{
    push_index(alloc, out, evidence)?;
    push_numbers(alloc, out, b"below ", evidence.below.as_slice())?;
    push_above(alloc, out, evidence.level, evidence.above.as_slice())?;
    push_at(alloc, out, &evidence.at)
}

/// Appends the line of the index and of whether it is attained.
pub fn push_index(alloc: Global, out: &mut Vec<u8>, evidence: &Efficiency) -> Result<(), NoMemory>
    ensures { OnOk result (out.new.items ≡ out.old.items ++ index_text evidence.now) }
{
    out.extend_from_slice(b"efficiency ")?;
    push_level(alloc, out, evidence.level)?;
    out.extend_from_slice(b" attained ")?;
    push_line(out, attained(&evidence.at))
}

/// Whether the index is attained.
fn attained(at: &Garp) -> &'static [u8]
    ensures { result.now ≡ attained_text at.now }
{
    match at {
        Garp::Ranks(_) => b"yes",
        Garp::Cycle(_) => b"no",
    }
}

/// Appends a level with its numerator and its denominator as they stand.
fn push_level(alloc: Global, out: &mut Vec<u8>, level: Level) -> Result<(), NoMemory>
    ensures { OnOk result (out.new.items ≡ out.old.items ++ level_text level) }
{
    LongNumber::push(alloc, out, level.num)?;
    if level.den == 1 {
        return Ok(());
    }
    push_after::<LongNumber>(alloc, out, b"/", level.den)
}

/// Appends the line on every greater level, where the index is not 1.
fn push_above(alloc: Global, out: &mut Vec<u8>, level: Level, above: &[u32]) -> Result<(), NoMemory>
    ensures { OnOk result (out.new.items ≡ out.old.items ++ above_text level above.now) }
{
    if level.num == level.den {
        return Ok(());
    }
    push_ordinals(alloc, out, b"above ", above)
}

/// Appends the line on the index itself.
fn push_at(alloc: Global, out: &mut Vec<u8>, at: &Garp) -> Result<(), NoMemory>
    ensures { OnOk result (out.new.items ≡ out.old.items ++ at_text at.now) }
{
    match at {
        Garp::Ranks(ranks) => push_numbers(alloc, out, b"at ranks ", ranks.as_slice()),
        Garp::Cycle(cycle) => push_ordinals(alloc, out, b"at cycle ", cycle.as_slice()),
    }
}
