//! The lines of the bounds on the money metric.
ghost use Rattle.std.specs.Prelude.{◌≡◌, ◌++◌, OnOk};
ghost use Rattle.rp_report.specs.WelfareText.{welfare_head, welfare_text};

use rp_evidence::WelfarePart;
use rp_num::NoMemory;
use rp_print::{
    Number, Ordinal, push_after, push_bounds, push_line, push_list, push_ordinals, push_pair_line,
};
use std::alloc::Global;

/// Appends the lines of the welfare bounds of an observation.
pub(crate) fn push_welfare(
    alloc: Global,
    out: &mut Vec<u8>,
    prices: &[u32],
    of: u32,
    evidence: &WelfarePart,
) -> Result<(), NoMemory>
    ensures { OnOk result
        (out.new.items ≡ out.old.items ++ welfare_text prices.now of evidence.now) }
{
    push_head(alloc, out, prices, of)?;
    match evidence {
        WelfarePart::Bounds { upper, at, lower } => {
            push_bounds(alloc, out, lower, *upper, *at)?;
            out.push(b'\n')?;
            push_pair_line(alloc, out, b"lower ", lower)
        }
        WelfarePart::NoModel(walk) => {
            push_line(out, b" none")?;
            push_ordinals(alloc, out, b"cycle ", walk.as_slice())
        }
    }
}

/// Appends new prices and an observation.
fn push_head(alloc: Global, out: &mut Vec<u8>, prices: &[u32], of: u32) -> Result<(), NoMemory>
    ensures { OnOk result (out.new.items ≡ out.old.items ++ welfare_head prices.now of) }
{
    out.extend_from_slice(b"welfare prices ")?;
    push_list::<Number>(alloc, out, prices)?;
    push_after::<Ordinal>(alloc, out, b" observation ", of)
}
