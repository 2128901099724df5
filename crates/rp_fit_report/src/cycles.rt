//! The lines of closed walks with weights.
ghost use Rattle.std.specs.Prelude.{◌≡◌, ◌++◌, OnOk};
ghost use Rattle.std.specs.List.{flat_map};
ghost use Rattle.rp_fit_report.specs.CyclesText.{cycle_text, cycles_text};

use rp_fit::WeightedWalk;
use rp_num::NoMemory;
use rp_print::{LongNumber, Ordinal, push_after, push_list, push_number_line};
use std::alloc::Global;

/// Appends the denominator of the weights, and a line of each closed walk with its weight.
pub fn push_cycles(
    alloc: Global,
    out: &mut Vec<u8>,
    den: u64,
    walks: &[WeightedWalk],
) -> Result<(), NoMemory>
    ensures { OnOk result (out.new.items ≡ out.old.items ++ cycles_text den walks.now) }
{
    push_number_line(alloc, out, b"cycles over ", den)?;
    push_each_cycle(alloc, out, walks)
}

/// Appends a line of each closed walk with its weight.
fn push_each_cycle(alloc: Global, out: &mut Vec<u8>, walks: &[WeightedWalk]) -> Result<(), NoMemory>
    ensures { OnOk result (out.new.items ≡ out.old.items ++ flat_map cycle_text walks.now) }
{
    for each in walks {
        push_cycle(alloc, out, each)?;
    }
    Ok(())
}

/// Appends the line of a closed walk with its weight.
fn push_cycle(alloc: Global, out: &mut Vec<u8>, each: &WeightedWalk) -> Result<(), NoMemory>
    ensures { OnOk result (out.new.items ≡ out.old.items ++ cycle_text each.now) }
{
    out.extend_from_slice(b"cycle ")?;
    push_list::<Ordinal>(alloc, out, each.walk.as_slice())?;
    push_number_line(alloc, out, b" weight ", each.weight)
}
