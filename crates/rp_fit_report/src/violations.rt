//! The lines of numbers of pairs that violate an axiom.
ghost use Rattle.std.specs.Prelude.{◌≡◌, ◌++◌, ◌≤◌, OnOk};
ghost use Rattle.rp_limits.specs.declared.table.TheConstants.{RECORDS};
ghost use Rattle.rp_fit_report.specs.ViolationsText.{observations_text, pairs_text, violations_text};

use rp_fit::ViolationsPart;
use rp_num::NoMemory;
use rp_print::{Number, push_after};
use std::alloc::Global;

/// Appends the lines of numbers of violating pairs of `n` observations.
pub fn push_violations(
    alloc: Global,
    out: &mut Vec<u8>,
    n: u32,
    part: &ViolationsPart,
) -> Result<(), NoMemory>
    requires some { 1 ≤ n }
    requires few { n ≤ RECORDS }
    ensures { OnOk result (out.new.items ≡ out.old.items ++ violations_text n part.now) }
{
    push_pairs(alloc, out, n * (n - 1), part)?;
    push_observations(alloc, out, n, part.observations)
}

/// Appends the line of the numbers of pairs, with how many pairs there are.
fn push_pairs(
    alloc: Global,
    out: &mut Vec<u8>,
    pairs: u32,
    part: &ViolationsPart,
) -> Result<(), NoMemory>
    ensures { OnOk result (out.new.items ≡ out.old.items ++ pairs_text pairs part.now) }
{
    push_after::<Number>(alloc, out, b"violations garp ", part.garp)?;
    push_after::<Number>(alloc, out, b" wgarp ", part.weak_garp)?;
    push_after::<Number>(alloc, out, b" warp ", part.warp)?;
    push_after::<Number>(alloc, out, b" sarp ", part.sarp)?;
    push_after::<Number>(alloc, out, b" of ", pairs)?;
    out.push(b'\n')?;
    Ok(())
}

/// Appends the line of the observations in some pair that violates GARP.
fn push_observations(
    alloc: Global,
    out: &mut Vec<u8>,
    n: u32,
    observations: u32,
) -> Result<(), NoMemory>
    ensures { OnOk result (out.new.items ≡ out.old.items ++ observations_text n observations) }
{
    push_after::<Number>(alloc, out, b"violating observations ", observations)?;
    push_after::<Number>(alloc, out, b" of ", n)?;
    out.push(b'\n')?;
    Ok(())
}
