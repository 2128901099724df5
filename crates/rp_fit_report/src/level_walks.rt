//! The lines of the money pump and of the levels that closed walks bound.
ghost use Rattle.std.specs.Prelude.{◌≡◌, ◌++◌, ◌≤◌, OnOk};
ghost use Rattle.rp_fit_report.specs.LevelWalksText.{bounds_text, homothetic_level_text, part_of_one};
ghost use Rattle.rp_fit_report.specs.LevelWalksText.{pump_ratio_text, quasilinear_level_text};

use rp_fit::{HomotheticLevelPart, PumpPart, QuasilinearLevelPart};
use rp_num::{Frac, NoMemory};
use rp_print::{
    Fraction, lowest_terms, push_after, push_fraction_line, push_long_numbers, push_ordinals,
    push_sums,
};
use std::alloc::Global;

/// Appends the lines of the maximum money pump ratio.
pub fn push_pump_ratio(alloc: Global, out: &mut Vec<u8>, part: &PumpPart) -> Result<(), NoMemory>
    requires { 1 ≤ part.now.den }
    ensures { OnOk result (out.new.items ≡ out.old.items ++ pump_ratio_text part.now) }
{
    let ratio = lowest_terms(u128::from(part.num), u128::from(part.den));
    push_fraction_line(alloc, out, b"pump ", ratio)?;
    push_ordinals(alloc, out, b"cycle ", part.cycle.as_slice())?;
    push_sums(alloc, out, b"values ", part.values.as_slice())
}

/// Appends the lines of the level of the quasilinear test.
pub fn push_quasilinear_level(
    alloc: Global,
    out: &mut Vec<u8>,
    part: &QuasilinearLevelPart,
) -> Result<(), NoMemory>
    requires { 1 ≤ part.now.den }
    ensures { OnOk result (out.new.items ≡ out.old.items ++ quasilinear_level_text part.now) }
{
    let level = lowest_terms(u128::from(part.num), u128::from(part.den));
    push_fraction_line(alloc, out, b"quasilinear level ", level)?;
    push_ordinals(alloc, out, b"cycle ", part.walk.as_slice())?;
    push_sums(alloc, out, b"values ", part.values.as_slice())
}

/// Appends the lines of the bounds on the level of the homothetic test.
pub fn push_homothetic_level(
    alloc: Global,
    out: &mut Vec<u8>,
    part: &HomotheticLevelPart,
) -> Result<(), NoMemory>
    ensures { OnOk result (out.new.items ≡ out.old.items ++ homothetic_level_text part.now) }
{
    push_bounds(alloc, out, part.low, part.high)?;
    push_ordinals(alloc, out, b"cycle ", part.walk.as_slice())?;
    push_long_numbers(alloc, out, b"values ", part.values.as_slice())
}

/// Appends the line of both bounds.
fn push_bounds(alloc: Global, out: &mut Vec<u8>, low: u64, high: u64) -> Result<(), NoMemory>
    ensures { OnOk result (out.new.items ≡ out.old.items ++ bounds_text low high) }
{
    push_after::<Fraction>(alloc, out, b"homothetic level ", part_of_one(low))?;
    push_fraction_line(alloc, out, b" to ", part_of_one(high))
}

/// So many parts of 1 the bounds are in: 2^40.
const PARTS: u128 = 1_099_511_627_776;

/// A number over 2^40, in lowest terms.
fn part_of_one(number: u64) -> Frac
    ensures { result ≡ part_of_one number }
{
    lowest_terms(u128::from(number), PARTS)
}
