//! Numbers and fractions, read from their text.
ghost use Rattle.std.specs.Prelude.{◌≡◌, ◌≢◌, IfOk, IfSome, None};
ghost use Rattle.std.specs.Fmt.{decimal, signed_decimal};
ghost use Rattle.rp_num.specs.Fraction.{FitsTerm, FitsWidth, Fraction, fraction_text};
ghost use Rattle.rp_num.specs.Spelled.{FitsSum, FitsWhole, IsReduced, IsSpelled};

use crate::{FRACTION_WIDTH, Frac, NoMemory, print_frac};
use std::alloc::Global;

/// The number that `print_u128` writes as this text: digits, the first of several not 0.
pub fn read_u128(alloc: Global, text: &str) -> Result<Option<u128>, NoMemory>
    ensures { IfOk result (λ o. IsSpelled decimal FitsWhole text.now o) }
{
    let Ok(n) = text.parse::<u128>() else {
        return Ok(None);
    };
    let printed = n.to_string(alloc)?;
    Ok(if printed.as_str() == text {
        Some(n)
    } else {
        None
    })
}

/// The number, below 2^127 in absolute value, of which this text is the plain decimal.
pub fn read_i128(alloc: Global, text: &str) -> Result<Option<i128>, NoMemory>
    ensures { IfOk result (λ o. IsSpelled signed_decimal FitsSum text.now o) }
{
    let Ok(z) = text.parse::<i128>() else {
        return Ok(None);
    };
    if z == i128::MIN {
        return Ok(None);
    }
    let printed = z.to_string(alloc)?;
    Ok(if printed.as_str() == text {
        Some(z)
    } else {
        None
    })
}

/// The fraction that `print_frac` writes as this text: in lowest terms, and `num` alone where the denominator is 1.
pub fn read_frac(alloc: Global, text: &str) -> Result<Option<Frac>, NoMemory>
    ensures { IfOk result (λ o. IsSpelled fraction_text IsReduced text.now o) }
{
    let (num, den) = split_at_stroke(text);
    let Some(num) = read_part(alloc, num)? else {
        return Ok(None);
    };
    let Some(den) = read_part(alloc, den)? else {
        return Ok(None);
    };
    if den == 0 {
        return Ok(None);
    }
    if_printed_so(alloc, text, Frac::new(num, den))
}

/// What stands before the stroke and after it; `1` where there is none.
fn split_at_stroke(text: &str) -> (&str, &str)
    ensures { (f : Fraction) → FitsWidth f → fraction_text f ≡ text.now
        → (result.0.now ≡ decimal f.num) × (result.1.now ≡ decimal f.den) }
{
    match text.split_once('/') {
        Some(parts) => parts,
        None => (text, "1"),
    }
}

/// The part of a fraction that is written as this text.
fn read_part(alloc: Global, text: &str) -> Result<Option<u128>, NoMemory>
    ensures { IfOk result (λ o. IsSpelled decimal FitsTerm text.now o) }
{
    let Some(part) = read_u128(alloc, text)? else {
        return Ok(None);
    };
    Ok(if part <= FRACTION_WIDTH {
        Some(part)
    } else {
        None
    })
}

/// The fraction where this text is what it is written as.
fn if_printed_so(alloc: Global, text: &str, found: Frac) -> Result<Option<Frac>, NoMemory>
    ensures some { IfOk result (λ o. IfSome o (λ f. (f ≡ found) × (fraction_text f ≡ text.now))) }
    ensures none { IfOk result (λ o. (o ≡ None) → fraction_text found ≢ text.now) }
{
    let mut printed = Vec::new(alloc);
    print_frac(alloc, &mut printed, found)?;
    Ok(if printed.as_slice() == text.as_bytes() {
        Some(found)
    } else {
        None
    })
}
