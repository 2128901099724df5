//! Numbers and fractions as text.
ghost use Rattle.std.specs.Prelude.{◌≡◌, ◌++◌, OnOk, OnErr};
ghost use Rattle.std.specs.Fmt.{decimal};
ghost use Rattle.rp_num.specs.Fraction.{fraction_text};

use crate::{Frac, NoMemory};
use std::alloc::Global;

/// Appends `n` in plain decimal digits, as Rust's `{n}` writes it. After `NoMemory` nothing has been
/// appended.
pub fn print_u128(alloc: Global, out: &mut Vec<u8>, n: u128) -> Result<(), NoMemory>
    ensures ok { OnOk result (out.new.items ≡ out.old.items ++ decimal n) }
    ensures err { OnErr result (out.new.items ≡ out.old.items) }
{
    let text = n.to_string(alloc)?;
    out.extend_from_slice(text.as_bytes())?;
    Ok(())
}

/// Appends `num/den` in lowest terms, or `num` alone where the denominator is 1. After `NoMemory`
/// nothing has been appended.
pub fn print_frac(alloc: Global, out: &mut Vec<u8>, f: Frac) -> Result<(), NoMemory>
    ensures ok { OnOk result (out.new.items ≡ out.old.items ++ fraction_text f) }
    ensures err { OnErr result (out.new.items ≡ out.old.items) }
{
    let num = f.num();
    let den = f.den();
    let text = if den == 1 {
        num.to_string(alloc)?
    } else {
        format!(in alloc; "{num}/{den}")?
    };
    out.extend_from_slice(text.as_bytes())?;
    Ok(())
}
