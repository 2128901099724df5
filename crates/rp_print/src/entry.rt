//! How one kind of entry is printed.
ghost use Rattle.std.specs.Prelude.{◌≡◌, ◌++◌, ℕ, List, OnOk};
ghost use Rattle.std.specs.Fmt.{decimal, signed_decimal};
ghost use Rattle.rp_num.specs.Fraction.{fraction_text};
ghost use Rattle.rp_print.specs.ListText.{ordinal_text};

use itoa::{Buffer, Integer};
use rp_num::{Frac, NoMemory, print_frac};
use std::alloc::Global;

/// How one kind of entry is printed. A crate that prints entries of its own gives an impl for them.
pub trait Print {
    type Entry: Copy;

    /// The text of an entry.
    ghost text: { Self.Entry → List ℕ };

    /// Appends an entry.
    fn push(alloc: Global, out: &mut Vec<u8>, entry: Self::Entry) -> Result<(), NoMemory>
        ensures { OnOk result (out.new.items ≡ out.old.items ++ text entry) };
}

/// A number as it is.
pub struct Number;

impl Print for Number {
    type Entry = u32;

    ghost text = { decimal };

    fn push(_alloc: Global, out: &mut Vec<u8>, entry: u32) -> Result<(), NoMemory> {
        push_digits(out, entry)
    }
}

/// A number of 64 bits as it is.
pub struct LongNumber;

impl Print for LongNumber {
    type Entry = u64;

    ghost text = { decimal };

    fn push(_alloc: Global, out: &mut Vec<u8>, entry: u64) -> Result<(), NoMemory> {
        push_digits(out, entry)
    }
}

/// The number of one of several things, an observation, a good or a patch, which is counted from 0 and printed from 1.
pub struct Ordinal;

impl Print for Ordinal {
    type Entry = u32;

    ghost text = { ordinal_text };

    fn push(_alloc: Global, out: &mut Vec<u8>, entry: u32) -> Result<(), NoMemory> {
        push_digits(out, u64::from(entry) + 1)
    }
}

/// A whole number with its sign.
pub struct Signed;

impl Print for Signed {
    type Entry = i128;

    ghost text = { signed_decimal };

    fn push(_alloc: Global, out: &mut Vec<u8>, entry: i128) -> Result<(), NoMemory> {
        push_digits(out, entry)
    }
}

/// A fraction in lowest terms.
pub struct Fraction;

impl Print for Fraction {
    type Entry = Frac;

    ghost text = { fraction_text };

    fn push(alloc: Global, out: &mut Vec<u8>, entry: Frac) -> Result<(), NoMemory> {
        print_frac(alloc, out, entry)
    }
}

/// Appends an integer as `{}` writes it. No text is made for it in memory.
fn push_digits<I: Integer>(out: &mut Vec<u8>, n: I) -> Result<(), NoMemory>
    ensures { OnOk result (out.new.items ≡ out.old.items ++ I.text n) }
{
    let mut buffer = Buffer::new();
    out.extend_from_slice(buffer.format(n).as_bytes())?;
    Ok(())
}
