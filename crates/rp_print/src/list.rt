//! Lines that list entries.
ghost use Rattle.std.specs.Prelude.{◌≡◌, ◌++◌, OnOk, codes};
ghost use Rattle.std.specs.List.{flat_map};
ghost use Rattle.rp_print.specs.ListText.{fractions_text, line_of, list_text, numbers_text};
ghost use Rattle.rp_print.specs.ListText.{ordinals_text, over_text, sums_text};

use crate::entry::{Fraction, LongNumber, Number, Ordinal, Print, Signed};
use crate::line::push_after;
use rp_num::{Frac, NoMemory};
use std::alloc::Global;

/// Appends a line that lists numbers after a word.
pub fn push_numbers(
    alloc: Global,
    out: &mut Vec<u8>,
    word: &[u8],
    numbers: &[u32],
) -> Result<(), NoMemory>
    ensures { OnOk result (
        out.new.items ≡ out.old.items ++ line_of (word.now ++ numbers_text numbers.now)) }
{
    push_list_line::<Number>(alloc, out, word, numbers)
}

/// Appends a line that lists numbers of 64 bits after a word.
pub fn push_long_numbers(
    alloc: Global,
    out: &mut Vec<u8>,
    word: &[u8],
    numbers: &[u64],
) -> Result<(), NoMemory>
    ensures { OnOk result (
        out.new.items ≡ out.old.items ++ line_of (word.now ++ numbers_text numbers.now)) }
{
    push_list_line::<LongNumber>(alloc, out, word, numbers)
}

/// Appends a line that lists numbers from 0 after a word, each printed from 1.
pub fn push_ordinals(
    alloc: Global,
    out: &mut Vec<u8>,
    word: &[u8],
    ordinals: &[u32],
) -> Result<(), NoMemory>
    ensures { OnOk result (
        out.new.items ≡ out.old.items ++ line_of (word.now ++ ordinals_text ordinals.now)) }
{
    push_list_line::<Ordinal>(alloc, out, word, ordinals)
}

/// Appends a line that lists whole numbers after a word.
pub fn push_sums(
    alloc: Global,
    out: &mut Vec<u8>,
    word: &[u8],
    sums: &[i128],
) -> Result<(), NoMemory>
    ensures { OnOk result (
        out.new.items ≡ out.old.items ++ line_of (word.now ++ sums_text sums.now)) }
{
    push_list_line::<Signed>(alloc, out, word, sums)
}

/// Appends a line that lists fractions after a word.
pub fn push_fractions(
    alloc: Global,
    out: &mut Vec<u8>,
    word: &[u8],
    fractions: &[Frac],
) -> Result<(), NoMemory>
    ensures { OnOk result (
        out.new.items ≡ out.old.items ++ line_of (word.now ++ fractions_text fractions.now)) }
{
    push_list_line::<Fraction>(alloc, out, word, fractions)
}

/// Appends a line that lists numerators after a word, and then their denominator.
pub fn push_numbers_over(
    alloc: Global,
    out: &mut Vec<u8>,
    word: &[u8],
    numbers: &[u64],
    den: u64,
) -> Result<(), NoMemory>
    ensures { OnOk result (
        out.new.items ≡ out.old.items ++ line_of (word.now ++ over_text numbers.now den)) }
{
    out.extend_from_slice(word)?;
    push_list::<LongNumber>(alloc, out, numbers)?;
    push_after::<LongNumber>(alloc, out, b" over ", den)?;
    out.push(b'\n')?;
    Ok(())
}

/// Appends a line that lists entries after a word.
fn push_list_line<P: Print>(
    alloc: Global,
    out: &mut Vec<u8>,
    word: &[u8],
    entries: &[P::Entry],
) -> Result<(), NoMemory>
    ensures { OnOk result (
        out.new.items ≡ out.old.items ++ line_of (word.now ++ list_text P.text entries.now)) }
{
    out.extend_from_slice(word)?;
    push_list::<P>(alloc, out, entries)?;
    out.push(b'\n')?;
    Ok(())
}

/// Appends entries with one space between them; `none` for no entries.
pub fn push_list<P: Print>(
    alloc: Global,
    out: &mut Vec<u8>,
    entries: &[P::Entry],
) -> Result<(), NoMemory>
    ensures { OnOk result (out.new.items ≡ out.old.items ++ list_text P.text entries.now) }
{
    match entries {
        [] => {
            out.extend_from_slice(b"none")?;
            Ok(())
        }
        [first, others @ ..] => {
            P::push(alloc, out, *first)?;
            push_others::<P>(alloc, out, others)
        }
    }
}

/// Appends entries, each after a space.
fn push_others<P: Print>(
    alloc: Global,
    out: &mut Vec<u8>,
    entries: &[P::Entry],
) -> Result<(), NoMemory>
    ensures { OnOk result (
        out.new.items ≡ out.old.items
        ++ flat_map (λ entry. codes " " ++ P.text entry) entries.now) }
{
    for entry in entries {
        out.extend_from_slice(b" ")?;
        P::push(alloc, out, *entry)?;
    }
    Ok(())
}
