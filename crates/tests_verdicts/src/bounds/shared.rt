//! What these tests share: the limits of prices and of quantities, and numbers as text.
ghost use Rattle.std.specs.Prelude.{◌↔◌, All, IsTrue};
ghost use Rattle.rp_table.specs.Limits.{IsPrice, IsQuantity};

use rp_limits::table::LARGEST;
use std::alloc::Global;
use std::test::Fail;

/// Whether each price is within the limits.
pub(crate) fn are_prices(prices: &[u32]) -> bool
    ensures { IsTrue result ↔ All IsPrice prices.now }
{
    prices.iter().all(|p| 1 <= *p && *p <= LARGEST)
}

/// Whether each quantity is within the limits.
pub(crate) fn are_quantities(quantities: &[u32]) -> bool
    ensures { IsTrue result ↔ All IsQuantity quantities.now }
{
    quantities.iter().all(|q| *q <= LARGEST)
}

/// A number, with a space before it.
pub(crate) fn push_number(alloc: Global, text: &mut String, number: u64) -> Result<(), Fail> {
    text.push_str(format!(in alloc; " {number}")?.as_str())?;
    Ok(())
}

/// A word, and observations with a space before each, and so much added to it.
pub(crate) fn push_list(
    alloc: Global,
    text: &mut String,
    word: &str,
    list: &[u32],
    more: u8,
) -> Result<(), Fail> {
    text.push_str(word)?;
    for number in list {
        push_number(alloc, text, u64::from(*number) + u64::from(more))?;
    }
    Ok(())
}

/// Numbers with a space before each.
pub(crate) fn push_numbers(alloc: Global, text: &mut String, list: &[u64]) -> Result<(), Fail> {
    for number in list {
        push_number(alloc, text, *number)?;
    }
    Ok(())
}
