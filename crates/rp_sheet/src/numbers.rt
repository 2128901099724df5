//! The numbers of columns, by record.
ghost use Rattle.std.specs.Prelude.{◌≡◌, ℕ, ◌<◌, ◌≤◌, IfOk, All, length, slice_index};
ghost use Rattle.rp_limits.specs.declared.table.TheConstants.{LARGEST};
ghost use Rattle.rp_num.specs.Below.{listed};
ghost use Rattle.rp_forms.specs.Texts.{text_at};
ghost use Rattle.rp_sheet.specs.Sheets as Sheets;
ghost use Rattle.rp_sheet.specs.Sheets.{column_of, numbers_under};

use crate::columns::Columns;
use crate::goods::columns_of;
use rp_num::{NoMemory, Seq};
use rp_table::Name;
use std::alloc::Global;

/// The numbers in the columns of the goods under that mark, by record and then good.
pub fn numbers_under(
    alloc: Global,
    columns: &Columns<'_>,
    mark: &[u8],
    names: &[Name],
    sizes: &[Seq<u64>],
) -> Result<Vec<u32>, NoMemory>
    requires { (t g : ℕ) → t < length sizes.now → g < length names.now
        → slice_index (text_at sizes.now t) (column_of mark.now columns.now.headers names.now
        g) ≤ LARGEST }
    ensures { IfOk result (λ numbers. numbers.items
        ≡ numbers_under mark.now columns.now.headers names.now sizes.now) }
{
    let places = columns_of(alloc, columns, mark, names)?;
    let mut numbers = Vec::new(alloc);
    for row in sizes {
        let chosen = numbers_at(alloc, row.as_slice(), places.as_slice())?;
        numbers.extend_from_slice(chosen.as_slice())?;
    }
    Ok(numbers)
}

/// The numbers of a record at these places.
fn numbers_at(alloc: Global, row: &[u64], places: &[usize]) -> Result<Vec<u32>, NoMemory>
    requires { (g : ℕ) → g < length places.now
        → slice_index row.now (slice_index places.now g) ≤ LARGEST }
    ensures { IfOk result (λ numbers. numbers.items ≡ listed (length places.now)
        (λ g. slice_index row.now (slice_index places.now g))) }
{
    let mut numbers = Vec::new(alloc);
    for place in places {
        numbers.push(row.get(*place).copied().unwrap_or(0) as u32)?;
    }
    Ok(numbers)
}

/// The numbers in the column with that header, by record.
pub fn column_numbers(
    alloc: Global,
    columns: &Columns<'_>,
    header: &[u8],
    sizes: &[Seq<u64>],
) -> Result<Vec<u64>, NoMemory>
    ensures { IfOk result (λ numbers. numbers.items
        ≡ Sheets.column_numbers header.now columns.now.headers sizes.now) }
{
    let place = columns.find(header).unwrap_or(0);
    let mut numbers = Vec::new(alloc);
    for row in sizes {
        numbers.push(row.as_slice().get(place).copied().unwrap_or(0))?;
    }
    Ok(numbers)
}

/// Numbers within the limit of numbers, in fewer bits.
pub fn narrow(alloc: Global, numbers: &[u64]) -> Result<Vec<u32>, NoMemory>
    requires { All (λ n. n ≤ LARGEST) numbers.now }
    ensures { IfOk result (λ narrow. narrow.items ≡ numbers.now) }
{
    let mut narrow = Vec::new(alloc);
    for number in numbers {
        narrow.push(*number as u32)?;
    }
    Ok(narrow)
}
