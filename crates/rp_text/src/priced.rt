//! The table of prices and quantities under two marks.
ghost use Rattle.std.specs.Prelude.{◌≡◌, ◌≢◌, [], IfOk, IfSome, All, length};
ghost use Rattle.rp_table.specs.Tables.{IsTable, levels_given};
ghost use Rattle.rp_forms.specs.Columns.{names_with, is_price};
ghost use Rattle.rp_sheet.specs.Sizes.{sizes_of};
ghost use Rattle.rp_text.specs.Denotation.{priced_table};

use rp_forms::Role;
use rp_num::{Decimal, NoMemory, Seq};
use rp_sheet::{Columns, numbers_under, places_of};
use rp_table::{Name, Table};
use std::alloc::Global;

/// The table of the prices and quantities in the columns under the marks of this kind of file: of goods, or of the
/// inputs of a technology. The names, the figures and the sizes are those that were read from these columns. The sizes
/// go into the table and the figures say their places, so nothing is scaled or looked for again, and only a want of
/// memory can refuse it.
pub fn priced_table(
    alloc: Global,
    columns: &Columns<'_>,
    names: Vec<Name>,
    figures: &[Seq<Decimal>],
    sizes: &[Seq<u64>],
    levels: Option<Vec<u32>>,
) -> Result<Table, NoMemory>
    requires named { names.items
        ≡ names_with columns.now.form.marks is_price columns.now.headers }
    requires whole { All (λ row. length row ≡ length columns.now.headers) figures.now }
    requires sized { sizes.now ≡ sizes_of columns.now.form columns.now.headers figures.now }
    requires some_levels { IfSome levels (λ given. given.items ≢ []) }
    requires within { IsTable (priced_table columns.now.form columns.now.headers figures.now
        (levels_given levels)) }
    ensures { IfOk result (λ table. table ≡ priced_table columns.now.form columns.now.headers
        figures.now (levels_given levels)) }
{
    let marks = columns.form().marks;
    let prices = numbers_under(alloc, columns, marks.prices(), names.as_slice(), sizes)?;
    let quantities = numbers_under(alloc, columns, marks.quantities(), names.as_slice(), sizes)?;
    let price_places = places_of(columns, figures, Role::Price) as u8;
    let quantity_places = places_of(columns, figures, Role::Quantity) as u8;
    Ok(Table::make(
        names,
        prices,
        quantities,
        price_places,
        quantity_places,
        levels,
    ))
}
