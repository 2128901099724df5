//! The decimal places of a file of new prices.
ghost use Rattle.std.specs.Prelude.{◌≡◌, ◌≤◌, Ok, IfOk};
ghost use Rattle.rp_sheet.specs.Refusals.{RefusedAs};
ghost use Rattle.rp_bound_rows.specs.PricePlaces.{price_places_beside};

use rp_forms::{Form, Role};
use rp_num::NoMemory;
use rp_sheet::{FileKind, Sheet, TableFault, places_of, read_file};
use rp_table::{Name, Table};
use std::alloc::Global;

/// Reads how many decimal places the scale of new prices beside a table has.
#[tactic(auto, unfolding(crate::specs::PricePlaces::price_places_beside))]
pub(crate) fn read_price_places(
    alloc: Global,
    bytes: &[u8],
    table: &Table,
) -> Result<u32, TableFault>
    ensures denoted { IfOk result (λ places. price_places_beside table.now bytes.now ≡ Ok places) }
    ensures refused { RefusedAs result (price_places_beside table.now bytes.now) }
    ensures few { IfOk result (λ places. places ≤ 6) }
{
    read_file(alloc, bytes, &PlacesFile { table })
}

/// The places of new prices beside a table.
#[derive(Drop)]
struct PlacesFile<'t> {
    table: &'t Table,
}

impl FileKind for PlacesFile<'_> {
    ghost use Rattle.std.specs.Prelude.{◌≤◌, false};
    ghost use Rattle.rp_forms.specs.Forms.{prices_form};
    ghost use Rattle.rp_bound_rows.specs.PricePlaces.{price_places_of};

    type Value = u32;

    ghost form = { λ kind. prices_form false kind.table.now.quantity_places };

    ghost goods = { λ kind. kind.table.now.names };

    ghost value = { λ kind. price_places_of kind.table.now.quantity_places };

    ghost fits = { λ kind places. places ≤ 6 };

    fn form(&self) -> Form {
        Form::prices(false, self.table.quantity_places())
    }

    fn goods(&self) -> &[Name] {
        self.table.names()
    }

    fn make(&self, _alloc: Global, sheet: &Sheet<'_>) -> Result<u32, NoMemory> {
        Ok(places_of(&sheet.columns, sheet.figures.as_slice(), Role::Price))
    }
}
