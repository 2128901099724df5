//! The faults of each kind of file, with what is told of them.
ghost use Rattle.std.specs.Prelude.{◌≡◌, Some};
ghost use Rattle.rp_json.specs.declared.fault.JsonFault.TheVariants as json_fault;
ghost use Rattle.rp_menu.specs.declared.fault.MenuFault.TheVariants as menu_fault;
ghost use Rattle.rp_commands.specs.FaultTexts.{fault_text, json_fault_text};
ghost use Rattle.rp_commands.specs.MenuContents.{menu_fault_text};
ghost use Rattle.rp_sheet.specs.declared.fault.TableFault.TheVariants as fault;

use crate::fault_text::FileFault;
use crate::told::{Place, Told};
use rp_json::JsonFault;
use rp_menu::MenuFault;
use rp_text::TableFault;

/// A fault of that name at a place.
fn told(name: &'static [u8], place: Place) -> Option<Told>
    ensures { result ≡ Some (record { name = name.entry; place = place }) }
{
    Some(Told { name, place })
}

impl FileFault for TableFault {
    ghost no_memory = { fault.NoMemory };

    ghost text = { fault_text };

    fn told(self) -> Option<Told> {
        match self {
            TableFault::Empty => told(b"Empty", Place::File),
            TableFault::Ragged { row } => told(b"Ragged", Place::Record(row)),
            TableFault::BadHeader { column } => told(b"BadHeader", Place::Column(column)),
            TableFault::TwiceNamed { column } => told(b"TwiceNamed", Place::Column(column)),
            TableFault::Unpaired { column } => told(b"Unpaired", Place::Column(column)),
            TableFault::TooManyGoods => told(b"TooManyGoods", Place::File),
            TableFault::NoRecords => told(b"NoRecords", Place::File),
            TableFault::TooManyRecords => told(b"TooManyRecords", Place::File),
            TableFault::BadNumber { row, column } => told(b"BadNumber", Place::Cell(row, column)),
            TableFault::TooManyDecimals { row, column } => {
                told(b"TooManyDecimals", Place::Cell(row, column))
            }
            TableFault::ZeroPrice { row, column } => told(b"ZeroPrice", Place::Cell(row, column)),
            TableFault::ZeroBundle { row } => told(b"ZeroBundle", Place::Record(row)),
            TableFault::TooLarge { row, column } => told(b"TooLarge", Place::Cell(row, column)),
            TableFault::OtherGoods { column } => told(b"OtherGoods", Place::Column(column)),
            TableFault::TooFine { row, column } => told(b"TooFine", Place::Cell(row, column)),
            TableFault::UnknownBudget { row } => told(b"UnknownBudget", Place::Record(row)),
            TableFault::NoChoices { budget } => told(b"NoChoices", Place::Budget(budget)),
            TableFault::BadLevel { row, column } => told(b"BadLevel", Place::Cell(row, column)),
            TableFault::NoMemory => None,
        }
    }
}

impl FileFault for MenuFault {
    ghost no_memory = { menu_fault.NoMemory };

    ghost text = { menu_fault_text };

    fn told(self) -> Option<Told> {
        match self {
            MenuFault::Empty => told(b"Empty", Place::File),
            MenuFault::Ragged { row } => told(b"Ragged", Place::Record(row)),
            MenuFault::BadHeader { column } => told(b"BadHeader", Place::Column(column)),
            MenuFault::TwiceNamed { column } => told(b"TwiceNamed", Place::Column(column)),
            MenuFault::Unpaired { column } => told(b"Unpaired", Place::Column(column)),
            MenuFault::NoRecords => told(b"NoRecords", Place::File),
            MenuFault::TooManyRecords => told(b"TooManyRecords", Place::File),
            MenuFault::BadNumber { row, column } => told(b"BadNumber", Place::Cell(row, column)),
            MenuFault::TooManyDecimals { row, column } => {
                told(b"TooManyDecimals", Place::Cell(row, column))
            }
            MenuFault::TooLarge { row, column } => told(b"TooLarge", Place::Cell(row, column)),
            MenuFault::BadMenu { row } => told(b"BadMenu", Place::Record(row)),
            MenuFault::BadChoice { row } => told(b"BadChoice", Place::Record(row)),
            MenuFault::NoMenus => told(b"NoMenus", Place::File),
            MenuFault::TooManyCells { row } => told(b"TooManyCells", Place::Record(row)),
            MenuFault::NoMemory => None,
        }
    }
}

impl FileFault for JsonFault {
    ghost no_memory = { json_fault.NoMemory };

    ghost text = { json_fault_text };

    fn told(self) -> Option<Told> {
        match self {
            JsonFault::NotJson => told(b"NotJson", Place::File),
            JsonFault::BadVersion => told(b"BadVersion", Place::File),
            JsonFault::BadShape { item } => told(b"BadShape", Place::Item(item)),
            JsonFault::NoMemory => None,
        }
    }
}
