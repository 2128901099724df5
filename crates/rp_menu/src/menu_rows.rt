//! What the records of a file of choices from menus say, and what they are refused for.
ghost use Rattle.std.specs.Prelude.{◌≡◌, ◌+◌, ◌<◌, codes, length};
ghost use Rattle.rp_menu.specs.Denotation.{is_of_menus, lacks_menu, text_under};

use crate::MenuFault;
use crate::menu_texts::{is_choice, is_menu};
use rp_forms::{Role, number_of};
use rp_num::Decimal;
use rp_sheet::{Columns, NumberRecord, RecordKind, Records, TableFault};

/// Records of choices from menus.
pub struct MenuRecord;

impl RecordKind for MenuRecord {
    ghost use Rattle.rp_menu.specs.Denotation.{menu_faults};

    type Fault = MenuFault;

    ghost faults = { menu_faults };

    fn tell(fault: TableFault) -> MenuFault {
        MenuFault::from(fault)
    }

    fn read_field(
        columns: &Columns<'_>,
        records: &Records,
        t: usize,
        c: usize,
    ) -> Result<Decimal, MenuFault> {
        let number = NumberRecord::read_field(columns, records, t, c)?;
        if lacks_menu(columns.role(c), records.row_field(t, c)) {
            return Err(MenuFault::BadMenu { row: number_of(t) });
        }
        Ok(number)
    }

    #[tactic(auto, unfolding(crate::specs::Denotation::choice_fault))]
    fn check_rest(
        columns: &Columns<'_>,
        records: &Records,
        t: usize,
        _figures: &[Decimal],
    ) -> Result<(), MenuFault> {
        if is_choice(menu_at(columns, records, t), choice_at(columns, records, t)) {
            Ok(())
        } else {
            Err(MenuFault::BadChoice { row: number_of(t) })
        }
    }
}

/// Whether the field of a column of menus is none.
fn lacks_menu(role: Role, field: &[u8]) -> bool
    ensures { result ≡ lacks_menu role field.now }
{
    is_of_menus(role) && !is_menu(field)
}

/// Whether the fields of a column are menus.
fn is_of_menus(role: Role) -> bool
    ensures { result ≡ is_of_menus role }
{
    match role {
        Role::Menu => true,
        _ => false,
    }
}

/// The menu of the t-th record, as it is written.
pub fn menu_at<'a>(columns: &Columns<'_>, records: &'a Records, t: usize) -> &'a [u8]
    requires { t + 1 < length records.now }
    ensures { result.now ≡ text_under (codes "menu") columns.now.headers records.now t }
{
    records.row_field(t, columns.find(b"menu").unwrap_or(0))
}

/// What was chosen by the t-th record, as it is written.
pub fn choice_at<'a>(columns: &Columns<'_>, records: &'a Records, t: usize) -> &'a [u8]
    requires { t + 1 < length records.now }
    ensures { result.now ≡ text_under (codes "choice") columns.now.headers records.now t }
{
    records.row_field(t, columns.find(b"choice").unwrap_or(0))
}
