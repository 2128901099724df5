//! The stage that reads each field.
ghost use Rattle.std.specs.Prelude.{◌≡◌, ◌&&◌, length, nat_lt, slice_index_or};
ghost use Rattle.rp_num.specs.Below.{any_below};
ghost use Rattle.rp_forms.specs.Texts.{trimmed};
ghost use Rattle.rp_forms.specs.Columns.{role_at, measures};
ghost use Rattle.rp_num.specs.Decimal.{decimal_of};
ghost use Rattle.rp_sheet.specs.Fields as Fields;
ghost use Rattle.rp_sheet.specs.Fields.{nothing, field_of};

use crate::TableFault;
use crate::columns::Columns;
use crate::record_kind::RecordKind;
use crate::records::Records;
use rp_forms::{Role, number_of, trimmed};
use rp_limits::table::LEVEL_SCALE;
use rp_num::{Decimal, NumFault, read_decimal};

/// What a field says in a column of that role: a number, or 0 where the fields are texts. `budgets` is how many there
/// are.
#[tactic(auto, unfolding(crate::specs::Fields::field_of))]
fn read_field(
    budgets: u32,
    role: Role,
    field: &[u8],
    row: u32,
    column: u32,
) -> Result<Decimal, TableFault>
    ensures { result ≡ field_of budgets role (trimmed field.now) row column }
{
    let text = trimmed(field);
    match role {
        Role::Observation | Role::Menu | Role::Choice => Ok(Decimal {
            units: 0,
            places: 0,
        }),
        Role::Price | Role::OutputPrice => check_price(measure(text, row, column), row, column),
        Role::Quantity | Role::Output => measure(text, row, column),
        Role::Expenditure | Role::Income => measure(text, row, column),
        Role::Budget => from_one(
            budgets,
            TableFault::UnknownBudget { row },
            whole(text, row, column),
        ),
        Role::OwnLevel => from_one(
            LEVEL_SCALE,
            TableFault::BadLevel { row, column },
            whole(text, row, column),
        ),
        Role::Times => whole(text, row, column),
    }
}

/// A number with at most six places.
fn measure(text: &[u8], row: u32, column: u32) -> Result<Decimal, TableFault>
    ensures { result ≡ Fields.measured (decimal_of text.now) row column }
{
    match read_decimal(text) {
        Ok(number) => Ok(number),
        Err(NumFault::Bad) => Err(TableFault::BadNumber { row, column }),
        Err(NumFault::Decimals) => Err(TableFault::TooManyDecimals { row, column }),
    }
}

/// A price: a number that is not 0.
fn check_price(
    number: Result<Decimal, TableFault>,
    row: u32,
    column: u32,
) -> Result<Decimal, TableFault>
    ensures { result ≡ Fields.priced number row column }
{
    match number {
        Ok(price) if price.units == 0 => Err(TableFault::ZeroPrice { row, column }),
        other => other,
    }
}

/// A whole number.
fn whole(text: &[u8], row: u32, column: u32) -> Result<Decimal, TableFault>
    ensures { result ≡ Fields.whole (decimal_of text.now) row column }
{
    match read_decimal(text) {
        Ok(number) if number.places == 0 => Ok(number),
        _ => Err(TableFault::BadNumber { row, column }),
    }
}

/// A number from 1 to the most, or else that fault.
fn from_one(
    most: u32,
    otherwise: TableFault,
    number: Result<Decimal, TableFault>,
) -> Result<Decimal, TableFault>
    ensures { result ≡ Fields.from_one most otherwise number }
{
    match number {
        Ok(counted) if counted.units < 1 => Err(otherwise),
        Ok(counted) if counted.units > u64::from(most) => Err(otherwise),
        other => other,
    }
}

/// Records of numbers, by each of which something is bought where a column says how much.
pub struct NumberRecord;

impl RecordKind for NumberRecord {
    ghost use Rattle.rp_sheet.specs.Fields.{number_faults};

    type Fault = TableFault;

    ghost faults = { number_faults };

    fn tell(fault: TableFault) -> TableFault {
        fault
    }

    fn read_field(
        columns: &Columns<'_>,
        records: &Records,
        t: usize,
        c: usize,
    ) -> Result<Decimal, TableFault> {
        read_field(
            columns.form().budgets,
            columns.role(c),
            records.row_field(t, c),
            number_of(t),
            number_of(c),
        )
    }

    fn check_rest(
        columns: &Columns<'_>,
        records: &Records,
        t: usize,
        figures: &[Decimal],
    ) -> Result<(), TableFault> {
        if buys_nothing(columns, figures) {
            return Err(TableFault::ZeroBundle { row: number_of(t) });
        }
        Ok(())
    }
}

/// Whether some column says how much is bought, and each says 0.
fn buys_nothing(columns: &Columns<'_>, figures: &[Decimal]) -> bool
    requires { length figures.now ≡ length columns.now.headers }
    ensures { result ≡ Fields.buys_nothing columns.now.form.marks columns.now.headers
        (λ c. slice_index_or figures.now c nothing) }
{
    says_how_much(columns) && !buys(columns, figures)
}

/// Whether some column says how much is bought.
fn says_how_much(columns: &Columns<'_>) -> bool
    ensures { result ≡ any_below (length columns.now.headers) (λ c. measures
        (role_at columns.now.form.marks columns.now.headers c)) }
{
    for c in 0..columns.len() {
        if columns.role(c).measures() {
            return true;
        }
    }
    false
}

/// Whether something is bought by a record of these numbers.
fn buys(columns: &Columns<'_>, figures: &[Decimal]) -> bool
    requires { length figures.now ≡ length columns.now.headers }
    ensures { result ≡ any_below (length columns.now.headers)
        (λ c. measures (role_at columns.now.form.marks columns.now.headers c)
        && nat_lt 0 (slice_index_or figures.now c nothing).units) }
{
    for c in 0..columns.len() {
        if columns.role(c).measures() && figures[c].units > 0 {
            return true;
        }
    }
    false
}
