//! The stage that scales the numbers.
ghost use Rattle.std.specs.Prelude.{◌≡◌, ◌+◌, ◌*◌, ◌^◌, ◌<◌, ◌≤◌, None, IfOk, MatchOption, All};
ghost use Rattle.std.specs.Prelude.{length, slice_index_or, if◌then◌else◌};
ghost use Rattle.std.specs.Result.{result_err};
ghost use Rattle.rp_limits.specs.declared.table.TheConstants.{LARGEST_EXPENDITURE};
ghost use Rattle.rp_num.specs.Below.{first_of, listed, greatest_below};
ghost use Rattle.rp_forms.specs.Columns.{role_at};
ghost use Rattle.rp_sheet.specs.Fields.{nothing};
ghost use Rattle.rp_sheet.specs.Sizes as Sizes;
ghost use Rattle.rp_sheet.specs.Sizes.{greatest_places, size_at, scaled, sizes_of};
ghost use Rattle.rp_forms.specs.Columns.{shares_scale};
ghost use Rattle.rp_sheet.specs.Sizes.{sizes_stage};
ghost use Rattle.rp_sheet.specs.Refusals.{RefusedAt};

use crate::TableFault;
use crate::columns::Columns;
use rp_forms::{Role, number_of};
use rp_num::{Decimal, NoMemory, Seq};
use std::alloc::Global;

/// The places of the scale of a role.
#[tactic(auto, unfolding(crate::specs::Sizes::places_of))]
pub fn places_of(columns: &Columns<'_>, figures: &[Seq<Decimal>], role: Role) -> u32
    requires { All (λ row. length row ≡ length columns.now.headers) figures.now }
    ensures { result ≡ Sizes.places_of columns.now.form columns.now.headers figures.now role }
{
    match role {
        Role::Price | Role::OutputPrice => {
            u32::from(greatest_places(columns, figures, Role::Price))
        }
        Role::Quantity | Role::Output if columns.form().fixed_places => u32::from(
            columns.form().places,
        ),
        Role::Quantity | Role::Output => {
            u32::from(greatest_places(columns, figures, Role::Quantity))
        }
        Role::Expenditure => {
            u32::from(greatest_places(columns, figures, Role::Price))
                + u32::from(columns.form().places)
        }
        Role::Income => u32::from(greatest_places(columns, figures, Role::Income)),
        Role::Observation | Role::Budget | Role::Times => 0,
        Role::Menu | Role::Choice | Role::OwnLevel => 0,
    }
}

/// The places of the scale of each column.
fn column_places(
    alloc: Global,
    columns: &Columns<'_>,
    figures: &[Seq<Decimal>],
) -> Result<Vec<u32>, NoMemory>
    requires { All (λ row. length row ≡ length columns.now.headers) figures.now }
    ensures { IfOk result (λ places. places.items ≡ listed (length columns.now.headers)
        (λ c. Sizes.places_of columns.now.form columns.now.headers figures.now
        (role_at columns.now.form.marks columns.now.headers c))) }
{
    let mut places = Vec::new(alloc);
    for c in 0..columns.len() {
        places.push(places_of(columns, figures, columns.role(c)))?;
    }
    Ok(places)
}

/// The greatest number of places in the columns that share a scale with that role.
fn greatest_places(columns: &Columns<'_>, figures: &[Seq<Decimal>], role: Role) -> u8
    requires { All (λ row. length row ≡ length columns.now.headers) figures.now }
    ensures { result ≡ greatest_places columns.now.form.marks columns.now.headers figures.now role }
{
    let mut greatest = 0;
    for row in figures {
        greatest = greatest.max(greatest_in(columns, row.as_slice(), role));
    }
    greatest
}

/// The greatest number of places of one record in the columns that share a scale with that role.
fn greatest_in(columns: &Columns<'_>, figures: &[Decimal], role: Role) -> u8
    requires { length figures.now ≡ length columns.now.headers }
    ensures { result ≡ greatest_below (length columns.now.headers)
        (λ c. if shares_scale role (role_at columns.now.form.marks columns.now.headers c) then
        (slice_index_or figures.now c nothing).places else 0) }
{
    let mut greatest = 0;
    for c in 0..columns.len() {
        greatest = greatest.max(places_in(role, columns.role(c), figures[c]));
    }
    greatest
}

/// The places of a number, where its column shares a scale with the role.
fn places_in(role: Role, other: Role, figure: Decimal) -> u8
    ensures { result ≡ (if shares_scale role other then figure.places else 0) }
{
    if role.shares_scale(other) {
        figure.places
    } else {
        0
    }
}

/// A number at a scale with that many places, at most the limit.
fn size_of(
    figure: Decimal,
    places: u32,
    limit: u64,
    row: u32,
    column: u32,
) -> Result<u64, TableFault>
    requires { limit ≤ LARGEST_EXPENDITURE }
    ensures { result ≡ Sizes.size_of figure places limit row column }
{
    if places < u32::from(figure.places) {
        return Err(TableFault::TooFine { row, column });
    }
    match times_power(figure.units, places - u32::from(figure.places), limit) {
        Some(size) => Ok(size),
        None => Err(TableFault::TooLarge { row, column }),
    }
}

/// The number times that power of ten, where it is at most the limit.
fn times_power(units: u64, power: u32, limit: u64) -> Option<u64>
    requires { limit ≤ LARGEST_EXPENDITURE }
    ensures { MatchOption result (limit < units * 10 ^ power)
        (λ size. (size ≡ units * 10 ^ power) × (size ≤ limit)) }
{
    let mut size = units;
    for _ in 0..power {
        if size > limit {
            return None;
        }
        size *= 10;
    }
    if size > limit { None } else { Some(size) }
}

/// The scaled numbers of a record.
fn read_sizes_in(
    alloc: Global,
    columns: &Columns<'_>,
    figures: &[Seq<Decimal>],
    places: &[u32],
    t: usize,
) -> Result<Seq<u64>, TableFault>
    requires scales { places.now ≡ listed (length columns.now.headers)
        (λ c. Sizes.places_of columns.now.form columns.now.headers figures.now
        (role_at columns.now.form.marks columns.now.headers c)) }
    requires whole { All (λ row. length row ≡ length columns.now.headers) figures.now }
    requires within { t < length figures.now }
    ensures read { IfOk result
        (λ row. row ≡ listed (length columns.now.headers)
        (scaled columns.now.form columns.now.headers figures.now t)) }
    ensures faultless { IfOk result
        (λ _. first_of (length columns.now.headers)
        (λ c. result_err (size_at columns.now.form columns.now.headers figures.now t c)) ≡ None) }
    ensures refused { RefusedAt result
        (first_of (length columns.now.headers)
        (λ c. result_err (size_at columns.now.form columns.now.headers figures.now t c))) }
{
    let row = figures[t].as_slice();
    let mut sizes = Vec::new(alloc);
    for c in 0..columns.len() {
        sizes.push(size_of(
            row[c],
            places[c],
            columns.role(c).limit(),
            number_of(t),
            number_of(c),
        )?)?;
    }
    Ok(Seq::from_vec(sizes))
}

/// The scaled numbers of all records.
pub fn read_sizes(
    alloc: Global,
    columns: &Columns<'_>,
    figures: &[Seq<Decimal>],
) -> Result<Vec<Seq<u64>>, TableFault>
    requires { All (λ row. length row ≡ length columns.now.headers) figures.now }
    ensures read { IfOk result (λ rows. rows.items ≡ sizes_of columns.now.form columns.now.headers
        figures.now) }
    ensures faultless { IfOk result (λ _. sizes_stage columns.now.form columns.now.headers
        figures.now ≡ None) }
    ensures refused { RefusedAt result (sizes_stage columns.now.form columns.now.headers
        figures.now) }
{
    let places = column_places(alloc, columns, figures)?;
    let mut rows = Vec::new(alloc);
    for t in 0..figures.len() {
        rows.push(read_sizes_in(alloc, columns, figures, places.as_slice(), t)?)?;
    }
    Ok(rows)
}
