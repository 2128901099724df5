//! The fields of the lines of a row.
ghost use Rattle.std.specs.Prelude.{◌≡◌, ◌++◌, ◌∷◌, [], IfOk, OnOk, codes, map};
ghost use Rattle.std.specs.Fmt.{decimal};
ghost use Rattle.csv.specs.Records.{fields_of, partial_of};
ghost use Rattle.rp_rows.specs.RowText.{number_or_none, three_empty};
ghost use Rattle.rp_bound_rows.specs.BoundFaults.{bound_fault_word, column_of_bound_fault};
ghost use Rattle.rp_bound_rows.specs.BoundFaults.{row_of_bound_fault};
ghost use Rattle.rp_bound_rows.specs.RowText.{about_name, fault_fields, header_fields, line_fields};
ghost use Rattle.rp_bound_rows.specs.RowText.{lower_fields, side_text, upper_fields};

use crate::asked::BoundsAsked;
use crate::fault::BoundFault;
use crate::line::Line;
use crate::row::{BoundRow, Bounds};
use crate::side::Side;
use csv::ByteRecord;
use rp_num::{NoMemory, Seq, print_u128};
use std::alloc::Global;

/// The record of the header, with the names of the columns that are kept.
pub(crate) fn header_record(
    alloc: Global,
    asked: BoundsAsked,
    kept: &[&[u8]],
) -> Result<ByteRecord, NoMemory>
    ensures { IfOk result (λ line. fields_of line
        ≡ header_fields asked (map (λ name. name.now) kept.now)) }
{
    let mut line = ByteRecord::new(alloc);
    push(&mut line, b"household")?;
    push(&mut line, b"observations")?;
    push(&mut line, b"goods")?;
    push(&mut line, b"price")?;
    push(&mut line, about_name(asked))?;
    push(&mut line, b"lower")?;
    push(&mut line, b"lower_floor")?;
    push(&mut line, b"upper")?;
    push(&mut line, b"upper_ceiling")?;
    push(&mut line, b"fault")?;
    push(&mut line, b"record")?;
    push(&mut line, b"column")?;
    push_names(&mut line, kept)?;
    Ok(line)
}

/// What the bounds are about.
fn about_name(asked: BoundsAsked) -> &'static [u8]
    ensures { result.now ≡ about_name asked }
{
    match asked {
        BoundsAsked::Demand => b"good",
        BoundsAsked::Welfare => b"observation",
    }
}

/// The record of a line of a household.
pub(crate) fn line_record(
    alloc: Global,
    row: &BoundRow,
    bounds: &Bounds,
    line: &Line,
) -> Result<ByteRecord, NoMemory>
    ensures { IfOk result (λ made. fields_of made
        ≡ line_fields row.now bounds.now line.now) }
{
    let mut fields = ByteRecord::new(alloc);
    push(&mut fields, row.household.as_slice())?;
    push_number(alloc, &mut fields, bounds.observations)?;
    push_number(alloc, &mut fields, bounds.goods)?;
    push_number(alloc, &mut fields, line.price)?;
    push(&mut fields, line.about.as_slice())?;
    push_lower(alloc, &mut fields, line.bounds.lower)?;
    push_upper(alloc, &mut fields, line.bounds.upper)?;
    push_three_empty(&mut fields)?;
    push_kept(&mut fields, row.kept.as_slice())?;
    Ok(fields)
}

/// The record of a household with a fault.
pub(crate) fn fault_record(
    alloc: Global,
    row: &BoundRow,
    fault: BoundFault,
) -> Result<ByteRecord, NoMemory>
    ensures { IfOk result (λ made. fields_of made ≡ fault_fields row.now fault) }
{
    let mut fields = ByteRecord::new(alloc);
    push(&mut fields, row.household.as_slice())?;
    push_three_empty(&mut fields)?;
    push_three_empty(&mut fields)?;
    push(&mut fields, b"")?;
    push(&mut fields, b"")?;
    push_fault(alloc, &mut fields, fault)?;
    push_kept(&mut fields, row.kept.as_slice())?;
    Ok(fields)
}

/// Appends a field.
fn push(line: &mut ByteRecord, field: &[u8]) -> Result<(), NoMemory>
    requires { partial_of line.old ≡ [] }
    ensures fields { OnOk result (fields_of line.new
        ≡ fields_of line.old ++ field.now ∷ []) }
    ensures whole { OnOk result (partial_of line.new ≡ []) }
{
    line.push_field(field)?;
    Ok(())
}

/// Appends names of columns.
fn push_names(line: &mut ByteRecord, names: &[&[u8]]) -> Result<(), NoMemory>
    requires { partial_of line.old ≡ [] }
    ensures { OnOk result (fields_of line.new
        ≡ fields_of line.old ++ map (λ name. name.now) names.now) }
{
    for name in names {
        push(line, *name)?;
    }
    Ok(())
}

/// Appends texts that are kept.
fn push_kept(line: &mut ByteRecord, kept: &[Seq<u8>]) -> Result<(), NoMemory>
    requires { partial_of line.old ≡ [] }
    ensures { OnOk result (fields_of line.new ≡ fields_of line.old ++ kept.now) }
{
    for text in kept {
        push(line, text.as_slice())?;
    }
    Ok(())
}

/// Appends three empty fields.
fn push_three_empty(line: &mut ByteRecord) -> Result<(), NoMemory>
    requires { partial_of line.old ≡ [] }
    ensures fields { OnOk result (fields_of line.new ≡ fields_of line.old ++ three_empty) }
    ensures whole { OnOk result (partial_of line.new ≡ []) }
{
    push(line, b"")?;
    push(line, b"")?;
    push(line, b"")
}

/// Appends a number.
fn push_number(alloc: Global, line: &mut ByteRecord, number: u32) -> Result<(), NoMemory>
    requires { partial_of line.old ≡ [] }
    ensures fields { OnOk result (fields_of line.new
        ≡ fields_of line.old ++ decimal number ∷ []) }
    ensures whole { OnOk result (partial_of line.new ≡ []) }
{
    let mut text = Vec::new(alloc);
    print_u128(alloc, &mut text, u128::from(number))?;
    push(line, text.as_slice())
}

/// Appends what is told of a bound.
fn push_side(alloc: Global, line: &mut ByteRecord, side: Side) -> Result<(), NoMemory>
    requires { partial_of line.old ≡ [] }
    ensures fields { OnOk result (fields_of line.new
        ≡ fields_of line.old ++ side_text side ∷ []) }
    ensures whole { OnOk result (partial_of line.new ≡ []) }
{
    match side {
        Side::Given(amount) => {
            let text = amount.text(alloc)?;
            push(line, text.as_slice())
        }
        Side::Withheld => push(line, b"withheld"),
        Side::Violated => push(line, b"violated"),
    }
}

/// Appends a lower bound, and then with six places, rounded down.
fn push_lower(alloc: Global, line: &mut ByteRecord, side: Side) -> Result<(), NoMemory>
    requires { partial_of line.old ≡ [] }
    ensures fields { OnOk result (fields_of line.new ≡ fields_of line.old ++ lower_fields side) }
    ensures whole { OnOk result (partial_of line.new ≡ []) }
{
    push_side(alloc, line, side)?;
    match &side {
        Side::Given(amount) => {
            let floor = amount.floor_text(alloc)?;
            push(line, floor.as_slice())
        }
        Side::Withheld | Side::Violated => push(line, b""),
    }
}

/// Appends an upper bound, and then with six places, rounded up.
fn push_upper(alloc: Global, line: &mut ByteRecord, side: Side) -> Result<(), NoMemory>
    requires { partial_of line.old ≡ [] }
    ensures fields { OnOk result (fields_of line.new ≡ fields_of line.old ++ upper_fields side) }
    ensures whole { OnOk result (partial_of line.new ≡ []) }
{
    push_side(alloc, line, side)?;
    match &side {
        Side::Given(amount) => {
            let ceiling = amount.ceiling_text(alloc)?;
            push(line, ceiling.as_slice())
        }
        Side::Withheld | Side::Violated => push(line, b""),
    }
}

/// Appends a fault, with its record and its column.
fn push_fault(alloc: Global, line: &mut ByteRecord, fault: BoundFault) -> Result<(), NoMemory>
    requires { partial_of line.old ≡ [] }
    ensures fields { OnOk result (fields_of line.new ≡ fields_of line.old ++ bound_fault_word fault
        ∷ number_or_none (row_of_bound_fault fault)
        ∷ number_or_none (column_of_bound_fault fault) ∷ []) }
    ensures whole { OnOk result (partial_of line.new ≡ []) }
{
    let word = fault.word(alloc)?;
    push(line, word.as_slice())?;
    push_place(alloc, line, fault.row())?;
    push_place(alloc, line, fault.column())
}

/// Appends a number, or an empty field where there is none.
fn push_place(alloc: Global, line: &mut ByteRecord, place: Option<u32>) -> Result<(), NoMemory>
    requires { partial_of line.old ≡ [] }
    ensures fields { OnOk result (fields_of line.new
        ≡ fields_of line.old ++ number_or_none place ∷ []) }
    ensures whole { OnOk result (partial_of line.new ≡ []) }
{
    match place {
        Some(number) => push_number(alloc, line, number),
        None => push(line, b""),
    }
}
