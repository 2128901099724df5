//! The fields of a row.
ghost use Rattle.std.specs.Prelude.{◌≡◌, ◌++◌, ◌∷◌, [], IfOk, OnOk, codes, map};
ghost use Rattle.std.specs.Fmt.{decimal};
ghost use Rattle.csv.specs.Records.{fields_of, partial_of};
ghost use Rattle.rp_rows.specs.RowText.{fault_fields, found_fields, header_fields, number_or_none};
ghost use Rattle.rp_rows.specs.RowText.{power_text, pump_fields, ratio_fields, row_fields};
ghost use Rattle.rp_rows.specs.RowText.{verdict_fields};
ghost use Rattle.rp_rows.specs.Words.{yes_or_no};

use crate::fault::Fault;
use crate::ratio::Ratio;
use crate::row::{Found, Row};
use crate::verdicts::{Power, Verdicts};
use csv::ByteRecord;
use rp_num::{NoMemory, Seq, print_u128};
use std::alloc::Global;

/// The record of the header, with the names of the columns that are kept.
pub(crate) fn header_record(alloc: Global, kept: &[&[u8]]) -> Result<ByteRecord, NoMemory>
    ensures { IfOk result (λ line. fields_of line
        ≡ header_fields (map (λ name. name.now) kept.now)) }
{
    let mut line = ByteRecord::new(alloc);
    push(&mut line, b"household")?;
    push(&mut line, b"observations")?;
    push(&mut line, b"goods")?;
    push(&mut line, b"garp")?;
    push(&mut line, b"efficiency")?;
    push(&mut line, b"efficiency_floor")?;
    push(&mut line, b"attained")?;
    push(&mut line, b"homothetic")?;
    push(&mut line, b"quasilinear")?;
    push(&mut line, b"pump")?;
    push(&mut line, b"pump_floor")?;
    push(&mut line, b"power")?;
    push(&mut line, b"fault")?;
    push(&mut line, b"record")?;
    push(&mut line, b"column")?;
    push_names(&mut line, kept)?;
    Ok(line)
}

/// The record of a row.
pub(crate) fn row_record(alloc: Global, row: &Row) -> Result<ByteRecord, NoMemory>
    ensures { IfOk result (λ line. fields_of line ≡ row_fields row.now) }
{
    let mut line = ByteRecord::new(alloc);
    push(&mut line, row.household.as_slice())?;
    push_found(alloc, &mut line, row.found)?;
    push_kept(&mut line, row.kept.as_slice())?;
    Ok(line)
}

/// Appends a field.
fn push(line: &mut ByteRecord, field: &[u8]) -> Result<(), NoMemory>
    requires { partial_of line.old ≡ [] }
    ensures fields { OnOk result (fields_of line.new
        ≡ fields_of line.old ++ field.now ∷ []) }
    ensures whole { OnOk result (partial_of line.new ≡ []) }
{
    line.push_field(field)?;
    Ok(())
}

/// Appends names of columns.
fn push_names(line: &mut ByteRecord, names: &[&[u8]]) -> Result<(), NoMemory>
    requires { partial_of line.old ≡ [] }
    ensures { OnOk result (fields_of line.new
        ≡ fields_of line.old ++ map (λ name. name.now) names.now) }
{
    for name in names {
        push(line, *name)?;
    }
    Ok(())
}

/// Appends texts that are kept.
fn push_kept(line: &mut ByteRecord, kept: &[Seq<u8>]) -> Result<(), NoMemory>
    requires { partial_of line.old ≡ [] }
    ensures { OnOk result (fields_of line.new ≡ fields_of line.old ++ kept.now) }
{
    for text in kept {
        push(line, text.as_slice())?;
    }
    Ok(())
}

/// Appends what is found: verdicts and no fault, or a fault and no verdicts.
fn push_found(alloc: Global, line: &mut ByteRecord, found: Found) -> Result<(), NoMemory>
    requires { partial_of line.old ≡ [] }
    ensures fields { OnOk result (fields_of line.new
        ≡ fields_of line.old ++ found_fields found) }
    ensures whole { OnOk result (partial_of line.new ≡ []) }
{
    match found {
        Found::Verdicts(verdicts) => {
            push_verdicts(alloc, line, verdicts)?;
            push_three_empty(line)
        }
        Found::Fault(fault) => {
            push_three_empty(line)?;
            push_three_empty(line)?;
            push_three_empty(line)?;
            push(line, b"")?;
            push(line, b"")?;
            push_fault(alloc, line, fault)
        }
    }
}

/// Appends three empty fields.
fn push_three_empty(line: &mut ByteRecord) -> Result<(), NoMemory>
    requires { partial_of line.old ≡ [] }
    ensures fields { OnOk result (fields_of line.new
        ≡ fields_of line.old ++ [] ∷ [] ∷ [] ∷ []) }
    ensures whole { OnOk result (partial_of line.new ≡ []) }
{
    push(line, b"")?;
    push(line, b"")?;
    push(line, b"")
}

/// Appends verdicts.
fn push_verdicts(alloc: Global, line: &mut ByteRecord, verdicts: Verdicts) -> Result<(), NoMemory>
    requires { partial_of line.old ≡ [] }
    ensures fields { OnOk result (fields_of line.new
        ≡ fields_of line.old ++ verdict_fields verdicts) }
    ensures whole { OnOk result (partial_of line.new ≡ []) }
{
    push_number(alloc, line, verdicts.observations)?;
    push_number(alloc, line, verdicts.goods)?;
    push(line, verdicts.garp.word())?;
    push_ratio(alloc, line, verdicts.efficiency)?;
    push(line, yes_or_no(verdicts.attained))?;
    push(line, verdicts.homothetic.word())?;
    push(line, verdicts.quasilinear.word())?;
    push_pump(alloc, line, verdicts.pump)?;
    push_power(alloc, line, verdicts.power)
}

/// Appends a number.
fn push_number(alloc: Global, line: &mut ByteRecord, number: u32) -> Result<(), NoMemory>
    requires { partial_of line.old ≡ [] }
    ensures fields { OnOk result (fields_of line.new
        ≡ fields_of line.old ++ decimal number ∷ []) }
    ensures whole { OnOk result (partial_of line.new ≡ []) }
{
    let mut text = Vec::new(alloc);
    print_u128(alloc, &mut text, u128::from(number))?;
    push(line, text.as_slice())
}

/// Appends a fraction, and then with six places, rounded down.
fn push_ratio(alloc: Global, line: &mut ByteRecord, ratio: Ratio) -> Result<(), NoMemory>
    requires { partial_of line.old ≡ [] }
    ensures fields { OnOk result (fields_of line.new
        ≡ fields_of line.old ++ ratio_fields ratio) }
    ensures whole { OnOk result (partial_of line.new ≡ []) }
{
    let text = ratio.text(alloc)?;
    push(line, text.as_slice())?;
    let floor = ratio.floor_text(alloc)?;
    push(line, floor.as_slice())
}

/// Appends the money pump, where it was asked.
fn push_pump(alloc: Global, line: &mut ByteRecord, pump: Option<Ratio>) -> Result<(), NoMemory>
    requires { partial_of line.old ≡ [] }
    ensures fields { OnOk result (fields_of line.new
        ≡ fields_of line.old ++ pump_fields pump) }
    ensures whole { OnOk result (partial_of line.new ≡ []) }
{
    match pump {
        Some(ratio) => push_ratio(alloc, line, ratio),
        None => {
            push(line, b"")?;
            push(line, b"")
        }
    }
}

/// Appends the power, where it was asked: how many of the random behaviours fail the axiom, over how many there are.
fn push_power(alloc: Global, line: &mut ByteRecord, power: Option<Power>) -> Result<(), NoMemory>
    requires { partial_of line.old ≡ [] }
    ensures fields { OnOk result (fields_of line.new
        ≡ fields_of line.old ++ power_text power ∷ []) }
    ensures whole { OnOk result (partial_of line.new ≡ []) }
{
    let mut text = Vec::new(alloc);
    if let Some(power) = power {
        print_u128(alloc, &mut text, u128::from(power.violations))?;
        text.push(b'/')?;
        print_u128(alloc, &mut text, u128::from(power.draws))?;
    }
    push(line, text.as_slice())
}

/// Appends a fault, with its record and its column.
fn push_fault(alloc: Global, line: &mut ByteRecord, fault: Fault) -> Result<(), NoMemory>
    requires { partial_of line.old ≡ [] }
    ensures fields { OnOk result (fields_of line.new
        ≡ fields_of line.old ++ fault_fields fault) }
    ensures whole { OnOk result (partial_of line.new ≡ []) }
{
    push(line, fault.word())?;
    push_place(alloc, line, fault.row())?;
    push_place(alloc, line, fault.column())
}

/// Appends a number, or an empty field where there is none.
fn push_place(alloc: Global, line: &mut ByteRecord, place: Option<u32>) -> Result<(), NoMemory>
    requires { partial_of line.old ≡ [] }
    ensures fields { OnOk result (fields_of line.new
        ≡ fields_of line.old ++ number_or_none place ∷ []) }
    ensures whole { OnOk result (partial_of line.new ≡ []) }
{
    match place {
        Some(number) => push_number(alloc, line, number),
        None => push(line, b""),
    }
}

fn yes_or_no(yes: bool) -> &'static [u8]
    ensures { result.now ≡ yes_or_no yes }
{
    if yes { b"yes" } else { b"no" }
}
