//! The lines that tell why a file is refused.
ghost use Rattle.std.specs.Prelude.{◌≡◌, ◌++◌, IfOk, OnOk};
ghost use Rattle.rp_commands.specs.FaultLines as text;
ghost use Rattle.rp_commands.specs.FaultTexts.{fault_text, json_fault_text};
ghost use Rattle.rp_fit_answers.specs.InnerCauses.{IsFaultCause, IsRefusal, budget_of, place_text};
ghost use Rattle.rp_json.specs.declared.fault.JsonFault.TheVariants as json_fault;
ghost use Rattle.rp_sheet.specs.declared.fault.TableFault.TheVariants as table_fault;

use rp_front::Cause;
use rp_json::JsonFault;
use rp_num::NoMemory;
use rp_print::{Number, push_after, push_line};
use rp_rows::Fault;
use rp_sheet::TableFault;
use std::alloc::Global;

/// The cause that a fault of a table's file is.
pub(crate) fn table_refusal<'a>(alloc: Global, file: &str, fault: TableFault) -> Cause<'a>
    ensures { IsFaultCause table_fault.NoMemory (λ f. text.file_line file.now (fault_text f))
        fault result }
{
    if fault == TableFault::NoMemory {
        return Cause::NoMemory;
    }
    match table_fault_text(alloc, fault) {
        Ok(text) => refusal(alloc, file, text.as_slice()),
        Err(_) => Cause::NoMemory,
    }
}

/// The cause that a fault of a certificate's file is.
pub(crate) fn certificate_refusal<'a>(alloc: Global, file: &str, fault: JsonFault) -> Cause<'a>
    ensures { IsFaultCause json_fault.NoMemory (λ f. text.file_line file.now (json_fault_text f))
        fault result }
{
    match fault {
        JsonFault::NotJson => refusal(alloc, file, b"NotJson"),
        JsonFault::BadVersion => refusal(alloc, file, b"BadVersion"),
        JsonFault::BadShape { item } => bad_shape(alloc, file, item),
        JsonFault::NoMemory => Cause::NoMemory,
    }
}

/// The cause that an item of another shape is.
fn bad_shape<'a>(alloc: Global, file: &str, item: u32) -> Cause<'a>
    ensures { IsRefusal
        (text.file_line file.now (json_fault_text (json_fault.BadShape item))) result }
{
    let mut text = Vec::new(alloc);
    match push_after::<Number>(alloc, &mut text, b"BadShape item ", item) {
        Ok(()) => refusal(alloc, file, text.as_slice()),
        Err(_) => Cause::NoMemory,
    }
}

/// The cause of a refusal with the text of a fault.
pub(crate) fn refusal<'a>(alloc: Global, file: &str, fault: &[u8]) -> Cause<'a>
    ensures { IsRefusal (text.file_line file.now fault.now) result }
{
    match file_line(alloc, file, fault) {
        Ok(line) => Cause::Refused(line),
        Err(_) => Cause::NoMemory,
    }
}

/// The line of a fault of a file.
fn file_line(alloc: Global, file: &str, fault: &[u8]) -> Result<Vec<u8>, NoMemory>
    ensures { IfOk result (λ line. line.items ≡ text.file_line file.now fault.now) }
{
    let mut line = Vec::from_slice(alloc, b"rp: ")?;
    line.extend_from_slice(file.as_bytes())?;
    line.extend_from_slice(b": ")?;
    push_line(&mut line, fault)?;
    Ok(line)
}

/// The text of a fault of a table: its name, and then the record, the column or the budget where it has them.
fn table_fault_text(alloc: Global, fault: TableFault) -> Result<Vec<u8>, NoMemory>
    ensures { IfOk result (λ text. text.items ≡ fault_text fault) }
{
    let told = Fault::OfTable(fault);
    let mut text = Vec::from_slice(alloc, told.word())?;
    push_where(alloc, &mut text, b" record ", told.row())?;
    push_where(alloc, &mut text, b" column ", told.column())?;
    push_where(alloc, &mut text, b" budget ", budget_of(fault))?;
    Ok(text)
}

/// The budget of a fault, where it has one.
fn budget_of(fault: TableFault) -> Option<u32>
    ensures { result ≡ budget_of fault }
{
    match fault {
        TableFault::NoChoices { budget } => Some(budget),
        _ => None,
    }
}

/// Appends a place after its word, where there is one.
fn push_where(
    alloc: Global,
    out: &mut Vec<u8>,
    word: &[u8],
    place: Option<u32>,
) -> Result<(), NoMemory>
    ensures { OnOk result (out.new.items ≡ out.old.items ++ place_text word.now place) }
{
    match place {
        Some(place) => push_after::<Number>(alloc, out, word, place),
        None => Ok(()),
    }
}
