//! The texts of faults, as they stand in the lines that tell them.
ghost use Rattle.std.specs.Prelude.{◌≡◌, ◌++◌, ℕ, List, None, IfOk, IfSome, OnOk};
ghost use Rattle.rp_print.specs.ListText.{line_of, ordinal_text};
ghost use Rattle.rp_commands.specs.FaultTexts.{column_text, record_text};
ghost use Rattle.rp_commands.specs.InnerTold.{place_text, told_text};

use crate::told::{Place, Told};
use rp_num::NoMemory;
use rp_print::{Number, Ordinal, push_after};
use std::alloc::Global;

/// Why a file is refused, or want of memory.
pub(crate) trait FileFault: Copy {
    /// Want of memory, of which no file is the cause.
    ghost no_memory: { Self };

    /// The text of each fault.
    ghost text: { Self → List ℕ };

    /// What is told of the fault, and nothing of want of memory.
    fn told(self) -> Option<Told>
        ensures exact { IfSome result (λ told. told_text told ≡ text self) }
        ensures untold { self ≡ no_memory → result ≡ None }
        ensures no_other { result ≡ None → self ≡ no_memory };
}

/// The text of a fault: its name and its place.
pub(crate) fn text_of(alloc: Global, told: Told) -> Result<Vec<u8>, NoMemory>
    ensures { IfOk result (λ text. text.items ≡ told_text told) }
{
    let mut out = Vec::from_slice(alloc, told.name)?;
    push_place(alloc, &mut out, told.place)?;
    Ok(out)
}

/// Appends the place of a fault.
fn push_place(alloc: Global, out: &mut Vec<u8>, place: Place) -> Result<(), NoMemory>
    ensures { OnOk result (out.new.items ≡ out.old.items ++ place_text place) }
{
    match place {
        Place::File => Ok(()),
        Place::Record(row) => push_record(alloc, out, row),
        Place::Column(column) => push_column(alloc, out, column),
        Place::Cell(row, column) => push_cell(alloc, out, row, column),
        Place::Budget(budget) => push_after::<Number>(alloc, out, b" budget ", budget),
        Place::Item(item) => push_after::<Number>(alloc, out, b" item ", item),
    }
}

fn push_record(alloc: Global, out: &mut Vec<u8>, row: u32) -> Result<(), NoMemory>
    ensures { OnOk result (out.new.items ≡ out.old.items ++ record_text row) }
{
    push_after::<Number>(alloc, out, b" record ", row)
}

fn push_column(alloc: Global, out: &mut Vec<u8>, column: u32) -> Result<(), NoMemory>
    ensures { OnOk result (out.new.items ≡ out.old.items ++ column_text column) }
{
    push_after::<Number>(alloc, out, b" column ", column)
}

/// Appends a record and a column.
fn push_cell(alloc: Global, out: &mut Vec<u8>, row: u32, column: u32) -> Result<(), NoMemory>
    ensures { OnOk result
        (out.new.items ≡ out.old.items ++ (record_text row ++ column_text column)) }
{
    push_record(alloc, out, row)?;
    push_column(alloc, out, column)?;
    Ok(())
}

/// The line of a fault at one of several budgets or menus, which is told from 1.
pub(crate) fn ordinal_line(alloc: Global, told: &[u8], ordinal: u32) -> Result<Vec<u8>, NoMemory>
    ensures { IfOk result (λ line. line.items ≡ line_of (told.now ++ ordinal_text ordinal)) }
{
    let mut line = Vec::new(alloc);
    push_after::<Ordinal>(alloc, &mut line, told, ordinal)?;
    line.push(b'\n')?;
    Ok(line)
}
