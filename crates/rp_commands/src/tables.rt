//! The table of a line.
ghost use Rattle.std.specs.Prelude.{◌≡◌, IfOk, IfErr, Ok};
ghost use Rattle.rp_command_line.specs.CommandLine.{file_at, takes_levels};
ghost use Rattle.rp_command_line.specs.Named.{named_line};
ghost use Rattle.rp_commands.specs.InnerCauses.{IsReadingCause};
ghost use Rattle.rp_commands.specs.InnerLoadings.{LoadsFile, MayHaveLevels};
ghost use Rattle.rp_commands.specs.Readings.{Just, TakenTable, unless_levelled};
ghost use Rattle.rp_limits.specs.declared.run.TheConstants.{MOST_BYTES};

use crate::files::{Cause, load_numbers, refused};
use rp_command_line::Line;
use rp_outside::Desk;
use rp_table::Table;
use rp_text::TableFile;
use std::alloc::Global;

/// The table in the first file of a line, for its command.
pub(crate) fn load_line_table<'a, D: Desk>(
    alloc: Global,
    desk: &mut D,
    line: &Line<'a>,
) -> Result<Table, Cause<'a>>
    ensures loads { LoadsFile D.bytes D.faults D.calls D.asked desk.old desk.new MOST_BYTES
        (file_at (named_line line.now) 0)
        (TakenTable (takes_levels (named_line line.now)) (file_at (named_line line.now) 0))
        result }
    ensures levels { IfOk result (MayHaveLevels (takes_levels (named_line line.now))) }
{
    let file = line.arguments.file(0);
    load_table(alloc, desk, file, line.command.takes_levels())
}

/// The table in a file, for a command that takes levels or not.
fn load_table<'a, D: Desk>(
    alloc: Global,
    desk: &mut D,
    file: &'a str,
    takes_levels: bool,
) -> Result<Table, Cause<'a>>
    ensures loads { LoadsFile D.bytes D.faults D.calls D.asked desk.old desk.new MOST_BYTES
        file.now (TakenTable takes_levels file.now) result }
    ensures levels { IfOk result (MayHaveLevels takes_levels) }
{
    let table = load_numbers(alloc, desk, file, &TableFile)?;
    unless_levelled(alloc, file, table, takes_levels)
}

/// The table that was read from a file, unless the command refuses its levels.
fn unless_levelled<'a>(
    alloc: Global,
    file: &'a str,
    table: Table,
    takes_levels: bool,
) -> Result<Table, Cause<'a>>
    ensures taken { IfOk result (λ taken. unless_levelled takes_levels file.now table ≡ Ok taken) }
    ensures levels { IfOk result (MayHaveLevels takes_levels) }
    ensures refused { IfErr result
        (IsReadingCause (Just (unless_levelled takes_levels file.now table))) }
{
    if takes_levels {
        return Ok(table);
    }
    if table.levelled() {
        return Err(refused(alloc, file, b"OwnLevels"));
    }
    Ok(table)
}
