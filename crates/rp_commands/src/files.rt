//! The files of a line: why one gives nothing, and their loaders.
ghost use Rattle.std.specs.Prelude.{◌≡◌, ◌+◌, ◌≤◌};
ghost use Rattle.std.specs.Prelude.{IfOk, IfErr, Ok, Err, length};
ghost use Rattle.rp_evidence.specs.Kinds.{IsCertificateOf};
ghost use Rattle.rp_outside.specs.Asked.{AsksAtMostOnce, AsksOnce};
ghost use Rattle.rp_outside.specs.Faults.{EachStays, NoneFalls};
ghost use Rattle.rp_outside.specs.Known.{AreAll};
ghost use Rattle.rp_outside.specs.Reads.{calls_through};
ghost use Rattle.rp_commands.specs.FaultLines as text;
ghost use Rattle.rp_commands.specs.Endings.{Rose};
ghost use Rattle.rp_commands.specs.InnerLoadings.{LoadsFile};
ghost use Rattle.rp_commands.specs.MenuContents.{MenusOf};
ghost use Rattle.rp_commands.specs.Readings.{CertificateIn, NumbersIn, all_bytes};
ghost use Rattle.rp_commands.specs.InnerCauses.{IsFaultCause, IsRefusal, IsFileCause};
ghost use Rattle.rp_sheet.specs.Records.{records_in};
ghost use Rattle.rp_sheet.specs.SheetFiles.{denoted_by};

use crate::fault_text::{FileFault, text_of};
use rp_evidence::{Certificate, Kind};
use rp_json::read;
use rp_limits::run::{MOST_BYTES, MOST_CERTIFICATE_BYTES};
use rp_menu::{Menus, read_menus};
use rp_num::NoMemory;
use rp_outside::{Desk, LoadFault, load};
use rp_print::push_line;
use rp_sheet::{FileKind, read_file};
use std::alloc::Global;

/// Why a line has no input.
#[derive(Drop)]
pub enum Cause<'a> {
    /// This file could not be read.
    Read(&'a str),
    /// The line that tells what is refused.
    Refused(Vec<u8>),
    NoMemory,
}

/// The certificate of a kind in a file.
pub(crate) fn load_certificate<'a, D: Desk>(
    alloc: Global,
    desk: &mut D,
    file: &'a str,
    kind: Kind,
) -> Result<Certificate, Cause<'a>>
    ensures loads { LoadsFile D.bytes D.faults D.calls D.asked desk.old desk.new
        MOST_CERTIFICATE_BYTES file.now (CertificateIn file.now kind) result }
    ensures kind { IfOk result (IsCertificateOf kind) }
{
    match load(alloc, desk, file, MOST_CERTIFICATE_BYTES) {
        Ok(bytes) => unless_refused(alloc, file, read(alloc, bytes.as_slice(), kind)),
        Err(LoadFault::Read) => Err(Cause::Read(file)),
        Err(LoadFault::TooLong) => Err(refused(alloc, file, b"TooLong")),
        Err(LoadFault::NoMemory) => Err(Cause::NoMemory),
    }
}

/// What a file of numbers of this kind holds.
pub(crate) fn load_numbers<'a, D: Desk, K: FileKind>(
    alloc: Global,
    desk: &mut D,
    file: &'a str,
    kind: &K,
) -> Result<K::Value, Cause<'a>>
    ensures loads { LoadsFile D.bytes D.faults D.calls D.asked desk.old desk.new MOST_BYTES
        file.now (NumbersIn file.now (λ bytes. denoted_by (K.form kind.now) (K.goods kind.now)
        (K.value kind.now) (records_in bytes))) result }
    ensures fitting { IfOk result (K.fits kind.now) }
{
    let bytes = load_bytes(alloc, desk, file)?;
    unless_refused(alloc, file, read_file(alloc, bytes.as_slice(), kind))
}

/// The choices from menus that a file holds.
pub(crate) fn load_menus<'a, D: Desk>(
    alloc: Global,
    desk: &mut D,
    file: &'a str,
) -> Result<Menus, Cause<'a>>
    ensures { LoadsFile D.bytes D.faults D.calls D.asked desk.old desk.new MOST_BYTES
        file.now (MenusOf file.now) result }
{
    let bytes = load_bytes(alloc, desk, file)?;
    unless_refused(alloc, file, read_menus(alloc, bytes.as_slice()))
}

/// All bytes of a file of numbers or of menus.
fn load_bytes<'a, D: Desk>(alloc: Global, desk: &mut D, file: &'a str) -> Result<Vec<u8>, Cause<'a>>
    ensures content { IfOk result (λ v. AreAll (D.bytes desk.old file.now) v.items) }
    ensures few { IfOk result (λ v. length v.items ≤ MOST_BYTES) }
    ensures caused { IfErr result
        (IsFileCause (D.bytes desk.old) (Rose (D.faults desk.old) (D.faults desk.new))
        file.now (NumbersIn file.now all_bytes)) }
    ensures read_through { D.calls desk.new ≤ D.calls desk.old
        + calls_through MOST_BYTES (D.bytes desk.old file.now) }
    ensures asks_once { IfOk result (λ _. AsksOnce (D.asked desk.old) (D.asked desk.new) file.now) }
    ensures asks_at_most_once { AsksAtMostOnce (D.asked desk.old) (D.asked desk.new) file.now }
    ensures bytes_stay { EachStays (D.bytes desk.old) (D.bytes desk.new) }
    ensures never_falls { NoneFalls (D.faults desk.old) (D.faults desk.new) }
{
    match load(alloc, desk, file, MOST_BYTES) {
        Ok(bytes) => Ok(bytes),
        Err(LoadFault::Read) => Err(Cause::Read(file)),
        Err(LoadFault::TooLong) => Err(refused(alloc, file, b"TooLong")),
        Err(LoadFault::NoMemory) => Err(Cause::NoMemory),
    }
}

/// What was read of a file, or the cause that its fault is.
fn unless_refused<'a, A, F: FileFault>(
    alloc: Global,
    file: &'a str,
    read: Result<A, F>,
) -> Result<A, Cause<'a>>
    ensures value { IfOk result (λ value. read ≡ Ok value) }
    ensures caused { IfErr result (λ why. (fault : F) × (read ≡ Err fault)
        × IsFaultCause F.no_memory (λ f. text.file_line file.now (F.text f)) fault why) }
{
    match read {
        Ok(value) => Ok(value),
        Err(fault) => Err(refusal(alloc, file, fault)),
    }
}

/// The cause that a fault of a file is.
fn refusal<'a, F: FileFault>(alloc: Global, file: &'a str, fault: F) -> Cause<'a>
    ensures { IsFaultCause F.no_memory (λ f. text.file_line file.now (F.text f)) fault result }
{
    let Some(told) = fault.told() else {
        return Cause::NoMemory;
    };
    match text_of(alloc, told) {
        Ok(text) => refused(alloc, file, text.as_slice()),
        Err(_) => Cause::NoMemory,
    }
}

/// The cause of a refusal with the text of a fault.
pub(crate) fn refused<'a>(alloc: Global, file: &'a str, fault: &[u8]) -> Cause<'a>
    ensures { IsRefusal (text.file_line file.now fault.now) result }
{
    match file_line(alloc, file, fault) {
        Ok(line) => Cause::Refused(line),
        Err(_) => Cause::NoMemory,
    }
}

/// The line of a fault of a file.
fn file_line(alloc: Global, file: &str, fault: &[u8]) -> Result<Vec<u8>, NoMemory>
    ensures { IfOk result (λ line. line.items ≡ text.file_line file.now fault.now) }
{
    let mut line = Vec::from_slice(alloc, b"rp: ")?;
    line.extend_from_slice(file.as_bytes())?;
    line.extend_from_slice(b": ")?;
    push_line(&mut line, fault)?;
    Ok(line)
}
