//! The files of the system.
ghost use Rattle.std.specs.Prelude.{◌≡◌, ◌≢◌, ◌+◌, ◌≤◌, ◌⊎◌, ◌↔◌, ℕ, List, None, Some, Ok, IfOk};
ghost use Rattle.std.specs.Prelude.{IsErr, IsErrOf, IsOk, drop, length, min, option_map};
ghost use Rattle.std.specs.Prelude.{string_bytes, take};
ghost use Rattle.std.specs.Io.KnownBytes.{ReadConsumes};
ghost use Rattle.std.specs.Option.{ForSome};
ghost use Rattle.rp_outside.specs.Asked.{ListsRead, MayListRead};
ghost use Rattle.rp_outside.specs.Faults.{HasRisen, last_count, next_count};
ghost use Rattle.rp_outside.specs.OpenedFile.{kept_file};
ghost use Rattle.rp_outside.specs.SystemDesk.{KeepsOpen, KeptFile, ReadsOn};

use crate::desks::{Desk, DeskFault};
use std::alloc::Global;
use std::io::{ErrorKind, Read, Seek, SeekFrom};
use std::marker::Model;
use std::rt::Files;
use std::{fs, io};

/// The files of the system, opened by name; the last one that was read stays open. A contract sees the counts and the
/// open file, with what it tells of the bytes that are left in it. Want of memory is never a fault; any other error of
/// the system is one, and the file is then closed.
#[derive(Drop)]
pub struct FileDesk<'a, R: Files> {
    rt: &'a R,
    alloc: Global,
    kept: Option<OpenFile<R::File>>,
    calls: u64,
    faults: u64,
}

/// A file that is open at a place.
#[derive(Drop)]
struct OpenFile<F> {
    name: String,
    file: F,
    place: u64,
}

impl<'a, R: Files> Model for FileDesk<'a, R> {
    ghost use Rattle.std.specs.Prelude.{option_map};
    ghost use Rattle.rp_outside.specs.OpenedFile.{kept_file};
    ghost use Rattle.rp_outside.specs.SystemDesk.{FileDeskState};

    ghost Value = { FileDeskState };

    ghost view = { λ d. record {
      kept = option_map (kept_file R.File.remaining) d.kept;
      calls = d.calls;
      faults = d.faults;
    } };
}

impl<'a, R: Files> FileDesk<'a, R> {
    /// A desk with no file open.
    pub fn new(rt: &'a R, alloc: Global) -> FileDesk<'a, R>
        ensures kept { result.kept ≡ None }
        ensures calls { result.calls ≡ 0 }
        ensures faults { result.faults ≡ 0 }
    {
        FileDesk {
            rt,
            alloc,
            kept: None,
            calls: 0,
            faults: 0,
        }
    }

    /// How many reads failed.
    pub fn faults(&self) -> u64
        ensures { result ≡ self.now.faults }
    {
        self.faults
    }
}

impl<R: Files> Desk for FileDesk<'_, R> {
    ghost bytes = { λ _ _. None };

    ghost faults = { λ d _. d.faults };

    ghost calls = { λ d. d.calls };

    ghost asked = { λ _. None };

    fn read_at(&mut self, name: &str, at: u64, into: &mut [u8]) -> Result<u64, DeskFault>
        ensures within { IfOk result (λ n. n ≤ length into.new) }
        ensures known_bytes { IfOk result (λ n. ForSome None
            (λ bs. (take n into.new ≡ take n (drop at bs)) × (n ≤ length (drop at bs)))) }
        ensures none_only_at_end { IfOk result (λ n. n ≡ 0 → ForSome None
            (λ bs. (length into.new ≡ 0) ⊎ (length {A = ℕ} bs ≤ at))) }
        ensures never_falls { (other : List ℕ) → self.old.faults ≤ self.new.faults }
        ensures failed_counted { IsErrOf result DeskFault.Failed
            → HasRisen self.old.faults self.new.faults }
        ensures else_stays { IsErrOf result DeskFault.Failed
            ⊎ ((other : List ℕ) → self.new.faults ≡ self.old.faults) }
        ensures call_counted { self.new.calls ≡ next_count self.old.calls }
        ensures listed { IsErrOf result DeskFault.NoMemory ⊎ ListsRead None None name.now at }
        ensures may_list { MayListRead None None name.now at }

        // Beyond what every desk does.
        ensures failed_counts { IsErrOf result DeskFault.Failed
            → self.new.faults ≡ next_count self.old.faults }
        ensures kept { IfOk result (KeepsOpen self.new.kept name.now at) }
        ensures closed { IsErr result → self.new.kept ≡ None }
        ensures reads_on { (file : KeptFile) → self.old.kept ≡ Some file → file.name ≡ name.now
            → file.place ≡ at → IfOk result (ReadsOn file.remaining self.new.kept into.new) }
    {
        self.calls = self.calls.saturating_add(1);
        match read_kept(self.rt, self.alloc, &mut self.kept, name, at, into) {
            Ok(count) => Ok(count),
            Err(error) => {
                let fault = fault_of(error.kind());
                if fault == DeskFault::Failed {
                    self.faults = self.faults.saturating_add(1);
                }
                Err(fault)
            }
        }
    }
}

/// Reads the named file, and keeps it open unless it fails.
fn read_kept<R: Files>(
    rt: &R,
    alloc: Global,
    kept: &mut Option<OpenFile<R::File>>,
    name: &str,
    at: u64,
    into: &mut [u8],
) -> io::Result<u64>
    ensures within { IfOk result (λ n. n ≤ length into.new) }
    ensures kept { IfOk result
        (KeepsOpen (option_map (kept_file R.File.remaining) kept.new) name.now at) }
    ensures closed { IsErr result → kept.new ≡ None }
    ensures reads_on { (file : KeptFile)
        → option_map (kept_file R.File.remaining) kept.old ≡ Some file → file.name ≡ name.now
        → file.place ≡ at → IfOk result (ReadsOn file.remaining
        (option_map (kept_file R.File.remaining) kept.new) into.new) }
{
    let mut opened = reopened(rt, alloc, kept.take(), name)?;
    let count = read_open(&mut opened, at, into)?;
    *kept = Some(opened);
    Ok(count)
}

/// The file that is kept, where it has this name; else the named file, opened at its beginning.
fn reopened<R: Files>(
    rt: &R,
    alloc: Global,
    kept: Option<OpenFile<R::File>>,
    name: &str,
) -> io::Result<OpenFile<R::File>>
    ensures name { IfOk result (λ file. string_bytes file.name ≡ name.now) }
    ensures same { (file : OpenFile R.File) → kept ≡ Some file → string_bytes file.name ≡ name.now
        → result ≡ Ok file }
{
    if let Some(opened) = kept {
        if opened.name.as_str() == name {
            return Ok(opened);
        }
    }
    Ok(OpenFile {
        name: String::from_str(alloc, name)?,
        file: fs::open(rt, name)?,
        place: 0,
    })
}

/// Reads an open file from a place on.
fn read_open<F: Read + Seek>(opened: &mut OpenFile<F>, at: u64, into: &mut [u8]) -> io::Result<u64>
    ensures within { IfOk result (λ n. n ≤ length into.new) }
    ensures name { opened.new.name ≡ opened.old.name }
    ensures place { IfOk result (λ n. opened.new.place ≡ min (at + n) last_count) }
    ensures reads_on { opened.old.place ≡ at
        → ReadConsumes (F.remaining opened.old.file) (F.remaining opened.new.file) result into.new }
{
    go_to(opened, at)?;
    let count = opened.file.read(into)? as u64;
    opened.place = at.saturating_add(count);
    Ok(count)
}

/// Goes to a place in an open file, where the next read is not there already.
fn go_to<F: Seek>(opened: &mut OpenFile<F>, at: u64) -> io::Result<()>
    ensures name { opened.new.name ≡ opened.old.name }
    ensures there { opened.old.place ≡ at → IsOk result × (opened.new ≡ opened.old) }
    ensures moved { opened.old.place ≢ at → IfOk result (λ _.
        ForSome (F.stream_position opened.old.file)
        (λ place. F.stream_position opened.new.file ≡ Some at)) }
{
    if opened.place != at {
        opened.file.seek(SeekFrom::Start(at))?;
    }
    Ok(())
}

/// What an error of the system is to a desk.
fn fault_of(kind: ErrorKind) -> DeskFault
    ensures no_memory { result ≡ DeskFault.NoMemory ↔ (kind ≡ ErrorKind.OutOfMemory) }
    ensures failed { kind ≢ ErrorKind.OutOfMemory → result ≡ DeskFault.Failed }
{
    match kind {
        ErrorKind::OutOfMemory => DeskFault::NoMemory,
        _ => DeskFault::Failed,
    }
}
