//! Tests of reads and writes that fail: after some bytes of a file, of a folder, and on a device that is full.
use crate::calls::{loads, pours, reads, writes};
use rp_outside::{DeskFault, Failed, FileDesk, LoadFault, StdSink, WriteFault};
use std::alloc::Allocator;
use std::fs::{Metadata, OpenFile, OpenOptions};
use std::io::{Error, ErrorKind, Read, Seek, SeekFrom, Write};
use std::rt::Files;
use std::test::Fail;
use std::{env, fs, io};

/// An error of the system that is no want of memory.
fn refusal() -> Error {
    Error::from(ErrorKind::BrokenPipe)
}

/// Files of which each gives one byte, and fails at its second read; a system that does nothing else.
#[derive(Drop)]
struct OneByteFiles;

/// Such a file, and how many of its bytes were given.
#[derive(Drop)]
struct OneByteFile {
    given: usize,
}

impl Read for OneByteFile {
    fn read(&mut self, buf: &mut [u8]) -> io::Result<usize> {
        if buf.is_empty() || self.given > 0 {
            return Err(refusal());
        }
        buf[0] = b'p';
        self.given = 1;
        Ok(1)
    }
}

impl Write for OneByteFile {
    fn write(&mut self, _buf: &[u8]) -> io::Result<usize> {
        Err(refusal())
    }

    fn flush(&mut self) -> io::Result<()> {
        Err(refusal())
    }
}

impl Seek for OneByteFile {
    fn seek(&mut self, _to: SeekFrom) -> io::Result<u64> {
        Err(refusal())
    }
}

impl OpenFile for OneByteFile {
    fn metadata(&self) -> io::Result<Metadata> {
        Err(refusal())
    }

    fn set_len(&self, _size: u64) -> io::Result<()> {
        Err(refusal())
    }

    fn sync_all(&self) -> io::Result<()> {
        Err(refusal())
    }

    fn sync_data(&self) -> io::Result<()> {
        Err(refusal())
    }
}

impl Files for OneByteFiles {
    type File = OneByteFile;

    type Dir = OneByteFile;

    fn open_file(&self, _how: &OpenOptions, _path: &str) -> io::Result<OneByteFile> {
        Ok(OneByteFile { given: 0 })
    }

    fn open_dir(&self, _path: &str) -> io::Result<OneByteFile> {
        Err(refusal())
    }

    fn metadata(&self, _path: &str) -> io::Result<Metadata> {
        Err(refusal())
    }

    fn symlink_metadata(&self, _path: &str) -> io::Result<Metadata> {
        Err(refusal())
    }

    fn copy(&self, _from: &str, _to: &str) -> io::Result<u64> {
        Err(refusal())
    }

    fn rename(&self, _from: &str, _to: &str) -> io::Result<()> {
        Err(refusal())
    }

    fn remove_file(&self, _path: &str) -> io::Result<()> {
        Err(refusal())
    }

    fn create_dir(&self, _path: &str) -> io::Result<()> {
        Err(refusal())
    }

    fn remove_dir(&self, _path: &str) -> io::Result<()> {
        Err(refusal())
    }

    fn remove_dir_all<B: Allocator>(&self, _alloc: B, _path: &str) -> io::Result<()> {
        Err(refusal())
    }
}

#[test]
fn a_read_that_fails_midway_is_no_end_of_the_file(rt: HostRuntime) -> Result<(), Fail> {
    let files = OneByteFiles;
    let mut desk = FileDesk::new(&files, rt.alloc());
    assert!(rt; loads(rt.alloc(), &mut desk, "t.csv", 12, Err(LoadFault::Read)));
    assert!(rt; desk.faults() == 1);

    // The file is opened again after that, and fails again at its second byte; a seek fails as well.
    assert!(rt; reads(&mut desk, "t.csv", 0, Ok(b"p")));
    assert!(rt; reads(&mut desk, "t.csv", 1, Err(DeskFault::Failed)));
    assert!(rt; desk.faults() == 2);
    assert!(rt; reads(&mut desk, "t.csv", 1, Err(DeskFault::Failed)));
    assert!(rt; desk.faults() == 3);
    Ok(())
}

#[test]
fn a_folder_is_opened_and_not_read(rt: HostRuntime) -> Result<(), Fail> {
    let folder = env::temp_dir(&rt)?.into_string();
    let mut desk = FileDesk::new(&rt, rt.alloc());
    assert!(rt;
        loads(
            rt.alloc(),
            &mut desk,
            folder.as_str(),
            12,
            Err(LoadFault::Read)
        )
    );
    assert!(rt; desk.faults() == 1);
    Ok(())
}

#[test]
fn a_device_that_is_full_takes_nothing(rt: HostRuntime) -> Result<(), Fail> {
    let mut out = StdSink::new(fs::create(&rt, "/dev/full")?);
    assert!(rt; writes(&mut out, b"pair", Err(Failed)));
    assert!(rt; out.faults() == 1);
    assert!(rt; pours(&mut out, b"pair 1 2\n", Err(WriteFault)));
    assert!(rt; out.faults() == 2);
    Ok(())
}
