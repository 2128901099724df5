//! What the tests of the outside share: calls of any desk and any sink. They have no clause, so that a test carries
//! none of what they ensure.
use rp_outside::{Desk, DeskFault, Failed, LoadFault, MemFile, Sink, WriteFault, load, pour};
use std::alloc::{AllocError, Global};

/// Two purchases that contradict each other, as a file.
pub(crate) const TABLE: &[u8] = b"p_a,q_a,p_b,q_b\n1,1,2,2\n2,2,1,1\n";

/// Files of these names and bytes.
pub(crate) fn files_of(alloc: Global, files: &[(&str, &[u8])]) -> Result<Vec<MemFile>, AllocError> {
    let mut all = Vec::new(alloc);
    for (name, bytes) in files {
        all.push(MemFile {
            name: String::from_str(alloc, name)?,
            bytes: bytes.to_vec(alloc)?,
        })?;
    }
    Ok(all)
}

/// Whether the load of a file answers so: its bytes, or the fault.
pub(crate) fn loads<D: Desk>(
    alloc: Global,
    desk: &mut D,
    name: &str,
    limit: u32,
    want: Result<&[u8], LoadFault>,
) -> bool {
    match (load(alloc, desk, name, u64::from(limit)), want) {
        (Ok(bytes), Ok(wanted)) => bytes.as_slice() == wanted,
        (Err(fault), Err(wanted)) => fault == wanted,
        _ => false,
    }
}

/// Whether one read of up to 4 bytes answers so: what came, or the fault.
pub(crate) fn reads<D: Desk>(
    desk: &mut D,
    name: &str,
    at: u64,
    want: Result<&[u8], DeskFault>,
) -> bool {
    let mut into = [0; 4];
    match (desk.read_at(name, at, &mut into), want) {
        (Ok(count), Ok(wanted)) => &into[..count as usize] == wanted,
        (Err(fault), Err(wanted)) => fault == wanted,
        _ => false,
    }
}

/// Whether one write answers so: how many bytes it took, or that it failed.
pub(crate) fn writes<O: Sink>(sink: &mut O, piece: &[u8], want: Result<u64, Failed>) -> bool {
    sink.write(piece) == want
}

/// Whether bytes are poured whole, or fall short.
pub(crate) fn pours<O: Sink>(sink: &mut O, bytes: &[u8], want: Result<(), WriteFault>) -> bool {
    pour(sink, bytes) == want
}
