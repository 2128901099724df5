//! One file in memory, and reads of a list of them.
ghost use Rattle.std.specs.Prelude.{◌≡◌, ◌↔◌, None, IfSome, IsNone, IsSomeAnd, map};
ghost use Rattle.std.specs.Option.{option_copied};
ghost use Rattle.rp_outside.specs.Files.{ReadsAll, bytes_under};
ghost use Rattle.rp_outside.specs.NamedFile.{named_bytes};

/// A file in memory.
#[derive(Debug, Drop)]
pub struct MemFile {
    pub name: String,
    pub bytes: Vec<u8>,
}

/// Reads the first file of a name as far as `into` has room; `None` where there is none.
pub(crate) fn read_file(files: &[MemFile], name: &str, at: u64, into: &mut [u8]) -> Option<u64>
    ensures missing { IsNone result ↔ (bytes_under (map named_bytes files.now) name.now ≡ None) }
    ensures read { IfSome result (λ n.
        IsSomeAnd (bytes_under (map named_bytes files.now) name.now)
        (λ bs. ReadsAll bs at into.new n)) }
{
    match find_bytes(files, name) {
        Some(bytes) => Some(copy_from_place(bytes, at, into)),
        None => None,
    }
}

/// The bytes under a name, of the first file that has it.
fn find_bytes<'a>(files: &'a [MemFile], name: &str) -> Option<&'a [u8]>
    ensures { option_copied result ≡ bytes_under (map named_bytes files.now) name.now }
{
    for file in files {
        if name == file.name.as_str() {
            return Some(file.bytes.as_slice());
        }
    }
    None
}

/// Copies the bytes from the place `at` on to the front of `into`, as far as both go.
fn copy_from_place(bytes: &[u8], at: u64, into: &mut [u8]) -> u64
    ensures { ReadsAll bytes.now at into.new result }
{
    let start = bytes.len().min(at as usize);
    let rest = &bytes[start..];
    let count = rest.len().min(into.len());
    into[..count].copy_from_slice(&rest[..count]);
    count as u64
}
