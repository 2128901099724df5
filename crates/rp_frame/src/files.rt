//! Which files are given.
ghost use Rattle.std.specs.Prelude.{◌≡◌, IfNone, IfSome, map, option_copied};
ghost use Rattle.rp_outside.specs.Files.{bytes_under};
ghost use Rattle.rp_outside.specs.NamedFile.{named_bytes};
ghost use Rattle.rp_frame.specs.Given.{AreGiven, IsFirstMissing};

use rp_outside::MemFile;

/// The place of the first name of which there is no file.
pub fn first_missing(names: &[&str], files: &[MemFile]) -> Option<usize>
    ensures missing { IfSome result (λ place. IsFirstMissing
        (map named_bytes files.now) (map (λ name. name.now) names.now) place) }
    ensures given { IfNone result (AreGiven
        (map named_bytes files.now) (map (λ name. name.now) names.now)) }
{
    for place in 0..names.len() {
        match bytes_of(files, names[place]) {
            Some(_) => {}
            None => return Some(place),
        }
    }
    None
}

/// The bytes under a name, of the first file that has it.
fn bytes_of<'a>(files: &'a [MemFile], name: &str) -> Option<&'a [u8]>
    ensures { option_copied result ≡ bytes_under (map named_bytes files.now) name.now }
{
    for file in files {
        if name == file.name.as_str() {
            return Some(file.bytes.as_slice());
        }
    }
    None
}
