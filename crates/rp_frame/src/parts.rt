//! The bytes of files that stand one after the other.
ghost use Rattle.std.specs.Prelude.{◌≡◌, IfOk, map, option_map};
ghost use Rattle.rp_frame.specs.Frames.{parts_in};

use rp_num::NoMemory;
use std::alloc::Global;

/// The parts of these sizes, one after the other, or none where they are not all of the bytes.
pub(crate) fn read_parts<'a>(
    alloc: Global,
    sizes: &[u64],
    bytes: &'a [u8],
) -> Result<Option<Vec<&'a [u8]>>, NoMemory>
    ensures { IfOk result (λ found.
        option_map (λ parts. map (λ part. part.now) parts.items) found
        ≡ parts_in sizes.now bytes.now) }
{
    let mut parts = Vec::new(alloc);
    let mut at = 0;
    for size in sizes {
        if *size > (bytes.len() - at) as u64 {
            return Ok(None);
        }
        let end = at + *size as usize;
        parts.push(&bytes[at..end])?;
        at = end;
    }
    if at < bytes.len() {
        return Ok(None);
    }
    Ok(Some(parts))
}
