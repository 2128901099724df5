//! Names in the form in which words are handed over.
ghost use Rattle.std.specs.Prelude.{◌≡◌, IfOk, map};
ghost use Rattle.rp_frame.specs.Names.{ended_names};

use rp_num::NoMemory;
use std::alloc::Global;

/// Names one after the other, each ended by a zero byte.
pub fn end_names(alloc: Global, names: &[&str]) -> Result<Vec<u8>, NoMemory>
    ensures { IfOk result (λ text. text.items ≡ ended_names (map (λ name. name.now) names.now)) }
{
    let mut text = Vec::new(alloc);
    for name in names {
        text.extend_from_slice(name.as_bytes())?;
        text.push(0)?;
    }
    Ok(text)
}
