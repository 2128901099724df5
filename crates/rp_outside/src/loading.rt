//! Loading a file whole, read by read.
ghost use Rattle.std.specs.Prelude.{◌≡◌, ◌+◌, ◌^◌, ◌<◌, ◌≤◌, ◌⊎◌, IfOk, IsErrOf, Ok};
ghost use Rattle.std.specs.Prelude.{length, vec_len};
ghost use Rattle.rp_outside.specs.Asked.{AsksAtMostOnce, AsksOnce, ListsRead, MayListRead};
ghost use Rattle.rp_outside.specs.Faults.{EachStays, HasRisen, NoneFalls, next_count};
ghost use Rattle.rp_outside.specs.Reads.{calls_through};
ghost use Rattle.rp_outside.specs.Known.{AreAll, AreAtMost, AreMoreThan};
ghost use Rattle.rp_outside.specs.InnerFronts.{BeginsWith};

use crate::desks::{Desk, DeskFault};
use std::alloc::Global;

/// The most bytes that one read asks for.
const CHUNK: u64 = 8192;

/// Why the bytes of a name could not be had.
#[derive(Clone, Copy, Debug, PartialEq, Eq)]
pub enum LoadFault {
    /// A read failed.
    Read,
    /// The name has more bytes than the limit.
    TooLong,
    /// Memory ran out.
    NoMemory,
}

/// What one read did.
enum Turn {
    Grew,
    Ended,
}

/// All bytes of `name`, of which there are at most `limit`. No read but the last may come back empty.
pub fn load<D: Desk>(
    alloc: Global,
    desk: &mut D,
    name: &str,
    limit: u64,
) -> Result<Vec<u8>, LoadFault>
    requires { limit < 2 ^ 32 }
    ensures whole { IfOk result (λ v. AreAll (D.bytes desk.old name.now) v.items) }
    ensures within_limit { IfOk result (λ v. vec_len v ≤ limit) }
    ensures read_counted { IsErrOf result LoadFault.Read
        → HasRisen (D.faults desk.old name.now) (D.faults desk.new name.now) }
    ensures too_long_only { IsErrOf result LoadFault.TooLong
        → AreMoreThan limit (D.bytes desk.old name.now) }

    // So more bytes than the limit are `TooLong`, unless a read failed or memory ran out.
    ensures past_limit { IfOk result (λ _. AreAtMost limit (D.bytes desk.old name.now)) }

    // So a read that failed is answered by that fault and by no other.
    ensures else_stays { IsErrOf result LoadFault.Read
        ⊎ EachStays (D.faults desk.old) (D.faults desk.new) }

    // How often the desk is asked: no read but the last may come back empty.
    ensures reads { D.calls desk.new ≤ D.calls desk.old + limit + 1 }
    ensures byte_a_read { IfOk result (λ v. D.calls desk.new ≤ D.calls desk.old + vec_len v + 1) }
    ensures read_through { D.calls desk.new
        ≤ D.calls desk.old + calls_through limit (D.bytes desk.old name.now) }
    ensures some_read { HasRisen (D.calls desk.old) (D.calls desk.new) }

    // For which name, and at which places.
    ensures asks_once { IfOk result (λ _. AsksOnce (D.asked desk.old) (D.asked desk.new) name.now) }
    ensures asks_at_most_once { AsksAtMostOnce (D.asked desk.old) (D.asked desk.new) name.now }

    // In every outcome, for every name.
    ensures bytes_stay { EachStays (D.bytes desk.old) (D.bytes desk.new) }
    ensures never_falls { NoneFalls (D.faults desk.old) (D.faults desk.new) }
{
    let mut bytes = Vec::new(alloc);
    let mut chunk = [0u8; CHUNK as usize];
    loop {
        let room = CHUNK.min(limit + 1 - bytes.len() as u64);
        let part = &mut chunk[..room as usize];
        match take_turn(desk, name, limit, &mut bytes, part)? {
            Turn::Grew => {}
            Turn::Ended => return Ok(bytes),
        }
    }
}

/// One read into `part`, of what stands after the bytes that are there.
fn take_turn<D: Desk>(
    desk: &mut D,
    name: &str,
    limit: u64,
    bytes: &mut Vec<u8>,
    part: &mut [u8],
) -> Result<Turn, LoadFault>
    requires limit { limit < 2 ^ 32 }
    requires below { vec_len bytes.old ≤ limit }
    requires some { 0 < length part.old }
    requires room { vec_len bytes.old + length part.old ≤ limit + 1 }
    requires front { BeginsWith (D.bytes desk.old name.now) bytes.old.items }
    ensures grew { result ≡ Ok Turn.Grew → (vec_len bytes.old < vec_len bytes.new)
        × (vec_len bytes.new ≤ limit)
        × BeginsWith (D.bytes desk.old name.now) bytes.new.items }
    ensures ended { result ≡ Ok Turn.Ended → (bytes.new.items ≡ bytes.old.items)
        × AreAll (D.bytes desk.old name.now) bytes.new.items }
    ensures read_counted { IsErrOf result LoadFault.Read
        → HasRisen (D.faults desk.old name.now) (D.faults desk.new name.now) }
    ensures too_long_only { IsErrOf result LoadFault.TooLong
        → AreMoreThan limit (D.bytes desk.old name.now) }
    ensures else_stays { IsErrOf result LoadFault.Read
        ⊎ EachStays (D.faults desk.old) (D.faults desk.new) }
    ensures bytes_stay { EachStays (D.bytes desk.old) (D.bytes desk.new) }
    ensures never_falls { NoneFalls (D.faults desk.old) (D.faults desk.new) }
    ensures call_counted { D.calls desk.new ≡ next_count (D.calls desk.old) }
    ensures listed { IsErrOf result LoadFault.NoMemory
        ⊎ ListsRead (D.asked desk.old) (D.asked desk.new) name.now (vec_len bytes.old) }
    ensures may_list { MayListRead (D.asked desk.old) (D.asked desk.new)
        name.now (vec_len bytes.old) }
{
    let at = bytes.len() as u64;
    match desk.read_at(name, at, &mut *part) {
        Ok(0) => Ok(Turn::Ended),
        Ok(n) => {
            if at + n > limit {
                return Err(LoadFault::TooLong);
            }
            match bytes.extend_from_slice(&part[..n as usize]) {
                Ok(()) => Ok(Turn::Grew),
                Err(_) => Err(LoadFault::NoMemory),
            }
        }
        Err(DeskFault::Failed) => Err(LoadFault::Read),
        Err(DeskFault::NoMemory) => Err(LoadFault::NoMemory),
    }
}
