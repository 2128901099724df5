//! The room of a caller.
ghost use Rattle.std.specs.Prelude.{◌≡◌, length};
ghost use Rattle.rp_frame.specs.Rooms.{filled};

/// Puts a text at the front of a room, as much of it as has place, and tells how long it is.
pub fn fill(room: &mut [u8], text: &[u8], whole: &mut u64)
    ensures kept { room.new ≡ filled room.old text.now }
    ensures counted { whole.new ≡ length text.now }
{
    *whole = text.len() as u64;
    let count = text.len().min(room.len());
    room[..count].copy_from_slice(&text[..count]);
}
