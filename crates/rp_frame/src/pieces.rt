//! Pieces of bytes, each ended by a zero byte.
ghost use Rattle.std.specs.Prelude.{◌≡◌, ◌≢◌, ◌+◌, ◌<◌, ◌∷◌, ◌++◌, All, IfOk, IfNone, IfSome, drop, length};
ghost use Rattle.std.specs.Prelude.{map, option_map};
ghost use Rattle.rp_frame.specs.Frames.{pieces_in};

use rp_num::NoMemory;
use std::alloc::Global;

/// The pieces of bytes in which each piece is ended by a zero byte, or none where the last is not ended.
pub(crate) fn read_pieces<'a>(
    alloc: Global,
    bytes: &'a [u8],
) -> Result<Option<Vec<&'a [u8]>>, NoMemory>
    ensures { IfOk result (λ found.
        option_map (λ pieces. map (λ piece. piece.now) pieces.items) found ≡ pieces_in bytes.now) }
{
    let mut pieces = Vec::new(alloc);
    let mut at = 0;
    while at < bytes.len() {
        let Some(piece) = first_piece(&bytes[at..]) else {
            return Ok(None);
        };
        pieces.push(piece)?;
        at += piece.len() + 1;
    }
    Ok(Some(pieces))
}

/// The bytes before the first zero byte, or none where there is no such byte.
fn first_piece(bytes: &[u8]) -> Option<&[u8]>
    ensures ended { IfSome result (λ piece.
        bytes.now ≡ piece.now ++ 0 ∷ drop (length piece.now + 1) bytes.now) }
    ensures within { IfSome result (λ piece. length piece.now < length bytes.now) }
    ensures none_in_it { IfSome result (λ piece. All (λ byte. byte ≢ 0) piece.now) }
    ensures none { IfNone result (All (λ byte. byte ≢ 0) bytes.now) }
{
    for place in 0..bytes.len() {
        if bytes[place] == 0 {
            return Some(&bytes[..place]);
        }
    }
    None
}
