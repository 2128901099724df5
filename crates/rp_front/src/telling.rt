//! Texts for standard error.
ghost use Rattle.std.specs.Prelude.{◌≡◌, ◌≤◌, false, true};
ghost use Rattle.std.specs.List.{flat_map};
ghost use Rattle.rp_guide.specs.Gains.{Gains};
ghost use Rattle.rp_front.specs.Lines.{hinted};
ghost use Rattle.rp_outside.specs.Faults.{HasRisen};
ghost use Rattle.rp_outside.specs.Known.{Grows, GrowsByPrefix};

use rp_guide::tell_with_hint;
use rp_outside::{Sink, pour};

/// Writes the pieces one after another, as far as the sink takes them, and says whether it took all. A failure is told
/// by the sink's count of faults alone.
pub(crate) fn tell<E: Sink>(err: &mut E, pieces: &[&[u8]]) -> bool
    ensures whole { result ≡ true → Grows (E.written err.old) (E.written err.new)
        (flat_map (λ piece. piece.now) pieces.now) }
    ensures part { result ≡ false → GrowsByPrefix (E.written err.old) (E.written err.new)
        (flat_map (λ piece. piece.now) pieces.now)
        × HasRisen (E.faults err.old) (E.faults err.new) }
    ensures never_falls { E.faults err.old ≤ E.faults err.new }
{
    for piece in pieces {
        let Ok(()) = pour(err, piece) else {
            return false;
        };
    }
    true
}

/// Writes the pieces of the line of an error, and the line of the hint for its code where hints are wanted.
pub(crate) fn tell_error<E: Sink>(err: &mut E, hints: bool, pieces: &[&[u8]], code: &[u8])
    ensures gains { Gains (E.written err.old) (E.written err.new) (E.faults err.old)
        (E.faults err.new) (hinted hints code.now (flat_map (λ piece. piece.now) pieces.now)) }
    ensures never_falls { E.faults err.old ≤ E.faults err.new }
{
    let whole = tell(err, pieces);
    if whole && hints {
        tell_with_hint(err, b"", code);
    }
}
