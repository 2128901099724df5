//! Texts for standard error.
ghost use Rattle.std.specs.Prelude.{◌≤◌};
ghost use Rattle.std.specs.List.{flat_map};
ghost use Rattle.rp_commands.specs.Gains.{Gains};

use rp_outside::{Sink, pour};

/// Writes the pieces one after another, as far as the sink takes them. A failure is told by the sink's
/// count of faults alone.
pub(crate) fn tell<E: Sink>(err: &mut E, pieces: &[&[u8]])
    ensures gains { Gains (E.written err.old) (E.written err.new)
        (E.faults err.old) (E.faults err.new) (flat_map (λ piece. piece.now) pieces.now) }
    ensures never_falls { E.faults err.old ≤ E.faults err.new }
{
    for piece in pieces {
        let Ok(()) = pour(err, piece) else {
            return;
        };
    }
}
