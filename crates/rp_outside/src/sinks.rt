//! Where bytes are written to.
ghost use Rattle.std.specs.Prelude.{◌≡◌, ◌<◌, ◌≤◌, ℕ, List, Option, IfOk, OnErr, length, take};
ghost use Rattle.rp_outside.specs.Faults.{HasRisen, next_count};
ghost use Rattle.rp_outside.specs.Known.{Grows, Stays};

/// A write that the outside refused; the count of its sink rose.
#[derive(Clone, Copy, Debug, PartialEq, Eq)]
pub struct Failed;

/// A place that bytes go to, in order. What was written is known or not known, and a clause on content
/// holds where it is.
pub trait Sink {
    /// All that was written, where it is known.
    ghost written: { Self → Option (List ℕ) };

    /// The count of faults.
    ghost faults: { Self → ℕ };

    /// The count of calls, whatever they answer.
    ghost calls: { Self → ℕ };

    /// Takes bytes from the front of `piece`, and gives how many.
    fn write(&mut self, piece: &[u8]) -> Result<u64, Failed>
        ensures within { IfOk result (λ n. n ≤ length piece.now) }
        ensures progress { IfOk result (λ n. 0 < length piece.now → 0 < n) }
        ensures grows { IfOk result (λ n.
            Grows (written self.old) (written self.new) (take n piece.now)) }
        ensures failed_stays { OnErr result (Stays (written self.old) (written self.new)) }
        ensures failed_counted { OnErr result (HasRisen (faults self.old) (faults self.new)) }
        ensures never_falls { faults self.old ≤ faults self.new }
        ensures call_counted { calls self.new ≡ next_count (calls self.old) };
}
