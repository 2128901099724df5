//! Where files are read from.
ghost use Rattle.std.specs.Prelude.{◌≡◌, ◌≤◌, ◌⊎◌, ℕ, List, Option, IfOk, IsErrOf, drop, length};
ghost use Rattle.std.specs.Prelude.{take};
ghost use Rattle.std.specs.Option.{ForSome};
ghost use Rattle.rp_outside.specs.Asked.{ListsRead, MayListRead, Reads};
ghost use Rattle.rp_outside.specs.Faults.{EachStays, HasRisen, NoneFalls, next_count};

/// Why a read gave nothing.
#[derive(Clone, Copy, Debug, PartialEq, Eq)]
pub enum DeskFault {
    /// The outside failed, and the count of the name rose.
    Failed,
    /// Memory ran out.
    NoMemory,
}

/// Files that are read by name, at any place in them. The bytes of a name are known or not known, and a clause on
/// content holds where they are; so are the reads that were asked for. Faults are counted by name, calls for the desk as
/// a whole.
pub trait Desk {
    /// The bytes of each name, where they are known.
    ghost bytes: { Self → List ℕ → Option (List ℕ) };

    /// The count of faults of each name.
    ghost faults: { Self → List ℕ → ℕ };

    /// The count of calls, for whatever name and with whatever answer.
    ghost calls: { Self → ℕ };

    /// The reads that were asked for, each a name and a place, where they are known.
    ghost asked: { Self → Option Reads };

    /// Reads bytes of `name` from the place `at` on into the front of `into`, and gives how many.
    fn read_at(&mut self, name: &str, at: u64, into: &mut [u8]) -> Result<u64, DeskFault>
        ensures within { IfOk result (λ n. n ≤ length into.new) }
        ensures known_bytes { IfOk result (λ n. ForSome (bytes self.old name.now)
            (λ bs. (take n into.new ≡ take n (drop at bs)) × (n ≤ length (drop at bs)))) }
        ensures none_only_at_end { IfOk result (λ n. n ≡ 0 → ForSome (bytes self.old name.now)
            (λ bs. (length into.new ≡ 0) ⊎ (length bs ≤ at))) }
        ensures failed_counted { IsErrOf result DeskFault.Failed
            → HasRisen (faults self.old name.now) (faults self.new name.now) }
        ensures else_stays { IsErrOf result DeskFault.Failed
            ⊎ EachStays (faults self.old) (faults self.new) }

        // In every outcome, for every name.
        ensures bytes_stay { EachStays (bytes self.old) (bytes self.new) }
        ensures never_falls { NoneFalls (faults self.old) (faults self.new) }
        ensures call_counted { calls self.new ≡ next_count (calls self.old) }

        // A read that was not asked for, for want of memory, may not be listed.
        ensures listed { IsErrOf result DeskFault.NoMemory
            ⊎ ListsRead (asked self.old) (asked self.new) name.now at }
        ensures may_list { MayListRead (asked self.old) (asked self.new) name.now at };
}
