//! How much searches look at.
ghost use Rattle.std.specs.Prelude.{◌≡◌, ◌≤◌, ◌+◌, true, false};

/// How many rows of a table's preference searches may look at, and how many they looked at so far. A row has what an
/// observation's steps to all others are.
#[derive(Drop)]
pub struct Looks {
    pub made: u64,
    pub limit: u64,
    pub ghost within: { made ≤ limit },
}

impl Looks {
    /// None so far, and so many at most.
    pub fn at_most(limit: u64) -> Looks
        ensures none { result.made ≡ 0 }
        ensures limit { result.limit ≡ limit }
    {
        Looks { made: 0, limit }
    }

    /// Whether so many are left.
    pub(crate) fn are_left(&self, looks: u64) -> bool {
        self.limit - self.made >= looks
    }

    /// Counts so many more looks, where they are left.
    pub(crate) fn take_many(&mut self, looks: u64) -> bool
        ensures limit { self.new.limit ≡ self.old.limit }
        ensures taken { result ≡ true → self.new.made ≡ self.old.made + looks }
        ensures not_fewer { self.old.made ≤ self.new.made }
    {
        if looks > self.limit - self.made {
            return false;
        }
        self.made += looks;
        true
    }

    /// Counts one more look, where one is left.
    pub fn take(&mut self) -> bool
        ensures limit { self.new.limit ≡ self.old.limit }
        ensures taken { result ≡ true → self.new.made ≡ self.old.made + 1 }
        ensures spent { result ≡ false → self.new.made ≡ self.old.limit }
        ensures not_fewer { self.old.made ≤ self.new.made }
    {
        if self.made >= self.limit {
            return false;
        }
        self.made += 1;
        true
    }
}
