//! How one kind of entry is written and read back.
ghost use Rattle.std.specs.Prelude.{◌≡◌, IfOk};
ghost use Rattle.serde_json.specs.Data.{Data};
ghost use Rattle.serde_json.specs.View.{view};
ghost use Rattle.rp_json_entries.specs.Reading.{IsRead};

use rp_num::NoMemory;
use serde_json::Value;
use std::alloc::Global;

/// How one kind of entry is written as JSON, and read back.
pub trait Notation {
    type Entry: Drop;

    /// The value of an entry.
    ghost value_of: { Self.Entry → Data };

    /// The limits of an entry.
    ghost fits: { Self.Entry → Type 0 };

    /// Makes the value of an entry.
    fn value(alloc: Global, entry: &Self::Entry) -> Result<Value, NoMemory>
        ensures { IfOk result (λ v. view v ≡ value_of entry.now) };

    /// The entry that has this value.
    fn read(alloc: Global, value: &Value) -> Result<Option<Self::Entry>, NoMemory>
        ensures { IfOk result (λ o. IsRead value_of fits (view value.now) o) };
}
