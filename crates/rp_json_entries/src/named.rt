//! The names of kinds of items.
ghost use Rattle.std.specs.Prelude.{◌≡◌, ℕ, List, ⊤};
ghost use Rattle.serde_json.specs.Data.{string};

use crate::notation::Notation;
use rp_num::NoMemory;
use serde_json::Value;
use std::alloc::Global;
use std::marker::PhantomData;

/// The name of a kind of item.
pub trait Tag {
    /// The bytes of the name.
    ghost tag: { List ℕ };

    fn name() -> &'static str
        ensures { result.now ≡ tag };
}

/// Nothing but the name of a kind of item.
pub struct Named<T> {
    tag: PhantomData<T>,
}

impl<T: Tag> Notation for Named<T> {
    type Entry = ();

    ghost value_of = { λ _. string T.tag };

    ghost fits = { λ _. ⊤ };

    fn value(alloc: Global, _entry: &()) -> Result<Value, NoMemory> {
        Ok(Value::try_from_str(alloc, T::name())?)
    }

    fn read(_alloc: Global, value: &Value) -> Result<Option<()>, NoMemory> {
        match value.as_str() {
            Some(text) if text == T::name() => Ok(Some(())),
            _ => Ok(None),
        }
    }
}
