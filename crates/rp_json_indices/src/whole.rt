//! Whole numbers of 128 bits as JSON.
ghost use Rattle.rp_num.specs.Spelled.{FitsWhole};
ghost use Rattle.rp_json_entries.specs.Values.{natural_value};

use rp_json_entries::notation::Notation;
use rp_num::{NoMemory, read_u128};
use serde_json::Value;
use std::alloc::Global;

/// A whole number that is not negative, of 128 bits.
pub struct Whole;

impl Notation for Whole {
    type Entry = u128;

    ghost value_of = { natural_value };

    ghost fits = { FitsWhole };

    fn value(alloc: Global, entry: &u128) -> Result<Value, NoMemory> {
        Ok(Value::String(entry.to_string(alloc)?))
    }

    fn read(alloc: Global, value: &Value) -> Result<Option<u128>, NoMemory> {
        match value.as_str() {
            Some(text) => read_u128(alloc, text),
            None => Ok(None),
        }
    }
}
