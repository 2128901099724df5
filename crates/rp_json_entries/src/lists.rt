//! Lists of entries as arrays.
ghost use Rattle.std.specs.Prelude.{◌≡◌, IfOk, All, map};
ghost use Rattle.serde_json.specs.View.{view};
ghost use Rattle.rp_json_entries.specs.Reading.{IsFound};
ghost use Rattle.rp_json_entries.specs.Values.{list_value};

use crate::notation::Notation;
use rp_num::{NoMemory, Seq};
use serde_json::Value;
use std::alloc::Global;

/// Entries of one notation, as an array.
impl<N: Notation> Notation for Seq<N> {
    type Entry = Seq<N::Entry>;

    ghost value_of = { list_value N.value_of };

    ghost fits = { All N.fits };

    fn value(alloc: Global, entry: &Seq<N::Entry>) -> Result<Value, NoMemory> {
        list_value::<N>(alloc, entry.as_slice())
    }

    fn read(alloc: Global, value: &Value) -> Result<Option<Seq<N::Entry>>, NoMemory> {
        match value.as_array() {
            Some(values) => read_list::<N>(alloc, values.as_slice()),
            None => Ok(None),
        }
    }
}

/// Makes the array of the entries' values.
pub fn list_value<N: Notation>(alloc: Global, entries: &[N::Entry]) -> Result<Value, NoMemory>
    ensures { IfOk result (λ v. view v ≡ list_value N.value_of entries.now) }
{
    let mut values = Vec::with_capacity(alloc, entries.len())?;
    for entry in entries {
        values.push(N::value(alloc, entry)?)?;
    }
    Ok(Value::Array(values))
}

/// The entries that have these values.
fn read_list<N: Notation>(
    alloc: Global,
    values: &[Value],
) -> Result<Option<Seq<N::Entry>>, NoMemory>
    ensures { IfOk result (λ o. IsFound (map N.value_of) (All N.fits) (map view values.now) o) }
{
    let mut entries = Vec::with_capacity(alloc, values.len())?;
    for value in values {
        match N::read(alloc, value)? {
            Some(entry) => entries.push(entry)?,
            None => return Ok(None),
        }
    }
    Ok(Some(Seq::from_vec(entries)))
}
