//! The observations at whose bundles the levels are, as JSON.
ghost use Rattle.std.specs.Prelude.{◌≡◌, IfOk};
ghost use Rattle.serde_json.specs.View.{view};
ghost use Rattle.rp_json_entries.specs.Reading.{FitObservations, FitsObservation, IsFound};
ghost use Rattle.rp_json_indices.specs.PlacesValue.{place_number, place_numbers, places_value};

use rp_json_entries::notation::Notation;
use rp_json_entries::numbers::Count;
use rp_num::{NoMemory, Seq};
use serde_json::Value;
use std::alloc::Global;

/// For each observation the one whose bundle gives its level, counted from 1: 0 for the level 1, which is its own.
pub struct Places;

impl Notation for Places {
    type Entry = Seq<u32>;

    ghost value_of = { places_value };

    ghost fits = { FitObservations };

    fn value(alloc: Global, entry: &Seq<u32>) -> Result<Value, NoMemory> {
        places_array(alloc, entry.as_slice())
    }

    fn read(alloc: Global, value: &Value) -> Result<Option<Seq<u32>>, NoMemory> {
        match Seq::<Count>::read(alloc, value)? {
            Some(numbers) => places_of(alloc, numbers.as_slice()),
            None => Ok(None),
        }
    }
}

/// Makes the array of the numbers of these observations.
fn places_array(alloc: Global, at: &[u32]) -> Result<Value, NoMemory>
    ensures { IfOk result (λ v. view v ≡ places_value at.now) }
{
    let mut values = Vec::with_capacity(alloc, at.len())?;
    for (s, t) in at.iter().enumerate() {
        values.push(Value::from(place_number(s, *t)))?;
    }
    Ok(Value::Array(values))
}

/// The number of observation t at s: 0 where they are the same.
fn place_number(s: usize, t: u32) -> u64
    ensures { result ≡ place_number s t }
{
    if t as usize == s { 0 } else { u64::from(t) + 1 }
}

/// The observations that have these numbers.
fn places_of(alloc: Global, numbers: &[u32]) -> Result<Option<Seq<u32>>, NoMemory>
    ensures { IfOk result (λ o. IsFound (place_numbers 0) FitObservations numbers.now o) }
{
    let mut at = Vec::with_capacity(alloc, numbers.len())?;
    for (s, number) in numbers.iter().enumerate() {
        match place_of(s, *number) {
            Some(t) => at.push(t)?,
            None => return Ok(None),
        }
    }
    Ok(Some(Seq::from_vec(at)))
}

/// The observation that has this number at s.
fn place_of(s: usize, number: u32) -> Option<u32>
    ensures { IsFound (place_number s) FitsObservation number result }
{
    if number == 0 {
        return if s < u32::MAX as usize {
            Some(s as u32)
        } else {
            None
        };
    }
    let t = number - 1;
    if t as usize == s { None } else { Some(t) }
}
