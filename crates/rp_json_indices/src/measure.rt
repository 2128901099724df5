//! The measure of levels as JSON.
ghost use Rattle.std.specs.Prelude.{⊤};
ghost use Rattle.rp_json_indices.specs.MeasureValue.{measure_value};

use crate::tags::{MeanTag, SquaresTag};
use rp_fit::Lack;
use rp_json_entries::named::Named;
use rp_json_entries::notation::Notation;
use rp_num::NoMemory;
use serde_json::Value;
use std::alloc::Global;

/// The name of what levels lack of 1: the mean, or the mean of the squares.
pub struct Measure;

impl Notation for Measure {
    type Entry = Lack;

    ghost value_of = { measure_value };

    ghost fits = { λ _. ⊤ };

    fn value(alloc: Global, entry: &Lack) -> Result<Value, NoMemory> {
        match entry {
            Lack::Mean => Named::<MeanTag>::value(alloc, &()),
            Lack::Squares => Named::<SquaresTag>::value(alloc, &()),
        }
    }

    fn read(alloc: Global, value: &Value) -> Result<Option<Lack>, NoMemory> {
        match Named::<MeanTag>::read(alloc, value)? {
            Some(()) => return Ok(Some(Lack::Mean)),
            None => {}
        }
        match Named::<SquaresTag>::read(alloc, value)? {
            Some(()) => Ok(Some(Lack::Squares)),
            None => Ok(None),
        }
    }
}
