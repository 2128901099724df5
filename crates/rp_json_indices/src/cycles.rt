//! Closed walks with weights as JSON.
ghost use Rattle.std.specs.Prelude.{◌≡◌};
ghost use Rattle.rp_json_indices.specs.CycleValue.{cycle_value};
ghost use Rattle.rp_json_indices.specs.Limits.{FitsCycle};

use rp_fit::WeightedWalk;
use rp_json_entries::notation::Notation;
use rp_json_entries::numbers::{Natural, Observation};
use rp_json_entries::objects::{put_entry, read_object};
use rp_num::{NoMemory, Seq};
use serde_json::{Map, Value};
use std::alloc::Global;

/// A closed walk with its weight, as an object.
pub struct CycleObject;

impl Notation for CycleObject {
    type Entry = WeightedWalk;

    ghost value_of = { cycle_value };

    ghost fits = { FitsCycle };

    fn value(alloc: Global, entry: &WeightedWalk) -> Result<Value, NoMemory> {
        let mut members = Map::new(alloc);
        put_entry::<Seq<Observation>>(&mut members, alloc, "cycle", &entry.walk)?;
        put_entry::<Natural>(&mut members, alloc, "weight", &entry.weight)?;
        Ok(Value::Object(members))
    }

    fn read(alloc: Global, value: &Value) -> Result<Option<WeightedWalk>, NoMemory> {
        match read_object::<(Seq<Observation>, (Natural, ()))>(
            alloc,
            &["cycle", "weight"],
            value,
        )? {
            Some(entries) => Ok(Some(cycle(entries))),
            None => Ok(None),
        }
    }
}

/// The walk that was found, with its weight.
fn cycle(entries: (Seq<u32>, (u64, ()))) -> WeightedWalk
    ensures { result ≡ record { weight = entries.1.0; walk = entries.0 } }
{
    let (walk, (weight, ())) = entries;
    WeightedWalk { weight, walk }
}
