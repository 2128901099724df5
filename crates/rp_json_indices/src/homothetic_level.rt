//! Bounds on the level of the homothetic test, as JSON.
ghost use Rattle.std.specs.Prelude.{◌≡◌, IfOk};
ghost use Rattle.serde_json.specs.View.{view};
ghost use Rattle.rp_json_indices.specs.Limits.{FitsHomotheticLevel};
ghost use Rattle.rp_json_indices.specs.HomotheticLevelValue.{homothetic_level_value};
ghost use Rattle.rp_json_entries.specs.Reading.{IsRead};

use crate::tags::HomotheticLevelTag;
use rp_fit::HomotheticLevelPart;
use rp_json_entries::named::Named;
use rp_json_entries::numbers::{Natural, Observation};
use rp_json_entries::objects::{put_entry, read_object};
use rp_num::{NoMemory, Seq};
use serde_json::{Map, Value};
use std::alloc::Global;

/// Makes the value of the item: bounds on the level of the homothetic test.
pub fn homothetic_level_value(alloc: Global, part: &HomotheticLevelPart) -> Result<Value, NoMemory>
    ensures { IfOk result (λ v. view v ≡ homothetic_level_value part.now) }
{
    let mut members = Map::new(alloc);
    put_entry::<Seq<Observation>>(&mut members, alloc, "cycle", &part.walk)?;
    put_entry::<Natural>(&mut members, alloc, "high", &part.high)?;
    put_entry::<Named<HomotheticLevelTag>>(&mut members, alloc, "item", &())?;
    put_entry::<Natural>(&mut members, alloc, "low", &part.low)?;
    put_entry::<Seq<Natural>>(&mut members, alloc, "values", &part.values)?;
    Ok(Value::Object(members))
}

/// The item that has this value.
pub fn read_homothetic_level(
    alloc: Global,
    value: &Value,
) -> Result<Option<HomotheticLevelPart>, NoMemory>
    ensures { IfOk result (λ o. IsRead homothetic_level_value FitsHomotheticLevel (view value.now) o) }
{
    match read_object::<Members>(alloc, &NAMES, value)? {
        Some(entries) => Ok(Some(homothetic_level(entries))),
        None => Ok(None),
    }
}

/// The names of the item's members, in the order of their bytes.
const NAMES: [&str; 5] = ["cycle", "high", "item", "low", "values"];

/// The members, by these names.
type Members = (
    Seq<Observation>,
    (
        Natural,
        (Named<HomotheticLevelTag>, (Natural, (Seq<Natural>, ()))),
    ),
);

/// What was found of the members.
type Found = (Seq<u32>, (u64, ((), (u64, (Seq<u64>, ())))));

/// The item that was found.
fn homothetic_level(entries: Found) -> HomotheticLevelPart
    ensures { result ≡ record {
      low = entries.1.1.1.0;
      high = entries.1.0;
      walk = entries.0;
      values = entries.1.1.1.1.0;
    } }
{
    let (walk, (high, ((), (low, (values, ()))))) = entries;
    HomotheticLevelPart {
        low,
        high,
        walk,
        values,
    }
}
