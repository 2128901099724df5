//! The level of the quasilinear test, as JSON.
ghost use Rattle.std.specs.Prelude.{◌≡◌, IfOk};
ghost use Rattle.serde_json.specs.View.{view};
ghost use Rattle.rp_json_indices.specs.Limits.{FitsQuasilinearLevel};
ghost use Rattle.rp_json_indices.specs.QuasilinearLevelValue.{quasilinear_level_value};
ghost use Rattle.rp_json_entries.specs.Reading.{IsRead};

use crate::tags::QuasilinearLevelTag;
use rp_fit::QuasilinearLevelPart;
use rp_json_entries::named::Named;
use rp_json_entries::numbers::{Natural, Observation, Signed};
use rp_json_entries::objects::{put_entry, read_object};
use rp_num::{NoMemory, Seq};
use serde_json::{Map, Value};
use std::alloc::Global;

/// Makes the value of the item: the level of the quasilinear test.
pub fn quasilinear_level_value(
    alloc: Global,
    part: &QuasilinearLevelPart,
) -> Result<Value, NoMemory>
    ensures { IfOk result (λ v. view v ≡ quasilinear_level_value part.now) }
{
    let mut members = Map::new(alloc);
    put_entry::<Seq<Observation>>(&mut members, alloc, "cycle", &part.walk)?;
    put_entry::<Natural>(&mut members, alloc, "den", &part.den)?;
    put_entry::<Named<QuasilinearLevelTag>>(&mut members, alloc, "item", &())?;
    put_entry::<Natural>(&mut members, alloc, "num", &part.num)?;
    put_entry::<Seq<Signed>>(&mut members, alloc, "values", &part.values)?;
    Ok(Value::Object(members))
}

/// The item that has this value.
pub fn read_quasilinear_level(
    alloc: Global,
    value: &Value,
) -> Result<Option<QuasilinearLevelPart>, NoMemory>
    ensures { IfOk result (λ o. IsRead quasilinear_level_value FitsQuasilinearLevel (view value.now) o) }
{
    match read_object::<Members>(alloc, &NAMES, value)? {
        Some(entries) => Ok(Some(quasilinear_level(entries))),
        None => Ok(None),
    }
}

/// The names of the item's members, in the order of their bytes.
const NAMES: [&str; 5] = ["cycle", "den", "item", "num", "values"];

/// The members, by these names.
type Members = (
    Seq<Observation>,
    (
        Natural,
        (Named<QuasilinearLevelTag>, (Natural, (Seq<Signed>, ()))),
    ),
);

/// What was found of the members.
type Found = (Seq<u32>, (u64, ((), (u64, (Seq<i128>, ())))));

/// The item that was found.
fn quasilinear_level(entries: Found) -> QuasilinearLevelPart
    ensures { result ≡ record {
      num = entries.1.1.1.0;
      den = entries.1.0;
      walk = entries.0;
      values = entries.1.1.1.1.0;
    } }
{
    let (walk, (den, ((), (num, (values, ()))))) = entries;
    QuasilinearLevelPart {
        num,
        den,
        walk,
        values,
    }
}
