//! The maximum money pump ratio, as JSON.
ghost use Rattle.std.specs.Prelude.{◌≡◌, IfOk};
ghost use Rattle.serde_json.specs.View.{view};
ghost use Rattle.rp_json_indices.specs.Limits.{FitsPump};
ghost use Rattle.rp_json_indices.specs.PumpValue.{pump_value};
ghost use Rattle.rp_json_entries.specs.Reading.{IsRead};

use crate::tags::PumpTag;
use rp_fit::PumpPart;
use rp_json_entries::named::Named;
use rp_json_entries::numbers::{Natural, Observation, Signed};
use rp_json_entries::objects::{put_entry, read_object};
use rp_num::{NoMemory, Seq};
use serde_json::{Map, Value};
use std::alloc::Global;

/// Makes the value of the item: the maximum money pump ratio.
pub fn pump_value(alloc: Global, part: &PumpPart) -> Result<Value, NoMemory>
    ensures { IfOk result (λ v. view v ≡ pump_value part.now) }
{
    let mut members = Map::new(alloc);
    put_entry::<Seq<Observation>>(&mut members, alloc, "cycle", &part.cycle)?;
    put_entry::<Natural>(&mut members, alloc, "den", &part.den)?;
    put_entry::<Named<PumpTag>>(&mut members, alloc, "item", &())?;
    put_entry::<Natural>(&mut members, alloc, "num", &part.num)?;
    put_entry::<Seq<Signed>>(&mut members, alloc, "values", &part.values)?;
    Ok(Value::Object(members))
}

/// The item that has this value.
pub fn read_pump(alloc: Global, value: &Value) -> Result<Option<PumpPart>, NoMemory>
    ensures { IfOk result (λ o. IsRead pump_value FitsPump (view value.now) o) }
{
    match read_object::<Members>(alloc, &NAMES, value)? {
        Some(entries) => Ok(Some(pump(entries))),
        None => Ok(None),
    }
}

/// The names of the item's members, in the order of their bytes.
const NAMES: [&str; 5] = ["cycle", "den", "item", "num", "values"];

/// The members, by these names.
type Members = (
    Seq<Observation>,
    (Natural, (Named<PumpTag>, (Natural, (Seq<Signed>, ())))),
);

/// What was found of the members.
type Found = (Seq<u32>, (u64, ((), (u64, (Seq<i128>, ())))));

/// The item that was found.
fn pump(entries: Found) -> PumpPart
    ensures { result ≡ record {
      num = entries.1.1.1.0;
      den = entries.1.0;
      cycle = entries.0;
      values = entries.1.1.1.1.0;
    } }
{
    let (cycle, (den, ((), (num, (values, ()))))) = entries;
    PumpPart {
        num,
        den,
        cycle,
        values,
    }
}
