//! The minimum cost of steps, as JSON.
ghost use Rattle.std.specs.Prelude.{◌≡◌, IfOk};
ghost use Rattle.serde_json.specs.View.{view};
ghost use Rattle.rp_json_indices.specs.Limits.{FitsSteps};
ghost use Rattle.rp_json_indices.specs.StepsValue.{steps_value};
ghost use Rattle.rp_json_entries.specs.Reading.{IsRead};

use crate::cycles::CycleObject;
use crate::tags::StepsTag;
use crate::whole::Whole;
use rp_fit::{StepsPart, WeightedWalk};
use rp_json_entries::named::Named;
use rp_json_entries::numbers::{Count, Natural, Observation};
use rp_json_entries::objects::{put_entry, read_object};
use rp_num::{NoMemory, Seq};
use serde_json::{Map, Value};
use std::alloc::Global;

/// Makes the value of the item: the minimum cost of steps.
pub fn steps_value(alloc: Global, part: &StepsPart) -> Result<Value, NoMemory>
    ensures { IfOk result (λ v. view v ≡ steps_value part.now) }
{
    let mut members = Map::new(alloc);
    put_entry::<Whole>(&mut members, alloc, "cost", &part.cost)?;
    put_entry::<Seq<CycleObject>>(&mut members, alloc, "cycles", &part.walks)?;
    put_entry::<Natural>(&mut members, alloc, "den", &part.den)?;
    put_entry::<Named<StepsTag>>(&mut members, alloc, "item", &())?;
    put_entry::<Seq<Count>>(&mut members, alloc, "ranks", &part.ranks)?;
    put_entry::<Seq<Seq<Observation>>>(&mut members, alloc, "taken", &part.taken)?;
    Ok(Value::Object(members))
}

/// The item that has this value.
pub fn read_steps(alloc: Global, value: &Value) -> Result<Option<StepsPart>, NoMemory>
    ensures { IfOk result (λ o. IsRead steps_value FitsSteps (view value.now) o) }
{
    match read_object::<Members>(alloc, &NAMES, value)? {
        Some(entries) => Ok(Some(steps(entries))),
        None => Ok(None),
    }
}

/// The names of the item's members, in the order of their bytes.
const NAMES: [&str; 6] = ["cost", "cycles", "den", "item", "ranks", "taken"];

/// The members, by these names.
type Members = (
    Whole,
    (
        Seq<CycleObject>,
        (
            Natural,
            (Named<StepsTag>, (Seq<Count>, (Seq<Seq<Observation>>, ()))),
        ),
    ),
);

/// What was found of the members.
type Found = (
    u128,
    (
        Seq<WeightedWalk>,
        (u64, ((), (Seq<u32>, (Seq<Seq<u32>>, ())))),
    ),
);

/// The item that was found.
fn steps(entries: Found) -> StepsPart
    ensures { result ≡ record {
      taken = entries.1.1.1.1.1.0;
      cost = entries.0;
      ranks = entries.1.1.1.1.0;
      den = entries.1.1.0;
      walks = entries.1.0;
    } }
{
    let (cost, (walks, (den, ((), (ranks, (taken, ())))))) = entries;
    StepsPart {
        taken,
        cost,
        ranks,
        den,
        walks,
    }
}
