//! Levels of the observations' own, as JSON.
ghost use Rattle.std.specs.Prelude.{◌≡◌, IfOk};
ghost use Rattle.serde_json.specs.View.{view};
ghost use Rattle.rp_json_indices.specs.Limits.{FitsLevels};
ghost use Rattle.rp_json_indices.specs.LevelsValue.{levels_value};
ghost use Rattle.rp_json_entries.specs.Reading.{IsRead};

use crate::cycles::CycleObject;
use crate::measure::Measure;
use crate::places::Places;
use crate::tags::LevelsTag;
use rp_fit::{Lack, LevelsPart, WeightedWalk};
use rp_json_entries::named::Named;
use rp_json_entries::numbers::{Count, Natural};
use rp_json_entries::objects::{put_entry, read_object};
use rp_num::{NoMemory, Seq};
use serde_json::{Map, Value};
use std::alloc::Global;

/// Makes the value of the item: levels of the observations' own.
pub fn levels_value(alloc: Global, part: &LevelsPart) -> Result<Value, NoMemory>
    ensures { IfOk result (λ v. view v ≡ levels_value part.now) }
{
    let mut members = Map::new(alloc);
    put_entry::<Places>(&mut members, alloc, "at", &part.at)?;
    put_entry::<Seq<CycleObject>>(&mut members, alloc, "cycles", &part.walks)?;
    put_entry::<Natural>(&mut members, alloc, "den", &part.den)?;
    put_entry::<Named<LevelsTag>>(&mut members, alloc, "item", &())?;
    put_entry::<Measure>(&mut members, alloc, "measure", &part.lack)?;
    put_entry::<Seq<Count>>(&mut members, alloc, "ranks", &part.ranks)?;
    Ok(Value::Object(members))
}

/// The item that has this value.
pub fn read_levels(alloc: Global, value: &Value) -> Result<Option<LevelsPart>, NoMemory>
    ensures { IfOk result (λ o. IsRead levels_value FitsLevels (view value.now) o) }
{
    match read_object::<Members>(alloc, &NAMES, value)? {
        Some(entries) => Ok(Some(levels(entries))),
        None => Ok(None),
    }
}

/// The names of the item's members, in the order of their bytes.
const NAMES: [&str; 6] = ["at", "cycles", "den", "item", "measure", "ranks"];

/// The members, by these names.
type Members = (
    Places,
    (
        Seq<CycleObject>,
        (Natural, (Named<LevelsTag>, (Measure, (Seq<Count>, ())))),
    ),
);

/// What was found of the members.
type Found = (
    Seq<u32>,
    (Seq<WeightedWalk>, (u64, ((), (Lack, (Seq<u32>, ()))))),
);

/// The item that was found.
fn levels(entries: Found) -> LevelsPart
    ensures { result ≡ record {
      lack = entries.1.1.1.1.0;
      at = entries.0;
      ranks = entries.1.1.1.1.1.0;
      den = entries.1.1.0;
      walks = entries.1.0;
    } }
{
    let (at, (walks, (den, ((), (lack, (ranks, ())))))) = entries;
    LevelsPart {
        lack,
        at,
        ranks,
        den,
        walks,
    }
}
