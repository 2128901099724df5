//! A verdict on the generalized axiom as JSON.
ghost use Rattle.std.specs.Prelude.{◌≡◌, IfOk};
ghost use Rattle.serde_json.specs.View.{view};
ghost use Rattle.rp_json_tests.specs.GarpValue.{garp_value};
ghost use Rattle.rp_json_tests.specs.Limits.{FitsGarp};
ghost use Rattle.rp_json_entries.specs.Reading.{IsRead};

use crate::tags::GarpTag;
use rp_evidence::Garp;
use rp_json_entries::named::Named;
use rp_json_entries::numbers::{Count, Observation};
use rp_json_entries::objects::{put_entry, read_object};
use rp_num::{NoMemory, Seq};
use serde_json::{Map, Value};
use std::alloc::Global;

/// Makes the value of a verdict on the generalized axiom of revealed preference.
pub fn garp_value(alloc: Global, evidence: &Garp) -> Result<Value, NoMemory>
    ensures { IfOk result (λ v. view v ≡ garp_value evidence.now) }
{
    match evidence {
        Garp::Ranks(ranks) => {
            let mut members = Map::new(alloc);
            put_entry::<Named<GarpTag>>(&mut members, alloc, "item", &())?;
            put_entry::<Seq<Count>>(&mut members, alloc, "ranks", ranks)?;
            Ok(Value::Object(members))
        }
        Garp::Cycle(cycle) => {
            let mut members = Map::new(alloc);
            put_entry::<Seq<Observation>>(&mut members, alloc, "cycle", cycle)?;
            put_entry::<Named<GarpTag>>(&mut members, alloc, "item", &())?;
            Ok(Value::Object(members))
        }
    }
}

/// The verdict on the generalized axiom that has this value.
pub fn read_garp(alloc: Global, value: &Value) -> Result<Option<Garp>, NoMemory>
    ensures { IfOk result (λ o. IsRead garp_value FitsGarp (view value.now) o) }
{
    match read_object::<RanksFields>(alloc, &["item", "ranks"], value)? {
        Some(((), (ranks, ()))) => {
            return Ok(Some(Garp::Ranks(ranks)));
        }
        None => {}
    }
    match read_object::<CycleFields>(alloc, &["cycle", "item"], value)? {
        Some((cycle, ((), ()))) => Ok(Some(Garp::Cycle(cycle))),
        None => Ok(None),
    }
}

/// Ranks after the item's name.
type RanksFields = (Named<GarpTag>, (Seq<Count>, ()));

/// A cycle before the item's name.
type CycleFields = (Seq<Observation>, (Named<GarpTag>, ()));
