//! A verdict of the quasilinear test as JSON.
ghost use Rattle.std.specs.Prelude.{◌≡◌, IfOk};
ghost use Rattle.serde_json.specs.View.{view};
ghost use Rattle.rp_json_tests.specs.Limits.{FitsQuasilinear};
ghost use Rattle.rp_json_tests.specs.QuasilinearValue.{quasilinear_value};
ghost use Rattle.rp_json_entries.specs.Reading.{IsRead};

use crate::tags::QuasilinearTag;
use rp_evidence::Quasi;
use rp_json_entries::named::Named;
use rp_json_entries::numbers::{Observation, Signed};
use rp_json_entries::objects::{put_entry, read_object};
use rp_num::{NoMemory, Seq};
use serde_json::{Map, Value};
use std::alloc::Global;

/// Makes the value of a verdict of the quasilinear test.
pub fn quasilinear_value(alloc: Global, evidence: &Quasi) -> Result<Value, NoMemory>
    ensures { IfOk result (λ v. view v ≡ quasilinear_value evidence.now) }
{
    match evidence {
        Quasi::Values(values) => {
            let mut members = Map::new(alloc);
            put_entry::<Named<QuasilinearTag>>(&mut members, alloc, "item", &())?;
            put_entry::<Seq<Signed>>(&mut members, alloc, "values", values)?;
            Ok(Value::Object(members))
        }
        Quasi::Cycle(cycle) => {
            let mut members = Map::new(alloc);
            put_entry::<Seq<Observation>>(&mut members, alloc, "cycle", cycle)?;
            put_entry::<Named<QuasilinearTag>>(&mut members, alloc, "item", &())?;
            Ok(Value::Object(members))
        }
    }
}

/// The verdict of the quasilinear test that has this value.
pub fn read_quasilinear(alloc: Global, value: &Value) -> Result<Option<Quasi>, NoMemory>
    ensures { IfOk result (λ o. IsRead quasilinear_value FitsQuasilinear (view value.now) o) }
{
    match read_object::<ValuesFields>(alloc, &["item", "values"], value)? {
        Some(((), (values, ()))) => {
            return Ok(Some(Quasi::Values(values)));
        }
        None => {}
    }
    match read_object::<CycleFields>(alloc, &["cycle", "item"], value)? {
        Some((cycle, ((), ()))) => Ok(Some(Quasi::Cycle(cycle))),
        None => Ok(None),
    }
}

/// Values after the item's name.
type ValuesFields = (Named<QuasilinearTag>, (Seq<Signed>, ()));

/// A cycle before the item's name.
type CycleFields = (Seq<Observation>, (Named<QuasilinearTag>, ()));
