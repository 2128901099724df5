//! Numbers of pairs of observations that violate an axiom, as JSON.
ghost use Rattle.std.specs.Prelude.{◌≡◌, IfOk};
ghost use Rattle.serde_json.specs.View.{view};
ghost use Rattle.rp_json_indices.specs.Limits.{FitsViolations};
ghost use Rattle.rp_json_indices.specs.ViolationsValue.{violations_value};
ghost use Rattle.rp_json_entries.specs.Reading.{IsRead};

use crate::tags::ViolationsTag;
use rp_fit::ViolationsPart;
use rp_json_entries::named::Named;
use rp_json_entries::numbers::Price;
use rp_json_entries::objects::{put_entry, read_object};
use rp_num::NoMemory;
use serde_json::{Map, Value};
use std::alloc::Global;

/// Makes the value of the item: numbers of pairs of observations that violate an axiom.
pub fn violations_value(alloc: Global, part: &ViolationsPart) -> Result<Value, NoMemory>
    ensures { IfOk result (λ v. view v ≡ violations_value part.now) }
{
    let mut members = Map::new(alloc);
    put_entry::<Price>(&mut members, alloc, "garp", &part.garp)?;
    put_entry::<Named<ViolationsTag>>(&mut members, alloc, "item", &())?;
    put_entry::<Price>(&mut members, alloc, "observations", &part.observations)?;
    put_entry::<Price>(&mut members, alloc, "sarp", &part.sarp)?;
    put_entry::<Price>(&mut members, alloc, "warp", &part.warp)?;
    put_entry::<Price>(&mut members, alloc, "wgarp", &part.weak_garp)?;
    Ok(Value::Object(members))
}

/// The item that has this value.
pub fn read_violations(alloc: Global, value: &Value) -> Result<Option<ViolationsPart>, NoMemory>
    ensures { IfOk result (λ o. IsRead violations_value FitsViolations (view value.now) o) }
{
    match read_object::<Members>(alloc, &NAMES, value)? {
        Some(entries) => Ok(Some(violations(entries))),
        None => Ok(None),
    }
}

/// The names of the item's members, in the order of their bytes.
const NAMES: [&str; 6] = ["garp", "item", "observations", "sarp", "warp", "wgarp"];

/// The members, by these names.
type Members = (
    Price,
    (Named<ViolationsTag>, (Price, (Price, (Price, (Price, ()))))),
);

/// What was found of the members.
type Found = (u32, ((), (u32, (u32, (u32, (u32, ()))))));

/// The item that was found.
fn violations(entries: Found) -> ViolationsPart
    ensures { result ≡ record {
      garp = entries.0;
      weak_garp = entries.1.1.1.1.1.0;
      warp = entries.1.1.1.1.0;
      sarp = entries.1.1.1.0;
      observations = entries.1.1.0;
    } }
{
    let (garp, ((), (observations, (sarp, (warp, (weak_garp, ())))))) = entries;
    ViolationsPart {
        garp,
        weak_garp,
        warp,
        sarp,
        observations,
    }
}
