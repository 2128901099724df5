//! The most observations that are consistent, as JSON.
ghost use Rattle.std.specs.Prelude.{◌≡◌, IfOk};
ghost use Rattle.serde_json.specs.View.{view};
ghost use Rattle.rp_json_indices.specs.Limits.{FitsKept};
ghost use Rattle.rp_json_indices.specs.KeptValue.{kept_value};
ghost use Rattle.rp_json_entries.specs.Reading.{IsRead};

use crate::groups::GroupObject;
use crate::tags::KeptTag;
use rp_fit::{Group, KeptPart};
use rp_json_entries::named::Named;
use rp_json_entries::numbers::{Count, Observation, Price};
use rp_json_entries::objects::{put_entry, read_object};
use rp_num::{NoMemory, Seq};
use serde_json::{Map, Value};
use std::alloc::Global;

/// Makes the value of the item: the most observations that are consistent.
pub fn kept_value(alloc: Global, part: &KeptPart) -> Result<Value, NoMemory>
    ensures { IfOk result (λ v. view v ≡ kept_value part.now) }
{
    let mut members = Map::new(alloc);
    put_entry::<Price>(&mut members, alloc, "den", &part.den)?;
    put_entry::<Seq<GroupObject>>(&mut members, alloc, "groups", &part.groups)?;
    put_entry::<Named<KeptTag>>(&mut members, alloc, "item", &())?;
    put_entry::<Seq<Observation>>(&mut members, alloc, "kept", &part.kept)?;
    put_entry::<Price>(&mut members, alloc, "most", &part.most)?;
    put_entry::<Seq<Count>>(&mut members, alloc, "ranks", &part.ranks)?;
    Ok(Value::Object(members))
}

/// The item that has this value.
pub fn read_kept(alloc: Global, value: &Value) -> Result<Option<KeptPart>, NoMemory>
    ensures { IfOk result (λ o. IsRead kept_value FitsKept (view value.now) o) }
{
    match read_object::<Members>(alloc, &NAMES, value)? {
        Some(entries) => Ok(Some(kept(entries))),
        None => Ok(None),
    }
}

/// The names of the item's members, in the order of their bytes.
const NAMES: [&str; 6] = ["den", "groups", "item", "kept", "most", "ranks"];

/// The members, by these names.
type Members = (
    Price,
    (
        Seq<GroupObject>,
        (
            Named<KeptTag>,
            (Seq<Observation>, (Price, (Seq<Count>, ()))),
        ),
    ),
);

/// What was found of the members.
type Found = (u32, (Seq<Group>, ((), (Seq<u32>, (u32, (Seq<u32>, ()))))));

/// The item that was found.
fn kept(entries: Found) -> KeptPart
    ensures { result ≡ record {
      kept = entries.1.1.1.0;
      ranks = entries.1.1.1.1.1.0;
      den = entries.0;
      groups = entries.1.0;
      most = entries.1.1.1.1.0;
    } }
{
    let (den, (groups, ((), (kept, (most, (ranks, ())))))) = entries;
    KeptPart {
        kept,
        ranks,
        den,
        groups,
        most,
    }
}
