//! Groups of observations with weights as JSON.
ghost use Rattle.std.specs.Prelude.{◌≡◌};
ghost use Rattle.rp_fit.specs.declared.kept.GroupKind.{GroupKind};
ghost use Rattle.rp_json_indices.specs.GroupValue.{group_value};
ghost use Rattle.rp_json_indices.specs.Limits.{FitsGroup};

use rp_fit::{Group, GroupKind};
use rp_json_entries::notation::Notation;
use rp_json_entries::numbers::{Observation, Price};
use rp_json_entries::objects::{put_entry, read_object};
use rp_num::{NoMemory, Seq};
use serde_json::{Map, Value};
use std::alloc::Global;

/// A group of observations with its weight, as an object whose member has the name of the group's kind.
pub struct GroupObject;

impl Notation for GroupObject {
    type Entry = Group;

    ghost value_of = { group_value };

    ghost fits = { FitsGroup };

    fn value(alloc: Global, entry: &Group) -> Result<Value, NoMemory> {
        let name = match entry.kind {
            GroupKind::Pairs => "pairs",
            GroupKind::Cycle => "cycle",
        };
        let mut members = Map::new(alloc);
        put_entry::<Seq<Observation>>(&mut members, alloc, name, &entry.members)?;
        put_entry::<Price>(&mut members, alloc, "weight", &entry.weight)?;
        Ok(Value::Object(members))
    }

    fn read(alloc: Global, value: &Value) -> Result<Option<Group>, NoMemory> {
        match read_object::<Members>(alloc, &["pairs", "weight"], value)? {
            Some(entries) => return Ok(Some(pairs(entries))),
            None => {}
        }
        match read_object::<Members>(alloc, &["cycle", "weight"], value)? {
            Some(entries) => Ok(Some(cycle(entries))),
            None => Ok(None),
        }
    }
}

/// The group's observations, and its weight.
type Members = (Seq<Observation>, (Price, ()));

/// The observations that were found, of which each two contradict each other.
fn pairs(entries: (Seq<u32>, (u32, ()))) -> Group
    ensures { result ≡ record { weight = entries.1.0; kind = GroupKind.Pairs; members = entries.0 } }
{
    let (members, (weight, ())) = entries;
    Group {
        weight,
        kind: GroupKind::Pairs,
        members,
    }
}

/// The violation that was found.
fn cycle(entries: (Seq<u32>, (u32, ()))) -> Group
    ensures { result ≡ record { weight = entries.1.0; kind = GroupKind.Cycle; members = entries.0 } }
{
    let (members, (weight, ())) = entries;
    Group {
        weight,
        kind: GroupKind::Cycle,
        members,
    }
}
