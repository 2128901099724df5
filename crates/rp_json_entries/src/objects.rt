//! Objects and arrays, read by the names of their members.
ghost use Rattle.std.specs.Prelude.{◌≡◌, List, IfOk, IfSome, None, OnOk, length};
ghost use Rattle.serde_json.specs.Data.{Data, array, object, put as with_member};
ghost use Rattle.serde_json.specs.View.{view, items_of, members_view};
ghost use Rattle.rp_json_entries.specs.InnerMembers.{AreNamed, named, texts, views};
ghost use Rattle.rp_json_entries.specs.Reading.{IsRead};

use crate::fields::Fields;
use crate::notation::Notation;
use rp_num::NoMemory;
use serde_json::{Map, Value, put};
use std::alloc::Global;

/// The entries of an object that has just the members of these names, in the order of their bytes.
pub fn read_object<F: Fields>(
    alloc: Global,
    names: &[&str],
    value: &Value,
) -> Result<Option<F::Entries>, NoMemory>
    requires { (x : F.Entries) → length (F.listed x) ≡ length names.now }
    ensures { IfOk result (λ o. IsRead (λ x. object (named (texts names.now) (F.listed x))) F.fit
        (view value.now) o) }
{
    let Some(members) = value.as_object() else {
        return Ok(None);
    };
    match values_of(alloc, names, members)? {
        Some(values) => F::read(alloc, values.as_slice()),
        None => Ok(None),
    }
}

/// The entries of an array that has just their values.
pub fn read_array<F: Fields>(alloc: Global, value: &Value) -> Result<Option<F::Entries>, NoMemory>
    ensures { IfOk result
        (λ o. IsRead (λ x. array (items_of (F.listed x))) F.fit (view value.now) o) }
{
    let Some(items) = value.as_array() else {
        return Ok(None);
    };
    let mut values = Vec::with_capacity(alloc, items.len())?;
    for item in items {
        values.push(item)?;
    }
    F::read(alloc, values.as_slice())
}

/// Puts in the value of an entry under a name.
pub fn put_entry<N: Notation>(
    members: &mut Map<String, Value>,
    alloc: Global,
    name: &str,
    entry: &N::Entry,
) -> Result<(), NoMemory>
    ensures { OnOk result (members_view members.new.entries
        ≡ with_member name.now (N.value_of entry.now) (members_view members.old.entries)) }
{
    let value = N::value(alloc, entry)?;
    put(members, alloc, name, value)?;
    Ok(())
}

/// The values of members of which these are all names.
pub fn values_of<'a>(
    alloc: Global,
    names: &[&str],
    members: &'a Map<String, Value>,
) -> Result<Option<Vec<&'a Value>>, NoMemory>
    ensures some { IfOk result (λ o. IfSome o (λ values.
        AreNamed (texts names.now) (members_view members.now.entries) (views values.items))) }
    ensures none { IfOk result (λ o. (o ≡ None) → (ds : List Data)
        → ¬ AreNamed (texts names.now) (members_view members.now.entries) ds) }
{
    let mut values = Vec::with_capacity(alloc, names.len())?;
    for (name, value) in members {
        let at = values.len();
        if at == names.len() || name.as_str() != names[at] {
            return Ok(None);
        }
        values.push(value)?;
    }
    Ok(if values.len() == names.len() {
        Some(values)
    } else {
        None
    })
}
