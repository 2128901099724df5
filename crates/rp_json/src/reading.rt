//! What bytes denote as a certificate.
ghost use Rattle.std.specs.Prelude.{◌≡◌, ◌≢◌, ℕ, List, [], IfOk, MatchOption, Some, map};
ghost use Rattle.rp_evidence.specs.declared.certificate.Kind.{Kind};
ghost use Rattle.serde_json.specs.Data.{Data, array, number, object, string, unsigned};
ghost use Rattle.serde_json.specs.Find.{get};
ghost use Rattle.serde_json.specs.View.{items_of, members_view, view};
ghost use Rattle.rp_json.specs.Denoted.{IsDenoted, IsDenotedBy, IsTop};
ghost use Rattle.rp_json.specs.InnerItems.{AreItemsBy, AreLevelsBy, AreThirdBy};
ghost use Rattle.rp_json_entries.specs.InnerMembers.{views};

use crate::certificate::kind_name;
use crate::fault::JsonFault;
use crate::items::read_item;
use crate::levels::read_some_levels;
use rp_evidence::{Certificate, Item, Kind};
use rp_json_entries::objects::values_of;
use rp_num::{NoMemory, Seq};
use serde_json::{Map, Value};
use std::alloc::Global;

/// The certificate of a kind that the bytes denote, in any spelling of its JSON value.
pub fn read(alloc: Global, bytes: &[u8], kind: Kind) -> Result<Certificate, JsonFault>
    ensures { IsDenoted kind bytes.now result }
{
    match Value::from_slice(alloc, bytes) {
        Ok(value) => read_certificate(alloc, &value, kind),
        Err(error) => Err(if error.is_memory() {
            JsonFault::NoMemory
        } else {
            JsonFault::NotJson
        }),
    }
}

/// The certificate of a kind that a value denotes.
///
/// # Errors
/// `BadVersion` if the version is neither 1 nor 2; `BadShape` with the number, from 1, of the first item that is none, or
/// 0 if the whole is not such a certificate; `NoMemory` if memory runs out.
pub fn read_certificate(alloc: Global, value: &Value, kind: Kind) -> Result<Certificate, JsonFault>
    ensures { IsDenotedBy kind (view value.now) result }
{
    let Some((version, values)) = top_of(value, kind) else {
        return Err(JsonFault::BadShape { item: 0 });
    };
    if version != 1 && version != 2 {
        return Err(JsonFault::BadVersion);
    }
    let version = version as u32;
    match read_levels(alloc, value, kind, version)? {
        Some(levels) => {
            let items = Seq::from_vec(read_items(alloc, values, kind)?);
            Ok(Certificate {
                kind,
                version,
                levels,
                items,
            })
        }
        None => Err(JsonFault::BadShape { item: 0 }),
    }
}

/// The version of a certificate of a kind, and the values of its items, whatever else stands there.
fn top_of<'a>(value: &'a Value, kind: Kind) -> Option<(u64, &'a [Value])>
    ensures { MatchOption result
        ((version : ℕ) (items : List Data) → ¬ IsTop kind version items (view value.now))
        (λ top. IsTop kind top.0 (map view top.1.now) (view value.now)) }
{
    let items = array_in(value, "items")?;
    let text = text_in(value, "kind")?;
    let version = number_in(value, "version")?;
    if text == kind_name(kind) {
        Some((version, items))
    } else {
        None
    }
}

/// The values of the array that is the member of this name.
fn array_in<'a>(value: &'a Value, name: &str) -> Option<&'a [Value]>
    ensures { MatchOption result
        ((values : List Data) → get name.now (view value.now) ≢ Some (array (items_of values)))
        (λ values. get name.now (view value.now) ≡ Some (array (items_of (map view values.now)))) }
{
    match value.get(name)?.as_array() {
        Some(values) => Some(values.as_slice()),
        None => None,
    }
}

/// The text that is the member of this name.
fn text_in<'a>(value: &'a Value, name: &str) -> Option<&'a str>
    ensures { MatchOption result
        ((text : List ℕ) → get name.now (view value.now) ≢ Some (string text))
        (λ text. get name.now (view value.now) ≡ Some (string text.now)) }
{
    value.get(name)?.as_str()
}

/// The whole number that is the member of this name.
fn number_in(value: &Value, name: &str) -> Option<u64>
    ensures { MatchOption result
        ((count : ℕ) → get name.now (view value.now) ≢ Some (number (unsigned count)))
        (λ count. get name.now (view value.now) ≡ Some (number (unsigned count))) }
{
    value.get(name)?.as_u64()
}

/// The levels of a certificate of a kind and of this version, where its members are those of the version.
fn read_levels(
    alloc: Global,
    value: &Value,
    kind: Kind,
    version: u32,
) -> Result<Option<Seq<u32>>, NoMemory>
    ensures { IfOk result (λ o. AreLevelsBy kind version (view value.now) o) }
{
    let Some(members) = value.as_object() else {
        return Ok(None);
    };
    match (version, kind) {
        (1, _) => read_no_levels(alloc, members),
        (2, Kind::Table) => read_own_levels(alloc, members),
        _ => Ok(None),
    }
}

/// No levels, where these are the members of a certificate without them.
fn read_no_levels(alloc: Global, members: &Map<String, Value>) -> Result<Option<Seq<u32>>, NoMemory>
    ensures { (kind : Kind) → IfOk result
        (λ o. AreLevelsBy kind 1 (object (members_view members.now.entries)) o) }
{
    match values_of(alloc, &["items", "kind", "version"], members)? {
        Some(_) => Ok(Some(no_levels(alloc))),
        None => Ok(None),
    }
}

/// No levels.
fn no_levels(alloc: Global) -> Seq<u32>
    ensures { result ≡ [] }
{
    Seq::from_vec(Vec::new(alloc))
}

/// The levels of observations, where these are the members of a certificate with them.
fn read_own_levels(
    alloc: Global,
    members: &Map<String, Value>,
) -> Result<Option<Seq<u32>>, NoMemory>
    ensures { IfOk result
        (λ o. AreLevelsBy Kind.Table 2 (object (members_view members.now.entries)) o) }
{
    match values_of(alloc, &["items", "kind", "levels", "version"], members)? {
        Some(values) => levels_among(alloc, values.as_slice()),
        None => Ok(None),
    }
}

/// The levels that are the third of four values.
fn levels_among(alloc: Global, values: &[&Value]) -> Result<Option<Seq<u32>>, NoMemory>
    ensures { IfOk result (λ o. AreThirdBy (views values.now) o) }
{
    let [_, _, levels, _] = values else {
        return Ok(None);
    };
    read_some_levels(alloc, levels)
}

/// The items of a kind that have these values, or the first value that is none.
fn read_items(alloc: Global, values: &[Value], kind: Kind) -> Result<Vec<Item>, JsonFault>
    ensures { AreItemsBy kind (map view values.now) result }
{
    let mut items = Vec::with_capacity(alloc, values.len())?;
    let mut number: u32 = 0;
    for value in values {
        number = number.saturating_add(1);
        match read_item(alloc, kind, value)? {
            Some(item) => items.push(item)?,
            None => return Err(JsonFault::BadShape { item: number }),
        }
    }
    Ok(items)
}
