//! What bytes denote as a certificate on goodness of fit.
ghost use Rattle.std.specs.Prelude.{◌≡◌, ◌≢◌, ℕ, List, IfOk, MatchOption, Some, codes, map};
ghost use Rattle.serde_json.specs.Data.{Data, array, number, object, string, unsigned};
ghost use Rattle.serde_json.specs.Find.{get};
ghost use Rattle.serde_json.specs.View.{items_of, members_view, view};
ghost use Rattle.rp_json_fit.specs.FitDenoted.{IsFitDenoted, IsFitDenotedBy, IsFitTop};
ghost use Rattle.rp_json_fit.specs.InnerFitItems.{AreAllMembers, AreFitItemsBy};

use crate::items::read_item;
use rp_fit::FitItem;
use rp_json::JsonFault;
use rp_json_entries::objects::values_of;
use rp_num::{NoMemory, Seq};
use serde_json::{Map, Value};
use std::alloc::Global;

/// The items of the certificate on goodness of fit that the bytes denote, in any spelling of its JSON value.
///
/// # Errors
/// `NotJson` if the bytes are not JSON; `BadVersion` if the version is not 1; `BadShape` with the number, from 1, of the
/// first item that is none, or 0 if the whole is not such a certificate; `NoMemory` if memory runs out.
pub fn read_fit(alloc: Global, bytes: &[u8]) -> Result<Seq<FitItem>, JsonFault>
    ensures { IsFitDenoted bytes.now result }
{
    match Value::from_slice(alloc, bytes) {
        Ok(value) => read_fit_value(alloc, &value),
        Err(error) => Err(if error.is_memory() {
            JsonFault::NoMemory
        } else {
            JsonFault::NotJson
        }),
    }
}

/// The items of the certificate on goodness of fit that a value denotes.
///
/// # Errors
/// `BadVersion` if the version is not 1; `BadShape` with the number, from 1, of the first item that is none, or 0 if the
/// whole is not such a certificate; `NoMemory` if memory runs out.
pub fn read_fit_value(alloc: Global, value: &Value) -> Result<Seq<FitItem>, JsonFault>
    ensures { IsFitDenotedBy (view value.now) result }
{
    let Some((version, values)) = top_of(value) else {
        return Err(JsonFault::BadShape { item: 0 });
    };
    if version != 1 {
        return Err(JsonFault::BadVersion);
    }
    if !has_its_members(alloc, value)? {
        return Err(JsonFault::BadShape { item: 0 });
    }
    Ok(Seq::from_vec(read_items(alloc, values)?))
}

/// The version of a certificate, and the values of its items, whatever else stands there.
fn top_of(value: &Value) -> Option<(u64, &[Value])>
    ensures { MatchOption result
        ((version : ℕ) (items : List Data) → ¬ IsFitTop version items (view value.now))
        (λ top. IsFitTop top.0 (map view top.1.now) (view value.now)) }
{
    let items = array_in(value, "items")?;
    let kind = text_in(value, "kind")?;
    let version = number_in(value, "version")?;
    if kind == "fit" {
        Some((version, items))
    } else {
        None
    }
}

/// The values of the array that is the member of this name.
fn array_in<'a>(value: &'a Value, name: &str) -> Option<&'a [Value]>
    ensures { MatchOption result
        ((values : List Data) → get name.now (view value.now) ≢ Some (array (items_of values)))
        (λ values. get name.now (view value.now) ≡ Some (array (items_of (map view values.now)))) }
{
    match value.get(name)?.as_array() {
        Some(values) => Some(values.as_slice()),
        None => None,
    }
}

/// The text that is the member of this name.
fn text_in<'a>(value: &'a Value, name: &str) -> Option<&'a str>
    ensures { MatchOption result
        ((text : List ℕ) → get name.now (view value.now) ≢ Some (string text))
        (λ text. get name.now (view value.now) ≡ Some (string text.now)) }
{
    value.get(name)?.as_str()
}

/// The integer that is the member of this name.
fn number_in(value: &Value, name: &str) -> Option<u64>
    ensures { MatchOption result
        ((count : ℕ) → get name.now (view value.now) ≢ Some (number (unsigned count)))
        (λ count. get name.now (view value.now) ≡ Some (number (unsigned count))) }
{
    value.get(name)?.as_u64()
}

/// Whether the members of a value are those of a certificate.
fn has_its_members(alloc: Global, value: &Value) -> Result<bool, NoMemory>
    ensures { IfOk result (λ yes. AreAllMembers (view value.now) yes) }
{
    match value.as_object() {
        Some(members) => are_its_members(alloc, members),
        None => Ok(false),
    }
}

/// Whether these are the members of a certificate.
fn are_its_members(alloc: Global, members: &Map<String, Value>) -> Result<bool, NoMemory>
    ensures { IfOk result
        (λ yes. AreAllMembers (object (members_view members.now.entries)) yes) }
{
    match values_of(alloc, &["items", "kind", "version"], members)? {
        Some(_) => Ok(true),
        None => Ok(false),
    }
}

/// The items that have these values, or the first value that is none.
fn read_items(alloc: Global, values: &[Value]) -> Result<Vec<FitItem>, JsonFault>
    ensures { AreFitItemsBy (map view values.now) result }
{
    let mut items = Vec::with_capacity(alloc, values.len())?;
    let mut number: u32 = 0;
    for value in values {
        number = number.saturating_add(1);
        match read_item(alloc, value)? {
            Some(item) => items.push(item)?,
            None => return Err(JsonFault::BadShape { item: number }),
        }
    }
    Ok(items)
}
