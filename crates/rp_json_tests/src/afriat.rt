//! Evidence by Afriat's theorem as JSON.
ghost use Rattle.std.specs.Prelude.{◌≡◌, IfOk};
ghost use Rattle.serde_json.specs.View.{view};
ghost use Rattle.rp_json_tests.specs.AfriatValue.{afriat_value};
ghost use Rattle.rp_json_tests.specs.Limits.{FitsAfriat};
ghost use Rattle.rp_json_entries.specs.Reading.{IsRead};

use crate::tags::AfriatTag;
use rp_evidence::{AfriatPart, Numbers};
use rp_json_entries::named::Named;
use rp_json_entries::numbers::{Natural, Observation, Signed};
use rp_json_entries::objects::{put_entry, read_object};
use rp_num::{NoMemory, Seq};
use serde_json::{Map, Value};
use std::alloc::Global;

/// Makes the value of evidence by Afriat's theorem.
pub fn afriat_value(alloc: Global, evidence: &AfriatPart) -> Result<Value, NoMemory>
    ensures { IfOk result (λ v. view v ≡ afriat_value evidence.now) }
{
    match evidence {
        AfriatPart::Model(numbers) => model_object(alloc, numbers),
        AfriatPart::NoModel(cycle) => cycle_object(alloc, cycle),
        AfriatPart::Wide { at } => withheld_object(alloc, *at),
    }
}

/// Makes the object of the numbers of a model.
fn model_object(alloc: Global, numbers: &Numbers) -> Result<Value, NoMemory>
    ensures { IfOk result (λ v. view v ≡ afriat_value (AfriatPart.Model numbers.now)) }
{
    let mut members = Map::new(alloc);
    put_entry::<Named<AfriatTag>>(&mut members, alloc, "item", &())?;
    put_entry::<Seq<Natural>>(&mut members, alloc, "lambda", &numbers.lambda)?;
    put_entry::<Seq<Signed>>(&mut members, alloc, "utility", &numbers.u)?;
    Ok(Value::Object(members))
}

/// Makes the object of a violation.
fn cycle_object(alloc: Global, cycle: &Seq<u32>) -> Result<Value, NoMemory>
    ensures { IfOk result (λ v. view v ≡ afriat_value (AfriatPart.NoModel cycle.now)) }
{
    let mut members = Map::new(alloc);
    put_entry::<Seq<Observation>>(&mut members, alloc, "cycle", cycle)?;
    put_entry::<Named<AfriatTag>>(&mut members, alloc, "item", &())?;
    Ok(Value::Object(members))
}

/// Makes the object of the place at which the numbers pass their width.
fn withheld_object(alloc: Global, at: u32) -> Result<Value, NoMemory>
    ensures { IfOk result (λ v. view v ≡ afriat_value (AfriatPart.Wide at)) }
{
    let mut members = Map::new(alloc);
    put_entry::<Named<AfriatTag>>(&mut members, alloc, "item", &())?;
    put_entry::<Observation>(&mut members, alloc, "withheld", &at)?;
    Ok(Value::Object(members))
}

/// The evidence by Afriat's theorem that has this value.
pub fn read_afriat(alloc: Global, value: &Value) -> Result<Option<AfriatPart>, NoMemory>
    ensures { IfOk result (λ o. IsRead afriat_value FitsAfriat (view value.now) o) }
{
    match read_object::<ModelFields>(alloc, &["item", "lambda", "utility"], value)? {
        Some(entries) => return Ok(Some(model(entries))),
        None => {}
    }
    match read_object::<CycleFields>(alloc, &["cycle", "item"], value)? {
        Some((cycle, ((), ()))) => {
            return Ok(Some(AfriatPart::NoModel(cycle)));
        }
        None => {}
    }
    match read_object::<WideFields>(alloc, &["item", "withheld"], value)? {
        Some(((), (at, ()))) => Ok(Some(AfriatPart::Wide { at })),
        None => Ok(None),
    }
}

/// The numbers of a model after the item's name.
type ModelFields = (Named<AfriatTag>, (Seq<Natural>, (Seq<Signed>, ())));

/// A cycle before the item's name.
type CycleFields = (Seq<Observation>, (Named<AfriatTag>, ()));

/// The place at which the numbers pass their width after the item's name.
type WideFields = (Named<AfriatTag>, (Observation, ()));

/// The model whose numbers were found.
fn model(entries: ((), (Seq<u64>, (Seq<i128>, ())))) -> AfriatPart
    ensures { result ≡ AfriatPart.Model (record { u = entries.1.1.0; lambda = entries.1.0 }) }
{
    let ((), (lambda, (u, ()))) = entries;
    AfriatPart::Model(Numbers { u, lambda })
}
