//! A verdict of the homothetic test as JSON.
ghost use Rattle.std.specs.Prelude.{◌≡◌, IfOk};
ghost use Rattle.serde_json.specs.View.{view};
ghost use Rattle.rp_json_tests.specs.HomotheticValue.{homothetic_value, place_value};
ghost use Rattle.rp_json_tests.specs.Limits.{FitsHomothetic};
ghost use Rattle.rp_json_entries.specs.Reading.{FitsCount, FitsObservation, IsRead};

use crate::tags::HomotheticTag;
use rp_evidence::Homothetic;
use rp_json_entries::named::Named;
use rp_json_entries::notation::Notation;
use rp_json_entries::numbers::{Count, Fraction, Observation};
use rp_json_entries::objects::{put_entry, read_array, read_object};
use rp_num::{Frac, NoMemory, Seq};
use serde_json::{Map, Value};
use std::alloc::Global;

/// Makes the value of a verdict of the homothetic test.
pub fn homothetic_value(alloc: Global, evidence: &Homothetic) -> Result<Value, NoMemory>
    ensures { IfOk result (λ v. view v ≡ homothetic_value evidence.now) }
{
    match evidence {
        Homothetic::Values(values) => values_object(alloc, values),
        Homothetic::Cycle { start, steps } => cycle_object(alloc, steps, start),
        Homothetic::Withheld { steps, from, to } => withheld_object(alloc, *steps, *from, *to),
    }
}

/// Makes the object of values.
fn values_object(alloc: Global, values: &Seq<Frac>) -> Result<Value, NoMemory>
    ensures { IfOk result (λ v. view v ≡ homothetic_value (Homothetic.Values values.now)) }
{
    let mut members = Map::new(alloc);
    put_entry::<Named<HomotheticTag>>(&mut members, alloc, "item", &())?;
    put_entry::<Seq<Fraction>>(&mut members, alloc, "values", values)?;
    Ok(Value::Object(members))
}

/// Makes the object of a cycle and its start.
fn cycle_object(alloc: Global, steps: &Seq<u32>, start: &Frac) -> Result<Value, NoMemory>
    ensures { IfOk result (λ v. view v
        ≡ homothetic_value (Homothetic.Cycle start.now steps.now)) }
{
    let mut members = Map::new(alloc);
    put_entry::<Seq<Observation>>(&mut members, alloc, "cycle", steps)?;
    put_entry::<Named<HomotheticTag>>(&mut members, alloc, "item", &())?;
    put_entry::<Fraction>(&mut members, alloc, "start", start)?;
    Ok(Value::Object(members))
}

/// Makes the object of the place of a product that is too wide.
fn withheld_object(alloc: Global, steps: u32, from: u32, to: u32) -> Result<Value, NoMemory>
    ensures { IfOk result (λ v. view v ≡ homothetic_value (Homothetic.Withheld steps from to)) }
{
    let mut members = Map::new(alloc);
    put_entry::<Named<HomotheticTag>>(&mut members, alloc, "item", &())?;
    put_entry::<Place>(&mut members, alloc, "withheld", &(steps, from, to))?;
    Ok(Value::Object(members))
}

/// Makes the array of a number of steps and of the observations from and to which the next goes.
fn place_array(alloc: Global, steps: u32, from: u32, to: u32) -> Result<Value, NoMemory>
    ensures { IfOk result (λ v. view v ≡ place_value steps from to) }
{
    let mut place = Vec::with_capacity(alloc, 3)?;
    let steps = Count::value(alloc, &steps)?;
    place.push(steps)?;
    let from = Observation::value(alloc, &from)?;
    place.push(from)?;
    let to = Observation::value(alloc, &to)?;
    place.push(to)?;
    Ok(Value::Array(place))
}

/// The verdict of the homothetic test that has this value.
pub fn read_homothetic(alloc: Global, value: &Value) -> Result<Option<Homothetic>, NoMemory>
    ensures { IfOk result (λ o. IsRead homothetic_value FitsHomothetic (view value.now) o) }
{
    match read_object::<ValuesFields>(alloc, &["item", "values"], value)? {
        Some(((), (values, ()))) => {
            return Ok(Some(Homothetic::Values(values)));
        }
        None => {}
    }
    match read_object::<CycleFields>(alloc, &["cycle", "item", "start"], value)? {
        Some(entries) => return Ok(Some(cycle(entries))),
        None => {}
    }
    match read_object::<WideFields>(alloc, &["item", "withheld"], value)? {
        Some(((), ((steps, from, to), ()))) => Ok(Some(Homothetic::Withheld { steps, from, to })),
        None => Ok(None),
    }
}

/// Values after the item's name.
type ValuesFields = (Named<HomotheticTag>, (Seq<Fraction>, ()));

/// A cycle, the item's name and the start.
type CycleFields = (Seq<Observation>, (Named<HomotheticTag>, (Fraction, ())));

/// The place of a product that is too wide after the item's name.
type WideFields = (Named<HomotheticTag>, (Place, ()));

/// A number of steps, and the observations from and to which the next goes.
struct Place;

impl Notation for Place {
    type Entry = (u32, u32, u32);

    ghost value_of = { λ p. place_value p.0 p.1 p.2 };

    ghost fits = { λ p. FitsCount p.0 × FitsObservation p.1 × FitsObservation p.2 };

    fn value(alloc: Global, entry: &(u32, u32, u32)) -> Result<Value, NoMemory> {
        place_array(alloc, entry.0, entry.1, entry.2)
    }

    fn read(alloc: Global, value: &Value) -> Result<Option<(u32, u32, u32)>, NoMemory> {
        match read_array::<(Count, (Observation, (Observation, ())))>(alloc, value)? {
            Some((steps, (from, (to, ())))) => Ok(Some((steps, from, to))),
            None => Ok(None),
        }
    }
}

/// The cycle that was found, with its start.
fn cycle(entries: (Seq<u32>, ((), (Frac, ())))) -> Homothetic
    ensures { result ≡ Homothetic.Cycle entries.1.1.0 entries.0 }
{
    let (steps, ((), (start, ()))) = entries;
    Homothetic::Cycle { start, steps }
}
