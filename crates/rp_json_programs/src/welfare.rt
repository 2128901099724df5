//! Bounds on the money metric as JSON.
ghost use Rattle.std.specs.Prelude.{◌≡◌, IfOk, codes};
ghost use Rattle.serde_json.specs.Data.{Data, object, string, member, no_members};
ghost use Rattle.serde_json.specs.View.{view, members_view};
ghost use Rattle.rp_json_programs.specs.BoundValue.{bound_value};
ghost use Rattle.rp_json_programs.specs.DemandValue.{welfare_value};
ghost use Rattle.rp_json_programs.specs.Limits.{FitsWelfare};
ghost use Rattle.rp_json_entries.specs.Reading.{IsRead};
ghost use Rattle.rp_json_entries.specs.Values.{natural_value, naturals_value, observation_value};

use crate::bounds::AnyBound;
use crate::tags::WelfareTag;
use rp_evidence::{Bound, WelfarePart};
use rp_json_entries::lists::list_value;
use rp_json_entries::named::Named;
use rp_json_entries::numbers::{Natural, Observation, Price};
use rp_json_entries::objects::{put_entry, read_object};
use rp_num::{NoMemory, Seq};
use serde_json::{Map, Value, put};
use std::alloc::Global;

/// Makes the value of the welfare bounds of an observation.
pub fn welfare_value(
    alloc: Global,
    prices: &[u32],
    of: u32,
    evidence: &WelfarePart,
) -> Result<Value, NoMemory>
    ensures { IfOk result (λ v. view v ≡ welfare_value prices.now of evidence.now) }
{
    match evidence {
        WelfarePart::Bounds { upper, at, lower } => {
            let members = first_members(alloc, *at, lower)?;
            bounds_object(alloc, members, of, prices, *upper)
        }
        WelfarePart::NoModel(cycle) => cycle_object(alloc, cycle, of, prices),
    }
}

/// The first members of the object of bounds.
fn first_members(alloc: Global, at: u32, lower: &Bound) -> Result<Map<String, Value>, NoMemory>
    ensures { IfOk result (λ m. members_view m.entries ≡ member (codes "at") (observation_value at)
        (member (codes "item") (string (codes "welfare"))
        (member (codes "lower") (bound_value lower.now) no_members))) }
{
    let mut members = Map::new(alloc);
    put_entry::<Observation>(&mut members, alloc, "at", &at)?;
    put_entry::<Named<WelfareTag>>(&mut members, alloc, "item", &())?;
    put_entry::<AnyBound>(&mut members, alloc, "lower", lower)?;
    Ok(members)
}

/// Makes the object of bounds from its first members and the others.
fn bounds_object(
    alloc: Global,
    first: Map<String, Value>,
    of: u32,
    prices: &[u32],
    upper: u64,
) -> Result<Value, NoMemory>
    ensures { (at lower : Data) → members_view first.entries ≡ member (codes "at") at
        (member (codes "item") (string (codes "welfare")) (member (codes "lower") lower no_members))
        → IfOk result (λ v. view v ≡ object (member (codes "at") at
        (member (codes "item") (string (codes "welfare")) (member (codes "lower") lower
        (member (codes "observation") (observation_value of)
        (member (codes "prices") (naturals_value prices.now)
        (member (codes "upper") (natural_value upper) no_members))))))) }
{
    let mut members = first;
    put_entry::<Observation>(&mut members, alloc, "observation", &of)?;
    let prices = list_value::<Price>(alloc, prices)?;
    put(&mut members, alloc, "prices", prices)?;
    put_entry::<Natural>(&mut members, alloc, "upper", &upper)?;
    Ok(Value::Object(members))
}

/// Makes the object of a violation.
fn cycle_object(alloc: Global, cycle: &Seq<u32>, of: u32, prices: &[u32]) -> Result<Value, NoMemory>
    ensures { IfOk result (λ v. view v
        ≡ welfare_value prices.now of (WelfarePart.NoModel cycle.now)) }
{
    let mut members = Map::new(alloc);
    put_entry::<Seq<Observation>>(&mut members, alloc, "cycle", cycle)?;
    put_entry::<Named<WelfareTag>>(&mut members, alloc, "item", &())?;
    put_entry::<Observation>(&mut members, alloc, "observation", &of)?;
    let prices = list_value::<Price>(alloc, prices)?;
    put(&mut members, alloc, "prices", prices)?;
    Ok(Value::Object(members))
}

/// Welfare bounds: the prices, the observation and the bounds.
pub type Welfare = (Seq<u32>, u32, WelfarePart);

/// The welfare bounds of an observation that have this value.
pub fn read_welfare(alloc: Global, value: &Value) -> Result<Option<Welfare>, NoMemory>
    ensures { IfOk result (λ o. IsRead (λ w. welfare_value w.0 w.1 w.2)
        (λ w. FitsWelfare w.0 w.1 w.2) (view value.now) o) }
{
    match read_object::<BoundsFields>(alloc, &BOUNDS, value)? {
        Some(entries) => return Ok(Some(bounds(entries))),
        None => {}
    }
    match read_object::<CycleFields>(alloc, &["cycle", "item", "observation", "prices"], value)? {
        Some(entries) => Ok(Some(no_model(entries))),
        None => Ok(None),
    }
}

/// The names of the members of bounds.
const BOUNDS: [&str; 6] = ["at", "item", "lower", "observation", "prices", "upper"];

/// The observation of the upper bound, the item's name, the lower bound, the observation, the prices and the upper
/// bound.
type BoundsFields = (Observation, (Named<WelfareTag>, (AnyBound, PricesFields)));

/// The observation, the prices and the upper bound.
type PricesFields = (Observation, (Seq<Price>, (Natural, ())));

/// A cycle, the item's name, the observation and the prices.
type CycleFields = (
    Seq<Observation>,
    (Named<WelfareTag>, (Observation, (Seq<Price>, ()))),
);

/// What was found of bounds.
type FoundBounds = (u32, ((), (Bound, (u32, (Seq<u32>, (u64, ()))))));

/// The bounds that were found.
fn bounds(entries: FoundBounds) -> Welfare
    ensures { result ≡ (
      entries.1.1.1.1.0,
      entries.1.1.1.0,
      WelfarePart.Bounds entries.1.1.1.1.1.0 entries.0 entries.1.1.0,
    ) }
{
    let (at, ((), (lower, (of, (prices, (upper, ())))))) = entries;
    (prices, of, WelfarePart::Bounds { upper, at, lower })
}

/// The violation that was found.
fn no_model(entries: (Seq<u32>, ((), (u32, (Seq<u32>, ()))))) -> Welfare
    ensures { result ≡ (entries.1.1.1.0, entries.1.1.0, WelfarePart.NoModel entries.0) }
{
    let (cycle, ((), (of, (prices, ())))) = entries;
    (prices, of, WelfarePart::NoModel(cycle))
}
