//! Demand at new prices as JSON.
ghost use Rattle.std.specs.Prelude.{◌≡◌, IfOk, codes};
ghost use Rattle.serde_json.specs.Data.{Data, object, string, member, no_members};
ghost use Rattle.serde_json.specs.View.{view, members_view};
ghost use Rattle.rp_json_programs.specs.BoundValue.{good_value, point_value};
ghost use Rattle.rp_json_programs.specs.DemandValue.{demand_value};
ghost use Rattle.rp_json_programs.specs.Limits.{FitsDemand};
ghost use Rattle.rp_json_entries.specs.Reading.{IsRead};
ghost use Rattle.rp_json_entries.specs.Values.{list_value, natural_value, naturals_value};
ghost use Rattle.rp_json_entries.specs.Values.{observations_value};

use crate::bounds::{Bundle, Good};
use crate::tags::DemandTag;
use rp_evidence::{DemandPart, GoodBounds, Point};
use rp_json_entries::lists::list_value;
use rp_json_entries::named::Named;
use rp_json_entries::numbers::{Natural, Observation, Price};
use rp_json_entries::objects::{put_entry, read_object};
use rp_num::{NoMemory, Seq};
use serde_json::{Map, Value, put};
use std::alloc::Global;

/// Makes the value of demand at new prices.
pub fn demand_value(
    alloc: Global,
    prices: &[u32],
    m: u64,
    evidence: &DemandPart,
) -> Result<Value, NoMemory>
    ensures { IfOk result (λ v. view v ≡ demand_value prices.now m evidence.now) }
{
    match evidence {
        DemandPart::Bounds {
            below,
            strict,
            inner,
            goods,
        } => {
            let members = first_members(alloc, below, m, goods)?;
            bounds_object(alloc, members, inner, prices, strict)
        }
        DemandPart::NoModel(cycle) => cycle_object(alloc, cycle, m, prices),
    }
}

/// The first members of the object of bounds.
fn first_members(
    alloc: Global,
    below: &Seq<u32>,
    m: u64,
    goods: &Seq<GoodBounds>,
) -> Result<Map<String, Value>, NoMemory>
    ensures { IfOk result (λ members. members_view members.entries
        ≡ member (codes "below") (observations_value below.now)
        (member (codes "expenditure") (natural_value m)
        (member (codes "goods") (list_value good_value goods.now) no_members))) }
{
    let mut members = Map::new(alloc);
    put_entry::<Seq<Observation>>(&mut members, alloc, "below", below)?;
    put_entry::<Natural>(&mut members, alloc, "expenditure", &m)?;
    put_entry::<Seq<Good>>(&mut members, alloc, "goods", goods)?;
    Ok(members)
}

/// Makes the object of bounds from its first members and the others.
fn bounds_object(
    alloc: Global,
    first: Map<String, Value>,
    inner: &Point,
    prices: &[u32],
    strict: &Seq<u32>,
) -> Result<Value, NoMemory>
    ensures { (below expenditure goods : Data)
        → members_view first.entries ≡ member (codes "below") below
        (member (codes "expenditure") expenditure (member (codes "goods") goods no_members))
        → IfOk result (λ v. view v ≡ object (member (codes "below") below
        (member (codes "expenditure") expenditure (member (codes "goods") goods
        (member (codes "inner") (point_value inner.now)
        (member (codes "item") (string (codes "demand"))
        (member (codes "prices") (naturals_value prices.now)
        (member (codes "strict") (observations_value strict.now) no_members)))))))) }
{
    let mut members = first;
    put_entry::<Bundle>(&mut members, alloc, "inner", inner)?;
    put_entry::<Named<DemandTag>>(&mut members, alloc, "item", &())?;
    let prices = list_value::<Price>(alloc, prices)?;
    put(&mut members, alloc, "prices", prices)?;
    put_entry::<Seq<Observation>>(&mut members, alloc, "strict", strict)?;
    Ok(Value::Object(members))
}

/// Makes the object of a violation.
fn cycle_object(alloc: Global, cycle: &Seq<u32>, m: u64, prices: &[u32]) -> Result<Value, NoMemory>
    ensures { IfOk result (λ v. view v ≡ demand_value prices.now m (DemandPart.NoModel cycle.now)) }
{
    let mut members = Map::new(alloc);
    put_entry::<Seq<Observation>>(&mut members, alloc, "cycle", cycle)?;
    put_entry::<Natural>(&mut members, alloc, "expenditure", &m)?;
    put_entry::<Named<DemandTag>>(&mut members, alloc, "item", &())?;
    let prices = list_value::<Price>(alloc, prices)?;
    put(&mut members, alloc, "prices", prices)?;
    Ok(Value::Object(members))
}

/// Demand at new prices: the prices, the expenditure and the bounds.
pub type Demand = (Seq<u32>, u64, DemandPart);

/// The demand at new prices that has this value.
pub fn read_demand(alloc: Global, value: &Value) -> Result<Option<Demand>, NoMemory>
    ensures { IfOk result (λ o. IsRead (λ d. demand_value d.0 d.1 d.2) (λ d. FitsDemand d.0 d.1 d.2)
        (view value.now) o) }
{
    match read_object::<BoundsFields>(alloc, &BOUNDS, value)? {
        Some(entries) => return Ok(Some(bounds(entries))),
        None => {}
    }
    match read_object::<CycleFields>(alloc, &["cycle", "expenditure", "item", "prices"], value)? {
        Some(entries) => Ok(Some(no_model(entries))),
        None => Ok(None),
    }
}

/// The names of the members of bounds.
const BOUNDS: [&str; 7] = [
    "below",
    "expenditure",
    "goods",
    "inner",
    "item",
    "prices",
    "strict",
];

/// The observations below, the expenditure, the goods, a point, the item's name, the prices, and the observations
/// strictly below.
type BoundsFields = (
    Seq<Observation>,
    (Natural, (Seq<Good>, (Bundle, PricesFields))),
);

/// The item's name, the prices, and the observations strictly below.
type PricesFields = (Named<DemandTag>, (Seq<Price>, (Seq<Observation>, ())));

/// A cycle, the expenditure, the item's name and the prices.
type CycleFields = (
    Seq<Observation>,
    (Natural, (Named<DemandTag>, (Seq<Price>, ()))),
);

/// What was found of bounds.
type FoundBounds = (Seq<u32>, (u64, (Seq<GoodBounds>, (Point, FoundPrices))));

/// What was found of prices and of the observations strictly below.
type FoundPrices = ((), (Seq<u32>, (Seq<u32>, ())));

/// The bounds that were found.
fn bounds(entries: FoundBounds) -> Demand
    ensures { result ≡ (
      entries.1.1.1.1.1.0,
      entries.1.0,
      DemandPart.Bounds entries.0 entries.1.1.1.1.1.1.0 entries.1.1.1.0 entries.1.1.0,
    ) }
{
    let (below, (m, (goods, (inner, ((), (prices, (strict, ()))))))) = entries;
    let evidence = DemandPart::Bounds {
        below,
        strict,
        inner,
        goods,
    };
    (prices, m, evidence)
}

/// The violation that was found.
fn no_model(entries: (Seq<u32>, (u64, ((), (Seq<u32>, ()))))) -> Demand
    ensures { result ≡ (entries.1.1.1.0, entries.1.0, DemandPart.NoModel entries.0) }
{
    let (cycle, (m, ((), (prices, ())))) = entries;
    (prices, m, DemandPart::NoModel(cycle))
}
