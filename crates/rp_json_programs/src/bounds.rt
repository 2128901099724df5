//! Bounds by linear programs as JSON.
ghost use Rattle.std.specs.Prelude.{◌≡◌, IfOk};
ghost use Rattle.serde_json.specs.View.{view};
ghost use Rattle.rp_json_programs.specs.BoundValue.{bound_value, entry_value, good_value};
ghost use Rattle.rp_json_programs.specs.BoundValue.{point_value};
ghost use Rattle.rp_json_programs.specs.Limits.{FitsBound, FitsEntry, FitsGood, FitsPoint};

use rp_evidence::{Bound, GoodBounds, Point};
use rp_farkas::{Entry, Pair};
use rp_json_entries::notation::Notation;
use rp_json_entries::numbers::{Fraction, Natural, Observation};
use rp_json_entries::objects::{put_entry, read_array, read_object};
use rp_num::{Frac, NoMemory, Seq};
use serde_json::{Map, Value};
use std::alloc::Global;

/// A positive entry of a point, with its column counted from 1.
pub struct PointEntry;

impl Notation for PointEntry {
    type Entry = Entry;

    ghost value_of = { entry_value };

    ghost fits = { FitsEntry };

    fn value(alloc: Global, entry: &Entry) -> Result<Value, NoMemory> {
        let mut values = Vec::with_capacity(alloc, 2)?;
        let at = Observation::value(alloc, &entry.at)?;
        values.push(at)?;
        let value = Natural::value(alloc, &entry.value)?;
        values.push(value)?;
        Ok(Value::Array(values))
    }

    fn read(alloc: Global, value: &Value) -> Result<Option<Entry>, NoMemory> {
        match read_array::<(Observation, (Natural, ()))>(alloc, value)? {
            Some((at, (value, ()))) => Ok(Some(Entry { at, value })),
            None => Ok(None),
        }
    }
}

/// The bounds of a good.
pub struct Good;

impl Notation for Good {
    type Entry = GoodBounds;

    ghost value_of = { good_value };

    ghost fits = { FitsGood };

    fn value(alloc: Global, entry: &GoodBounds) -> Result<Value, NoMemory> {
        let mut members = Map::new(alloc);
        put_entry::<AnyBound>(&mut members, alloc, "lower", &entry.lower)?;
        put_entry::<AnyBound>(&mut members, alloc, "upper", &entry.upper)?;
        Ok(Value::Object(members))
    }

    fn read(alloc: Global, value: &Value) -> Result<Option<GoodBounds>, NoMemory> {
        match read_object::<(AnyBound, (AnyBound, ()))>(alloc, &["lower", "upper"], value)? {
            Some(entries) => Ok(Some(both(entries))),
            None => Ok(None),
        }
    }
}

/// A bound, shown or withheld.
pub struct AnyBound;

impl Notation for AnyBound {
    type Entry = Bound;

    ghost value_of = { bound_value };

    ghost fits = { FitsBound };

    fn value(alloc: Global, entry: &Bound) -> Result<Value, NoMemory> {
        bound_value(alloc, entry)
    }

    fn read(alloc: Global, value: &Value) -> Result<Option<Bound>, NoMemory> {
        match read_object::<PairFields>(alloc, &["den", "value", "x", "y"], value)? {
            Some(entries) => return Ok(Some(bound_with_pair(entries))),
            None => {}
        }
        match read_object::<(Natural, ())>(alloc, &["withheld"], value)? {
            Some((step, ())) => Ok(Some(Bound::Wide { step })),
            None => Ok(None),
        }
    }
}

/// The denominator of a pair, the value that it shows, its prices and its point.
type PairFields = (Natural, (Fraction, (Seq<Natural>, (Seq<PointEntry>, ()))));

/// Makes the value of a bound.
pub fn bound_value(alloc: Global, bound: &Bound) -> Result<Value, NoMemory>
    ensures { IfOk result (λ v. view v ≡ bound_value bound.now) }
{
    match bound {
        Bound::Shown { value, pair } => pair_value(alloc, value, pair),
        Bound::Wide { step } => {
            let mut members = Map::new(alloc);
            put_entry::<Natural>(&mut members, alloc, "withheld", step)?;
            Ok(Value::Object(members))
        }
    }
}

/// Makes the value of a bound that is shown by a pair.
fn pair_value(alloc: Global, value: &Frac, pair: &Pair) -> Result<Value, NoMemory>
    ensures { IfOk result (λ v. view v ≡ bound_value (Bound.Shown value.now pair.now)) }
{
    let mut members = Map::new(alloc);
    put_entry::<Natural>(&mut members, alloc, "den", &pair.den)?;
    put_entry::<Fraction>(&mut members, alloc, "value", value)?;
    put_entry::<Seq<Natural>>(&mut members, alloc, "x", &pair.x)?;
    put_entry::<Seq<PointEntry>>(&mut members, alloc, "y", &pair.y)?;
    Ok(Value::Object(members))
}

/// A bundle over a denominator.
pub struct Bundle;

impl Notation for Bundle {
    type Entry = Point;

    ghost value_of = { point_value };

    ghost fits = { FitsPoint };

    fn value(alloc: Global, entry: &Point) -> Result<Value, NoMemory> {
        point_value(alloc, entry)
    }

    fn read(alloc: Global, value: &Value) -> Result<Option<Point>, NoMemory> {
        match read_object::<(Natural, (Seq<Natural>, ()))>(alloc, &["den", "num"], value)? {
            Some(entries) => Ok(Some(point(entries))),
            None => Ok(None),
        }
    }
}

/// Makes the value of a point.
pub fn point_value(alloc: Global, point: &Point) -> Result<Value, NoMemory>
    ensures { IfOk result (λ v. view v ≡ point_value point.now) }
{
    let mut members = Map::new(alloc);
    put_entry::<Natural>(&mut members, alloc, "den", &point.den)?;
    put_entry::<Seq<Natural>>(&mut members, alloc, "num", &point.num)?;
    Ok(Value::Object(members))
}

/// The bound that was found with its pair.
fn bound_with_pair(entries: (u64, (Frac, (Seq<u64>, (Seq<Entry>, ()))))) -> Bound
    ensures { result ≡ Bound.Shown entries.1.0
        (record { den = entries.0; y = entries.1.1.1.0; x = entries.1.1.0 }) }
{
    let (den, (value, (x, (y, ())))) = entries;
    let pair = Pair { den, y, x };
    Bound::Shown { value, pair }
}

/// Both bounds that were found.
fn both(entries: (Bound, (Bound, ()))) -> GoodBounds
    ensures { result ≡ record { lower = entries.0; upper = entries.1.0 } }
{
    let (lower, (upper, ())) = entries;
    GoodBounds { lower, upper }
}

/// The point that was found.
fn point(entries: (u64, (Seq<u64>, ()))) -> Point
    ensures { result ≡ record { den = entries.0; num = entries.1.0 } }
{
    let (den, (num, ())) = entries;
    Point { den, num }
}
