//! An efficiency index as JSON.
ghost use Rattle.std.specs.Prelude.{◌≡◌, IfOk, IfSome, None, OnOk};
ghost use Rattle.serde_json.specs.View.{view, members_view};
ghost use Rattle.rp_json_tests.specs.EfficiencyValue.{at_members, below_members};
ghost use Rattle.rp_json_tests.specs.EfficiencyValue.{efficiency_value, level_value};
ghost use Rattle.rp_json_tests.specs.Limits.{FitsEfficiency, FitsLevel};
ghost use Rattle.rp_json_entries.specs.Reading.{FitsLong, IsRead};
ghost use Rattle.rp_evidence.specs.declared.efficiency.Efficiency.{Efficiency};

use crate::tags::EfficiencyTag;
use rp_evidence::{Efficiency, Garp, Level};
use rp_json_entries::named::Named;
use rp_json_entries::notation::Notation;
use rp_json_entries::numbers::{Count, Fraction, Observation, fraction_value};
use rp_json_entries::objects::{put_entry, read_object};
use rp_num::{Frac, NoMemory, Seq};
use serde_json::{Map, Value};
use std::alloc::Global;

/// Makes the value of an efficiency index with its evidence.
pub fn efficiency_value(alloc: Global, evidence: &Efficiency) -> Result<Value, NoMemory>
    ensures { IfOk result (λ v. view v ≡ efficiency_value evidence.now) }
{
    let mut members = below(alloc, evidence)?;
    put_at(alloc, &mut members, &evidence.at)?;
    put_entry::<Seq<Observation>>(&mut members, alloc, "above", &evidence.above)?;
    Ok(Value::Object(members))
}

/// Puts in the evidence at the index.
fn put_at(alloc: Global, members: &mut Map<String, Value>, at: &Garp) -> Result<(), NoMemory>
    ensures { OnOk result ((evidence : Efficiency)
        → members_view members.old.entries ≡ below_members evidence
        → members_view members.new.entries ≡ at_members at.now (below_members evidence)) }
{
    match at {
        Garp::Ranks(ranks) => put_entry::<Seq<Count>>(members, alloc, "at_ranks", ranks),
        Garp::Cycle(cycle) => put_entry::<Seq<Observation>>(members, alloc, "at_cycle", cycle),
    }
}

/// The members that come after the evidence at the index.
fn below(alloc: Global, evidence: &Efficiency) -> Result<Map<String, Value>, NoMemory>
    ensures { IfOk result (λ m. members_view m.entries ≡ below_members evidence.now) }
{
    let mut members = Map::new(alloc);
    put_entry::<Seq<Count>>(&mut members, alloc, "below", &evidence.below)?;
    put_entry::<Named<EfficiencyTag>>(&mut members, alloc, "item", &())?;
    put_entry::<LevelText>(&mut members, alloc, "level", &evidence.level)?;
    Ok(members)
}

/// Makes the value of a level with its parts as they stand.
fn level_value(alloc: Global, level: Level) -> Result<Value, NoMemory>
    ensures { IfOk result (λ v. view v ≡ level_value level) }
{
    fraction_value(alloc, u128::from(level.num), u128::from(level.den))
}

/// The efficiency index, with its evidence, that has this value.
pub fn read_efficiency(alloc: Global, value: &Value) -> Result<Option<Efficiency>, NoMemory>
    ensures { IfOk result (λ o. IsRead efficiency_value FitsEfficiency (view value.now) o) }
{
    match read_object::<AttainedFields>(alloc, &ATTAINED, value)? {
        Some(entries) => return Ok(Some(attained(entries))),
        None => {}
    }
    match read_object::<MissedFields>(alloc, &MISSED, value)? {
        Some(entries) => Ok(Some(missed(entries))),
        None => Ok(None),
    }
}

/// The names of the members where the index is attained.
const ATTAINED: [&str; 5] = ["above", "at_ranks", "below", "item", "level"];

/// The names of the members where it is not.
const MISSED: [&str; 5] = ["above", "at_cycle", "below", "item", "level"];

/// A walk above, ranks at the index, ranks below it, the item's name and the level.
type AttainedFields = (Seq<Observation>, (Seq<Count>, BelowFields));

/// A cycle at the index, and after it the members of an index that is attained.
type MissedFields = (Seq<Observation>, (Seq<Observation>, BelowFields));

/// Ranks below the index, the item's name and the level.
type BelowFields = (Seq<Count>, (Named<EfficiencyTag>, (LevelText, ())));

/// A level, in lowest terms where it is read.
struct LevelText;

impl Notation for LevelText {
    type Entry = Level;

    ghost value_of = { level_value };

    ghost fits = { FitsLevel };

    fn value(alloc: Global, entry: &Level) -> Result<Value, NoMemory> {
        level_value(alloc, *entry)
    }

    fn read(alloc: Global, value: &Value) -> Result<Option<Level>, NoMemory> {
        match Fraction::read(alloc, value)? {
            Some(level) => Ok(level_from(level)),
            None => Ok(None),
        }
    }
}

/// The level with the parts of a fraction, where both have 64 bits.
fn level_from(f: Frac) -> Option<Level>
    ensures parts { IfSome result (λ level. (level.num ≡ f.num) × (level.den ≡ f.den)) }
    ensures fits { IfSome result (λ level. FitsLong level.num × FitsLong level.den) }
    ensures long { result ≡ None → ¬ (FitsLong f.num × FitsLong f.den) }
{
    let num = f.num();
    if num > u128::from(u64::MAX) {
        return None;
    }
    let den = f.den();
    if den > u128::from(u64::MAX) {
        return None;
    }
    Some(Level {
        num: num as u64,
        den: den as u64,
    })
}

/// What was found below the index and of its level.
type FoundBelow = (Seq<u32>, ((), (Level, ())));

/// The index that was found, with ranks at it.
fn attained(entries: (Seq<u32>, (Seq<u32>, FoundBelow))) -> Efficiency
    ensures { result ≡ record {
      level = entries.1.1.1.1.0;
      below = entries.1.1.0;
      above = entries.0;
      at = Garp.Ranks entries.1.0;
    } }
{
    let (above, (ranks, (below, ((), (level, ()))))) = entries;
    let at = Garp::Ranks(ranks);
    Efficiency {
        level,
        below,
        above,
        at,
    }
}

/// The index that was found, with a cycle at it.
fn missed(entries: (Seq<u32>, (Seq<u32>, FoundBelow))) -> Efficiency
    ensures { result ≡ record {
      level = entries.1.1.1.1.0;
      below = entries.1.1.0;
      above = entries.0;
      at = Garp.Cycle entries.1.0;
    } }
{
    let (above, (cycle, (below, ((), (level, ()))))) = entries;
    let at = Garp::Cycle(cycle);
    Efficiency {
        level,
        below,
        above,
        at,
    }
}
