//! Evidence on random choices as JSON.
ghost use Rattle.std.specs.Prelude.{◌≡◌, IfOk, codes};
ghost use Rattle.serde_json.specs.Data.{string, member, no_members};
ghost use Rattle.serde_json.specs.View.{view, members_view};
ghost use Rattle.rp_json_programs.specs.Limits.{FitsRandom, FitsShare};
ghost use Rattle.rp_json_entries.specs.Reading.{IsRead};
ghost use Rattle.rp_json_entries.specs.Values.{list_value, natural_value};
ghost use Rattle.rp_json_programs.specs.RandomValue.{random_value, share_value};

use crate::tags::RandomTag;
use rp_evidence::{RandomPart, Share};
use rp_json_entries::lists::list_value;
use rp_json_entries::named::Named;
use rp_json_entries::notation::Notation;
use rp_json_entries::numbers::{Natural, Observation};
use rp_json_entries::objects::{put_entry, read_array, read_object};
use rp_num::{NoMemory, Seq};
use serde_json::{Map, Value};
use std::alloc::Global;

/// A rational type with its weight; its patches are counted from 1.
pub struct TypeShare;

impl Notation for TypeShare {
    type Entry = Share;

    ghost value_of = { share_value };

    ghost fits = { FitsShare };

    fn value(alloc: Global, entry: &Share) -> Result<Value, NoMemory> {
        let mut values = Vec::with_capacity(alloc, 2)?;
        let patches = list_value::<Observation>(alloc, entry.patches.as_slice())?;
        values.push(patches)?;
        let weight = Natural::value(alloc, &entry.weight)?;
        values.push(weight)?;
        Ok(Value::Array(values))
    }

    fn read(alloc: Global, value: &Value) -> Result<Option<Share>, NoMemory> {
        match read_array::<(Seq<Observation>, (Natural, ()))>(alloc, value)? {
            Some(entries) => Ok(Some(share(entries))),
            None => Ok(None),
        }
    }
}

/// Makes the value of a verdict on random choices.
pub fn random_value(alloc: Global, total: u64, evidence: &RandomPart) -> Result<Value, NoMemory>
    ensures { IfOk result (λ v. view v ≡ random_value total evidence.now) }
{
    match evidence {
        RandomPart::Mixture { den, parts } => {
            let members = mixture_members(alloc, *den, parts, total)?;
            Ok(Value::Object(members))
        }
        RandomPart::Violated {
            den,
            parts,
            weights,
        } => {
            let mut members = mixture_members(alloc, *den, parts, total)?;
            put_entry::<Seq<Natural>>(&mut members, alloc, "weights", weights)?;
            Ok(Value::Object(members))
        }
        RandomPart::Wide { step } => withheld_object(alloc, total, *step),
    }
}

/// The members of a mixture, which a violation has too.
fn mixture_members(
    alloc: Global,
    den: u64,
    parts: &Seq<Share>,
    total: u64,
) -> Result<Map<String, Value>, NoMemory>
    ensures { IfOk result (λ m. members_view m.entries ≡ member (codes "den") (natural_value den)
        (member (codes "item") (string (codes "random"))
        (member (codes "parts") (list_value share_value parts.now)
        (member (codes "total") (natural_value total) no_members)))) }
{
    let mut members = Map::new(alloc);
    put_entry::<Natural>(&mut members, alloc, "den", &den)?;
    put_entry::<Named<RandomTag>>(&mut members, alloc, "item", &())?;
    put_entry::<Seq<TypeShare>>(&mut members, alloc, "parts", parts)?;
    put_entry::<Natural>(&mut members, alloc, "total", &total)?;
    Ok(members)
}

/// Makes the object of a verdict that is withheld.
fn withheld_object(alloc: Global, total: u64, step: u64) -> Result<Value, NoMemory>
    ensures { IfOk result (λ v. view v ≡ random_value total (RandomPart.Wide step)) }
{
    let mut members = Map::new(alloc);
    put_entry::<Named<RandomTag>>(&mut members, alloc, "item", &())?;
    put_entry::<Natural>(&mut members, alloc, "total", &total)?;
    put_entry::<Natural>(&mut members, alloc, "withheld", &step)?;
    Ok(Value::Object(members))
}

/// A verdict on random choices: the total and the evidence.
pub type Random = (u64, RandomPart);

/// The verdict on random choices that has this value.
pub fn read_random(alloc: Global, value: &Value) -> Result<Option<Random>, NoMemory>
    ensures { IfOk result (λ o. IsRead (λ r. random_value r.0 r.1) (λ r. FitsRandom r.0 r.1)
        (view value.now) o) }
{
    match read_object::<MixtureFields>(alloc, &["den", "item", "parts", "total"], value)? {
        Some(entries) => return Ok(Some(mixture(entries))),
        None => {}
    }
    match read_object::<ViolatedFields>(
        alloc,
        &["den", "item", "parts", "total", "weights"],
        value,
    )? {
        Some(entries) => return Ok(Some(violated(entries))),
        None => {}
    }
    match read_object::<WideFields>(alloc, &["item", "total", "withheld"], value)? {
        Some(((), (total, (step, ())))) => Ok(Some((total, RandomPart::Wide { step }))),
        None => Ok(None),
    }
}

/// The denominator, the item's name, the parts and the total.
type MixtureFields = (Natural, (Named<RandomTag>, (Seq<TypeShare>, (Natural, ()))));

/// The weights of the patches after the denominator, the item's name, the parts and the total.
type ViolatedFields = (
    Natural,
    (
        Named<RandomTag>,
        (Seq<TypeShare>, (Natural, (Seq<Natural>, ()))),
    ),
);

/// The item's name, the total and the step.
type WideFields = (Named<RandomTag>, (Natural, (Natural, ())));

/// The share that was found.
fn share(entries: (Seq<u32>, (u64, ()))) -> Share
    ensures { result ≡ record { patches = entries.0; weight = entries.1.0 } }
{
    let (patches, (weight, ())) = entries;
    Share { patches, weight }
}

/// The mixture that was found.
fn mixture(entries: (u64, ((), (Seq<Share>, (u64, ()))))) -> Random
    ensures { result ≡ (entries.1.1.1.0, RandomPart.Mixture entries.0 entries.1.1.0) }
{
    let (den, ((), (parts, (total, ())))) = entries;
    (total, RandomPart::Mixture { den, parts })
}

/// The partial mixture that was found, with the weights of the patches.
fn violated(entries: (u64, ((), (Seq<Share>, (u64, (Seq<u64>, ())))))) -> Random
    ensures { result ≡ (
      entries.1.1.1.0,
      RandomPart.Violated entries.0 entries.1.1.0 entries.1.1.1.1.0,
    ) }
{
    let (den, ((), (parts, (total, (weights, ()))))) = entries;
    (
        total,
        RandomPart::Violated {
            den,
            parts,
            weights,
        },
    )
}
