//! The JSON text of a certificate.
ghost use Rattle.std.specs.Prelude.{◌≡◌, IfOk, codes};
ghost use Rattle.serde_json.specs.Data.{member, no_members, string};
ghost use Rattle.serde_json.specs.View.{members_view, view};
ghost use Rattle.rp_json.specs.CertificateValue.{certificate_text, certificate_value, item_value};
ghost use Rattle.rp_json.specs.CertificateValue.{kind_name};
ghost use Rattle.rp_json_entries.specs.Values.{list_value};

use rp_evidence::{Certificate, Item, Kind};
use rp_json_entries::numbers::Count;
use rp_json_entries::objects::put_entry;
use rp_json_programs::demand::demand_value;
use rp_json_programs::random::random_value;
use rp_json_programs::welfare::welfare_value;
use rp_json_tests::afriat::afriat_value;
use rp_json_tests::efficiency::efficiency_value;
use rp_json_tests::garp::garp_value;
use rp_json_tests::homothetic::homothetic_value;
use rp_json_tests::quasilinear::quasilinear_value;
use rp_num::{NoMemory, Seq};
use serde_json::{Map, Value, put};
use std::alloc::Global;

#[tactic(auto, using(crate::proofs::NoFloats::certificate_has_none))]
/// The certificate as JSON on one line: the compact text of its value, and a line feed.
pub fn write(alloc: Global, certificate: &Certificate) -> Result<Vec<u8>, NoMemory>
    ensures { IfOk result (λ text. text.items ≡ certificate_text certificate.now) }
{
    let value = certificate_value(alloc, certificate)?;
    let mut text = value.to_vec(alloc)?;
    text.push(b'\n')?;
    Ok(text)
}

/// Makes the value of a certificate.
pub fn certificate_value(alloc: Global, certificate: &Certificate) -> Result<Value, NoMemory>
    ensures { IfOk result (λ v. view v ≡ certificate_value certificate.now) }
{
    let mut members = first_members(alloc, certificate)?;
    if certificate.version == 2 {
        put_entry::<Seq<Count>>(&mut members, alloc, "levels", &certificate.levels)?;
        put_entry::<Count>(&mut members, alloc, "version", &2)?;
        return Ok(Value::Object(members));
    }
    put_entry::<Count>(&mut members, alloc, "version", &certificate.version)?;
    Ok(Value::Object(members))
}

/// The first members of the object of a certificate: its items, and what it is about.
fn first_members(alloc: Global, certificate: &Certificate) -> Result<Map<String, Value>, NoMemory>
    ensures { IfOk result (λ members. members_view members.entries
        ≡ member (codes "items") (list_value item_value certificate.now.items)
        (member (codes "kind") (string (kind_name certificate.now.kind)) no_members)) }
{
    let mut members = Map::new(alloc);
    let items = items_value(alloc, certificate.items.as_slice())?;
    put(&mut members, alloc, "items", items)?;
    let kind = Value::try_from_str(alloc, kind_name(certificate.kind))?;
    put(&mut members, alloc, "kind", kind)?;
    Ok(members)
}

/// What a certificate of this kind says that it is about.
pub(crate) fn kind_name(kind: Kind) -> &'static str
    ensures { result.now ≡ kind_name kind }
{
    match kind {
        Kind::Table => "table",
        Kind::Random => "random",
    }
}

/// Makes the array of the items' values.
fn items_value(alloc: Global, items: &[Item]) -> Result<Value, NoMemory>
    ensures { IfOk result (λ v. view v ≡ list_value item_value items.now) }
{
    let mut values = Vec::with_capacity(alloc, items.len())?;
    for item in items {
        values.push(item_value(alloc, item)?)?;
    }
    Ok(Value::Array(values))
}

/// Makes the value of an item.
fn item_value(alloc: Global, item: &Item) -> Result<Value, NoMemory>
    ensures { IfOk result (λ v. view v ≡ item_value item.now) }
{
    match item {
        Item::Garp(evidence) => garp_value(alloc, evidence),
        Item::Afriat(evidence) => afriat_value(alloc, evidence),
        Item::Efficiency(evidence) => efficiency_value(alloc, evidence),
        Item::Homothetic(evidence) => homothetic_value(alloc, evidence),
        Item::Quasi(evidence) => quasilinear_value(alloc, evidence),
        Item::Demand { prices, m, part } => demand_value(alloc, prices.as_slice(), *m, part),
        Item::Welfare { prices, of, part } => welfare_value(alloc, prices.as_slice(), *of, part),
        Item::Random { total, part } => random_value(alloc, *total, part),
    }
}
