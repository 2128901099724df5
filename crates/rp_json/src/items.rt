//! The items of certificates, read from their values.
ghost use Rattle.std.specs.Prelude.{◌≡◌, IfOk};
ghost use Rattle.serde_json.specs.View.{view};
ghost use Rattle.rp_json.specs.CertificateValue.{item_value};
ghost use Rattle.rp_json.specs.Denoted.{FitsKind};
ghost use Rattle.rp_json_entries.specs.Reading.{IsRead};

use rp_evidence::{Item, Kind};
use rp_json_programs::demand::{Demand, read_demand};
use rp_json_programs::random::{Random, read_random};
use rp_json_programs::welfare::{Welfare, read_welfare};
use rp_json_tests::afriat::read_afriat;
use rp_json_tests::efficiency::read_efficiency;
use rp_json_tests::garp::read_garp;
use rp_json_tests::homothetic::read_homothetic;
use rp_json_tests::quasilinear::read_quasilinear;
use rp_num::NoMemory;
use serde_json::Value;
use std::alloc::Global;

/// The item of a kind that has this value.
pub(crate) fn read_item(alloc: Global, kind: Kind, value: &Value) -> Result<Option<Item>, NoMemory>
    ensures { IfOk result (λ o. IsRead item_value (FitsKind kind) (view value.now) o) }
{
    match kind {
        Kind::Table => read_table_item(alloc, value),
        Kind::Random => match read_random(alloc, value)? {
            Some(entries) => Ok(Some(random(entries))),
            None => Ok(None),
        },
    }
}

/// The item on a table that has this value.
fn read_table_item(alloc: Global, value: &Value) -> Result<Option<Item>, NoMemory>
    ensures { IfOk result (λ o. IsRead item_value (FitsKind Kind.Table) (view value.now) o) }
{
    match read_garp(alloc, value)? {
        Some(garp) => return Ok(Some(Item::Garp(garp))),
        None => {}
    }
    match read_afriat(alloc, value)? {
        Some(afriat) => return Ok(Some(Item::Afriat(afriat))),
        None => {}
    }
    match read_efficiency(alloc, value)? {
        Some(efficiency) => return Ok(Some(Item::Efficiency(efficiency))),
        None => {}
    }
    match read_homothetic(alloc, value)? {
        Some(homothetic) => return Ok(Some(Item::Homothetic(homothetic))),
        None => {}
    }
    match read_quasilinear(alloc, value)? {
        Some(quasilinear) => return Ok(Some(Item::Quasi(quasilinear))),
        None => {}
    }
    match read_demand(alloc, value)? {
        Some(entries) => return Ok(Some(demand(entries))),
        None => {}
    }
    match read_welfare(alloc, value)? {
        Some(entries) => Ok(Some(welfare(entries))),
        None => Ok(None),
    }
}

/// The item on demand at new prices that was found.
fn demand(entries: Demand) -> Item
    ensures { result ≡ Item.Demand entries.0 entries.1 entries.2 }
{
    let (prices, m, part) = entries;
    Item::Demand { prices, m, part }
}

/// The item on welfare that was found.
fn welfare(entries: Welfare) -> Item
    ensures { result ≡ Item.Welfare entries.0 entries.1 entries.2 }
{
    let (prices, of, part) = entries;
    Item::Welfare { prices, of, part }
}

/// The item on random choices that was found.
fn random(entries: Random) -> Item
    ensures { result ≡ Item.Random entries.0 entries.1 }
{
    let (total, part) = entries;
    Item::Random { total, part }
}
