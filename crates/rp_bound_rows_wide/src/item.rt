//! One item of a certificate, filled beside the verdict on the axiom.
ghost use Rattle.std.specs.Prelude.{◌≡◌, ◌∷◌, ◌<◌, ◌^◌, [], All, IfOk};
ghost use Rattle.rp_agreement.specs.ItemVerdict.{ProvesVerdict};
ghost use Rattle.rp_agreement.specs.ReadBack.{IsReadBack, certificate_from};
ghost use Rattle.rp_check.specs.CheckVerdict.{IsCheckVerdict};
ghost use Rattle.rp_check.specs.declared.verdict.Verdict.TheVariants.{Accepted};
ghost use Rattle.rp_evidence.specs.Input.{input_of_table};
ghost use Rattle.rp_evidence.specs.declared.certificate.Item.TheVariants.{Garp as GarpItem};
ghost use Rattle.rp_evidence.specs.declared.certificate.Kind.TheVariants.{Table as TableKind};
ghost use Rattle.rp_garp.specs.Test.{IsTestOf};
ghost use Rattle.rp_bound_rows_wide.specs.InnerItems.{HasSmallRanks, IsFoundBeside};

use rp_evidence::{Certificate, Garp, Item};
use rp_filled::fill_certificate;
use rp_garp::GarpTest;
use rp_num::{NoMemory, Seq};
use rp_table::Table;
use std::alloc::Global;

/// The item with what is found for it, from the certificate of the verdict on the axiom and of the item.
pub(crate) fn found_item(
    alloc: Global,
    table: &Table,
    tested: &GarpTest,
    stated: Item,
) -> Result<Item, NoMemory>
    requires is_test { IsTestOf table.now tested.now }
    requires no_levels { table.now.levels ≡ [] }
    requires given { ProvesVerdict (input_of_table table.now) tested.now.garp stated }
    ensures { IfOk result (IsFoundBeside (input_of_table table.now) stated) }
{
    let certificate = certificate_of(alloc, table, tested, stated)?;
    let filled = fill_certificate(alloc, table, certificate)?;
    let mut items = filled.items.into_vec();
    match items.pop() {
        Some(found) => Ok(found),
        None => unreachable!(),
    }
}

/// The certificate of the verdict on the axiom and of the item.
fn certificate_of(
    alloc: Global,
    table: &Table,
    tested: &GarpTest,
    item: Item,
) -> Result<Certificate, NoMemory>
    requires is_test { IsTestOf table.now tested.now }
    requires no_levels { table.now.levels ≡ [] }
    requires given { ProvesVerdict (input_of_table table.now) tested.now.garp item }
    ensures made { IfOk result (λ made.
        made ≡ certificate_from [] tested.now.garp (item ∷ [])) }
    ensures accepted { IfOk result (λ made.
        IsCheckVerdict (input_of_table table.now) made.levels made.items Accepted) }
    ensures read_back { IfOk result (IsReadBack TableKind) }
{
    let garp = copy_of(alloc, &tested.garp)?;
    let items = both_items(alloc, garp, item)?;
    let certificate = Certificate::of_table(alloc, table.levels(), items)?;
    Ok(certificate)
}

/// The verdict on the axiom and the item, in order.
fn both_items(alloc: Global, garp: Garp, item: Item) -> Result<Vec<Item>, NoMemory>
    ensures { IfOk result (λ made. made.items ≡ GarpItem garp ∷ item ∷ []) }
{
    match Vec::from_array(alloc, [Item::Garp(garp), item]) {
        Ok(made) => Ok(made),
        Err(_) => Err(NoMemory),
    }
}

/// The verdict on the axiom once more.
fn copy_of(alloc: Global, verdict: &Garp) -> Result<Garp, NoMemory>
    ensures same { IfOk result (λ copy. copy ≡ verdict.now) }
    ensures small { IfOk result HasSmallRanks }
{
    match verdict {
        Garp::Ranks(ranks) => {
            let copy = same_numbers(alloc, ranks.as_slice())?;
            Ok(Garp::Ranks(copy))
        }
        Garp::Cycle(walk) => {
            let copy = same_numbers(alloc, walk.as_slice())?;
            Ok(Garp::Cycle(copy))
        }
    }
}

/// These numbers once more, each of 32 bits.
fn same_numbers(alloc: Global, numbers: &[u32]) -> Result<Seq<u32>, NoMemory>
    ensures same { IfOk result (λ copy. copy ≡ numbers.now) }
    ensures small { IfOk result (All (λ number. number < 2 ^ 32)) }
{
    let copy = Vec::from_slice(alloc, numbers)?;
    Ok(Seq::from_vec(copy))
}
