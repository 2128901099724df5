//! The report of a certificate on random choices.
ghost use Rattle.std.specs.Prelude.{◌≡◌, ◌++◌, All, IfOk, Ok, OnOk};
ghost use Rattle.std.specs.List.{flat_map};
ghost use Rattle.rp_evidence.specs.Kinds.{IsCertificateOf, IsOfKind};
ghost use Rattle.rp_patch.specs.RandomFailure.{ItemFailsOnPatches};
ghost use Rattle.rp_report.specs.RandomText.{counts_text, random_item_text, random_report_text};
ghost use Rattle.rp_report.specs.RandomText.{types_text};

use crate::random::push_random;
use rp_evidence::{Certificate, Item, Kind};
use rp_num::NoMemory;
use rp_patch::Patches;
use rp_print::{LongNumber, Number, push_after, push_apportioned};
use std::alloc::Global;

/// The report of a certificate on random choices: lines on the patches, of which so many types are rational where they
/// are listed, and then the lines of each item.
pub fn report_random(
    alloc: Global,
    certificate: &Certificate,
    patches: &Patches,
    types: Option<u32>,
) -> Result<Vec<u8>, NoMemory>
    requires kind { IsCertificateOf Kind.Random certificate.now }
    requires nothing_wrong { All (λ item. ItemFailsOnPatches patches.now item (Ok tt))
        certificate.now.items }
    ensures { IfOk result (λ text. text.items
        ≡ random_report_text patches.now types certificate.now.items) }
{
    let mut text = Vec::new(alloc);
    push_counts(alloc, &mut text, patches, types)?;
    push_apportioned(alloc, &mut text, patches.asked())?;
    push_items(alloc, &mut text, patches, certificate.items.as_slice())?;
    Ok(text)
}

/// Appends the line on the patches.
fn push_counts(
    alloc: Global,
    out: &mut Vec<u8>,
    patches: &Patches,
    types: Option<u32>,
) -> Result<(), NoMemory>
    ensures { OnOk result (out.new.items ≡ out.old.items ++ counts_text patches.now types) }
{
    push_after::<Number>(alloc, out, b"budgets ", patches.budgets())?;
    push_after::<Number>(alloc, out, b" patches ", patches.count())?;
    push_types(alloc, out, types)?;
    push_after::<LongNumber>(alloc, out, b" total ", patches.total())?;
    out.push(b'\n')?;
    Ok(())
}

/// Appends how many types are rational, where they are listed.
fn push_types(alloc: Global, out: &mut Vec<u8>, types: Option<u32>) -> Result<(), NoMemory>
    ensures { OnOk result (out.new.items ≡ out.old.items ++ types_text types) }
{
    match types {
        Some(types) => push_after::<Number>(alloc, out, b" types ", types),
        None => {
            out.extend_from_slice(b" types unlisted")?;
            Ok(())
        }
    }
}

/// Appends the lines of each item.
fn push_items(
    alloc: Global,
    out: &mut Vec<u8>,
    patches: &Patches,
    items: &[Item],
) -> Result<(), NoMemory>
    requires kind { All (IsOfKind Kind.Random) items.now }
    requires nothing_wrong { All (λ item. ItemFailsOnPatches patches.now item (Ok tt)) items.now }
    ensures { OnOk result (
        out.new.items ≡ out.old.items ++ flat_map (random_item_text patches.now) items.now) }
{
    for item in items {
        push_item(alloc, out, patches, item)?;
    }
    Ok(())
}

/// Appends the lines of an item on random choices.
fn push_item(
    alloc: Global,
    out: &mut Vec<u8>,
    patches: &Patches,
    item: &Item,
) -> Result<(), NoMemory>
    requires kind { IsOfKind Kind.Random item.now }
    requires nothing_wrong { ItemFailsOnPatches patches.now item.now (Ok tt) }
    ensures { OnOk result (
        out.new.items ≡ out.old.items ++ random_item_text patches.now item.now) }
{
    match item {
        Item::Random { part, .. } => push_random(alloc, out, patches, part),
        _ => unreachable!(),
    }
}
