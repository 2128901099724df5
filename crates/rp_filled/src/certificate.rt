//! Certificates of tables, item by item.
ghost use Rattle.std.specs.Prelude.{IfOk};
ghost use Rattle.rp_agreement.specs.ReadBack.{IsReadBack};
ghost use Rattle.rp_check.specs.CheckVerdict.{IsCheckVerdict};
ghost use Rattle.rp_check.specs.declared.verdict.Verdict.TheVariants.{Accepted};
ghost use Rattle.rp_evidence.specs.Input.{input_of_table};
ghost use Rattle.rp_evidence.specs.Proves.{Proves};
ghost use Rattle.rp_evidence.specs.Reached.{IsWeakClosureOf};
ghost use Rattle.rp_evidence.specs.declared.certificate.Item.TheVariants.{Homothetic as HomotheticItem};
ghost use Rattle.rp_evidence.specs.declared.certificate.Kind.TheVariants.{Table as TableKind};
ghost use Rattle.rp_table.specs.Cost.{IsCostsOf};
ghost use Rattle.rp_filled.specs.Filled.{IsFilledCertificate, IsFilledVerdict};
ghost use Rattle.rp_filled.specs.InnerFound.{ArePaired, IsFoundItem, ItemPasses, ItemsPass};

use crate::demand::found_demand;
use crate::found::found_homothetic;
use crate::welfare::found_welfare;
use rp_clauses::closure::Reachability;
use rp_clauses::input::Input;
use rp_evidence::{Certificate, Homothetic, Item, withheld};
use rp_num::{NoMemory, Seq};
use rp_table::{Costs, Table};
use std::alloc::Global;

/// The certificate of a table, with what the searches past the widths find for each homothetic verdict and each bound
/// that is withheld. Whatever is given stays as it is; what is not found stays withheld, with its step.
pub fn fill_certificate(
    alloc: Global,
    table: &Table,
    stated: Certificate,
) -> Result<Certificate, NoMemory>
    requires accepted { IsCheckVerdict (input_of_table table.now) stated.levels stated.items
        Accepted }
    requires read_back { IsReadBack TableKind stated }
    ensures { IfOk result (IsFilledCertificate (input_of_table table.now) stated) }
{
    prove!(table.n() > 0);
    if withheld(&stated) == 0 {
        return Ok(stated);
    }
    let costs = Costs::of(alloc, table)?;
    let found = found_items(alloc, table, &costs, stated.items.into_vec())?;
    Ok(Certificate {
        kind: stated.kind,
        version: stated.version,
        levels: stated.levels,
        items: Seq::from_vec(found),
    })
}

/// The verdict of the homothetic test on a table, with what rounded products find in place of one that is withheld.
pub fn fill_homothetic(
    alloc: Global,
    table: &Table,
    stated: Homothetic,
) -> Result<Homothetic, NoMemory>
    requires { Proves (input_of_table table.now) (HomotheticItem stated) }
    ensures { IfOk result (IsFilledVerdict (input_of_table table.now) stated) }
{
    prove!(table.n() > 0);
    match stated {
        Homothetic::Withheld { steps, from, to } => {
            let costs = Costs::of(alloc, table)?;
            let input = Input::new(table, &costs);
            found_homothetic(alloc, &input, Homothetic::Withheld { steps, from, to })
        }
        given => Ok(given),
    }
}

/// What is found for each item. Not inlined: a call with nothing withheld would pay for the pages of the closure's array.
#[inline(never)]
fn found_items(
    alloc: Global,
    table: &Table,
    costs: &Costs,
    stated: Vec<Item>,
) -> Result<Vec<Item>, NoMemory>
    requires costs { IsCostsOf costs.now table.now }
    requires pass { ItemsPass (input_of_table table.now) stated.items }
    ensures { IfOk result (λ found. ArePaired (λ k. IsFoundItem (input_of_table table.now))
        stated.items found.items) }
{
    prove!(table.n() > 0);
    let input = Input::new(table, costs);
    let closure = Reachability::of(&input);
    let mut all = Vec::new(alloc);
    for item in stated {
        let found = found_item(alloc, &input, &closure, item)?;
        all.push(found)?;
    }
    Ok(all)
}

/// The item with what is found for it.
fn found_item(
    alloc: Global,
    input: &Input<'_>,
    closure: &Reachability,
    stated: Item,
) -> Result<Item, NoMemory>
    requires closure { IsWeakClosureOf closure.now (input_of_table input.now.table.now) }
    requires passes { ItemPasses (input_of_table input.now.table.now) stated }
    ensures { IfOk result (IsFoundItem (input_of_table input.now.table.now) stated) }
{
    prove!(input.n() > 0);
    match stated {
        Item::Homothetic(verdict) => {
            let found = found_homothetic(alloc, input, verdict)?;
            Ok(Item::Homothetic(found))
        }
        Item::Demand { prices, m, part } => {
            let part = found_demand(alloc, input, prices.as_slice(), m, part)?;
            Ok(Item::Demand { prices, m, part })
        }
        Item::Welfare { prices, of, part } => {
            let part = found_welfare(alloc, input, closure, prices.as_slice(), of, part)?;
            Ok(Item::Welfare { prices, of, part })
        }
        other => Ok(other),
    }
}
