//! The check of a certificate on a table.
ghost use Rattle.std.specs.Prelude.{◌≡◌, All};
ghost use Rattle.rp_check.specs.CheckVerdict.{IsCheckVerdictOnItems, IsCheckVerdict};
ghost use Rattle.rp_check.specs.declared.verdict.Verdict.TheVariants.{Accepted};
ghost use Rattle.rp_evidence.specs.Input.{input_of_table};
ghost use Rattle.rp_evidence.specs.Kinds.{IsCertificateOf, IsOfKind};
ghost use Rattle.rp_evidence.specs.Proves.{Proves};
ghost use Rattle.rp_evidence.specs.declared.certificate.Kind.TheVariants.{Table as TableKind};
ghost use Rattle.rp_people.specs.Says.{HasPricesAboveZero, Says};
ghost use Rattle.rp_table.specs.Cost.{IsCostsOf};

use crate::Verdict;
use crate::item::{check_item, shows_garp};
use crate::levels::check_levels;
use rp_clauses::closure::Reachability;
use rp_clauses::input::Input;
use rp_evidence::{Certificate, Item, cap};
use rp_table::{Costs, Table};

/// The verdict on a certificate on a table: its levels, where they are not those of the table, with item 0; else its
/// first item that fails, by the first of its clauses that fails. What is withheld claims nothing and is passed over.
pub fn check(table: &Table, costs: &Costs, certificate: &Certificate) -> Verdict
    requires costs { IsCostsOf costs.now table.now }
    requires kind { IsCertificateOf TableKind certificate.now }
    ensures first_failure { IsCheckVerdict (input_of_table table.now) certificate.now.levels
        certificate.now.items result }
    ensures accepted_proves { result ≡ Accepted
        → All (Proves (input_of_table table.now)) certificate.now.items }
    ensures accepted_says { result ≡ Accepted
        → All (Says (input_of_table table.now)) certificate.now.items }
    ensures accepted_prices { result ≡ Accepted
        → All (HasPricesAboveZero (input_of_table table.now)) certificate.now.items }
{
    match check_levels(table, certificate.levels.as_slice()) {
        Ok(()) => check_items(table, costs, certificate.items.as_slice()),
        Err(found) => Verdict::Rejected {
            item: 0,
            reason: found.reason,
            place: found.place,
        },
    }
}

/// The verdict on these items. Not inlined: each call of the program would pay for the pages of the closure's array.
#[inline(never)]
fn check_items(table: &Table, costs: &Costs, items: &[Item]) -> Verdict
    requires costs { IsCostsOf costs.now table.now }
    requires kinds { All (IsOfKind TableKind) items.now }
    ensures first_failure { IsCheckVerdictOnItems (input_of_table table.now) items.now result }
    ensures accepted_proves { result ≡ Accepted
        → All (Proves (input_of_table table.now)) items.now }
    ensures accepted_says { result ≡ Accepted
        → All (Says (input_of_table table.now)) items.now }
    ensures accepted_prices { result ≡ Accepted
        → All (HasPricesAboveZero (input_of_table table.now)) items.now }
{
    prove!(table.n() > 0);
    let input = Input::new(table, costs);
    let closure = Reachability::of(&input);
    let mut garp_shown = false;
    for (k, item) in items.iter().enumerate() {
        if let Err(found) = check_item(&input, &closure, garp_shown, item) {
            return Verdict::Rejected {
                item: cap(k + 1),
                reason: found.reason,
                place: found.place,
            };
        }
        garp_shown |= shows_garp(item);
    }
    Verdict::Accepted
}
