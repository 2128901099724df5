//! The check of one item of a certificate on a table.
ghost use Rattle.std.specs.Prelude.{◌≡◌, ◌∷◌, []};
ghost use Rattle.rp_check.specs.DemandFailure.{DemandFails};
ghost use Rattle.rp_check.specs.ItemFailure.{ItemFails, shows_garp};
ghost use Rattle.rp_check.specs.LevelsFailure.{SomeLevelsFail};
ghost use Rattle.rp_check.specs.WelfareFailure.{WelfareFails};
ghost use Rattle.rp_evidence.specs.Reached.{IsWeakClosureOf};
ghost use Rattle.rp_evidence.specs.Input.{input_of_table};
ghost use Rattle.rp_evidence.specs.Kinds.{IsOfKind};
ghost use Rattle.rp_evidence.specs.declared.certificate.Kind.TheVariants.{Table};
ghost use Rattle.rp_evidence.specs.Clauses.{InOrder};

use crate::demand::check_demand;
use crate::levels::check_no_levels;
use crate::welfare::check_welfare;
use rp_clauses::afriat::check_afriat;
use rp_clauses::closure::Reachability;
use rp_clauses::efficiency::check_efficiency;
use rp_clauses::garp::check_garp;
use rp_clauses::homothetic::check_homothetic;
use rp_clauses::input::Input;
use rp_clauses::quasilinear::check_quasilinear;
use rp_clauses::standard::Standard;
use rp_evidence::{DemandPart, Failure, Garp, Item, WelfarePart};

/// Whether the item shows by ranks that the generalized axiom holds.
pub fn shows_garp(item: &Item) -> bool
    ensures { result ≡ shows_garp item.now }
{
    matches!(item, Item::Garp(Garp::Ranks(_)))
}

/// Checks an item; `garp_shown` says whether an item before it shows by ranks that the axiom holds.
pub fn check_item(
    input: &Input<'_>,
    closure: &Reachability,
    garp_shown: bool,
    item: &Item,
) -> Result<(), Failure>
    requires closure { IsWeakClosureOf closure.now (input_of_table input.now.table.now) }
    requires kind { IsOfKind Table item.now }
    ensures { ItemFails (input_of_table input.now.table.now) garp_shown item.now result }
{
    match item {
        Item::Garp(evidence) => check_garp(input, Standard::Own, evidence),
        Item::Afriat(evidence) => check_afriat(input, evidence),
        Item::Efficiency(evidence) => check_efficiency(input, evidence),
        Item::Homothetic(evidence) => check_homothetic(input, evidence),
        Item::Quasi(evidence) => check_quasilinear(input, evidence),
        Item::Demand { prices, m, part } => {
            check_demand_item(input, closure, garp_shown, prices.as_slice(), *m, part)
        }
        Item::Welfare { prices, of, part } => {
            check_welfare_item(input, closure, garp_shown, prices.as_slice(), *of, part)
        }
        Item::Random { .. } => Ok(()),
    }
}

/// Checks an item on demand, which is about tables without levels.
fn check_demand_item(
    input: &Input<'_>,
    closure: &Reachability,
    garp_shown: bool,
    prices: &[u32],
    m: u64,
    part: &DemandPart,
) -> Result<(), Failure>
    requires closure { IsWeakClosureOf closure.now (input_of_table input.now.table.now) }
    ensures { InOrder (SomeLevelsFail input.now.table.now.levels
        ∷ DemandFails (input_of_table input.now.table.now) garp_shown prices.now m part.now
        ∷ []) result }
{
    check_no_levels(input.table)?;
    check_demand(input, closure, garp_shown, prices, m, part)
}

/// Checks an item on welfare, which is about tables without levels.
fn check_welfare_item(
    input: &Input<'_>,
    closure: &Reachability,
    garp_shown: bool,
    prices: &[u32],
    of: u32,
    part: &WelfarePart,
) -> Result<(), Failure>
    requires closure { IsWeakClosureOf closure.now (input_of_table input.now.table.now) }
    ensures { InOrder (SomeLevelsFail input.now.table.now.levels
        ∷ WelfareFails (input_of_table input.now.table.now) garp_shown prices.now of part.now
        ∷ []) result }
{
    check_no_levels(input.table)?;
    check_welfare(input, closure, garp_shown, prices, of, part)
}
