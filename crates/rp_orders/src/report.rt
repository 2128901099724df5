//! The report on choices from menus.
ghost use Rattle.std.specs.Prelude.{◌≡◌, ◌≤◌, ◌<◌, ◌*◌, ◌^◌, ◌++◌, IfOk, List, OnOk, ℕ, length};
ghost use Rattle.rp_limits.specs.declared.menu.TheConstants.{LETTERS};
ghost use Rattle.rp_orders.specs.MenuEvidence.{PassesMenus};
ghost use Rattle.rp_orders.specs.OrderKinds.{orders_over};
ghost use Rattle.rp_orders.specs.OrderMixtures.{AreUnitsOf};
ghost use Rattle.rp_orders.specs.Report.{IsMenusReport, IsSumsText, counts_text, evidence_text};
ghost use Rattle.rp_orders.specs.Report.{menu_text, sum_text};
ghost use Rattle.rp_farkas.specs.Limits.{FitsEvidence};
ghost use Rattle.rp_patch.specs.Kinds.{all_units_weight};
ghost use Rattle.rp_print.specs.LowestTerms.{lowest_terms};

use crate::choosers::OrdersOver;
use crate::least::{LeastSum, least_sum};
use crate::orders::all_orders;
use crate::sums::is_complete;
use rp_evidence::RandomPart;
use rp_limits::menu::LETTERS;
use rp_menu::{Menus, has_letter};
use rp_num::{Frac, NoMemory};
use rp_patch::apportionment::Units;
use rp_patch::weight_of_units;
use rp_print::{
    LongNumber, Number, Print, Signed, lowest_terms, push_after, push_apportioned, push_mixture,
    push_number_line, push_violation,
};
use std::alloc::Global;

/// The report on choices from menus, with so many units on each menu where that was asked for.
pub fn report_menus(
    alloc: Global,
    seen: &Menus,
    units: &Units,
    part: &RandomPart,
    per: Option<u32>,
) -> Result<Vec<u8>, NoMemory>
    requires units { AreUnitsOf seen.now units.now }
    requires accepted { PassesMenus seen.now units.now part.now }
    ensures { IfOk result (λ text.
        IsMenusReport seen.now units.now part.now per text.items) }
{
    let orders = all_orders(alloc, seen)?;
    let mut text = Vec::new(alloc);
    push_counts(alloc, &mut text, seen, orders.len() as u32, units.total)?;
    push_apportioned(alloc, &mut text, per)?;
    push_evidence(alloc, &mut text, seen, units, part)?;
    push_sums(alloc, &mut text, seen, units)?;
    Ok(text)
}

/// A letter from a on, which is counted from 0.
struct Letter;

impl Print for Letter {
    ghost use Rattle.rp_orders.specs.Report.{letter_text};

    type Entry = u32;

    ghost text = { letter_text };

    fn push(_alloc: Global, out: &mut Vec<u8>, entry: u32) -> Result<(), NoMemory> {
        if entry < LETTERS {
            out.push(b'a' + entry as u8)?;
        }
        Ok(())
    }
}

/// Appends the line on the menus, of which so many orders pick cells alone.
fn push_counts(
    alloc: Global,
    out: &mut Vec<u8>,
    seen: &Menus,
    orders: u32,
    total: u64,
) -> Result<(), NoMemory>
    ensures { OnOk result (out.new.items ≡ out.old.items ++ counts_text seen.now orders total) }
{
    push_after::<Number>(alloc, out, b"alternatives ", seen.letters())?;
    push_after::<Number>(alloc, out, b" menus ", seen.count())?;
    push_after::<Number>(alloc, out, b" cells ", seen.cells())?;
    push_after::<Number>(alloc, out, b" orders ", orders)?;
    push_after::<LongNumber>(alloc, out, b" total ", total)?;
    out.push(b'\n')?;
    Ok(())
}

/// Appends the lines of the evidence.
fn push_evidence(
    alloc: Global,
    out: &mut Vec<u8>,
    seen: &Menus,
    units: &Units,
    part: &RandomPart,
) -> Result<(), NoMemory>
    requires units { AreUnitsOf seen.now units.now }
    requires accepted { PassesMenus seen.now units.now part.now }
    ensures { OnOk result (out.new.items ≡ out.old.items ++ evidence_text units.now part.now) }
{
    match part {
        RandomPart::Mixture { den, parts } => {
            push_mixture::<Letter>(alloc, out, b"menus", *den, parts.as_slice())
        }
        RandomPart::Violated {
            den,
            parts,
            weights,
        } => {
            let weights = weights.as_slice();
            let share = share(seen, units, *den, weights);
            push_violation::<Letter>(alloc, out, b"menus", share, *den, weights, parts.as_slice())
        }
        RandomPart::Wide { step } => push_number_line(alloc, out, b"menus withheld ", *step),
    }
}

/// What the units of the cells weigh over the denominator, as a share of the total.
fn share(seen: &Menus, units: &Units, den: u64, weights: &[u64]) -> Frac
    requires units { AreUnitsOf seen.now units.now }
    requires fraction { 1 ≤ den }
    requires den_fits { FitsEvidence den }
    requires one_each { length weights.now ≡ length seen.now.groups }
    ensures { result ≡ lowest_terms
        (all_units_weight (orders_over seen.now units.now) weights.now) (den * units.now.total) }
{
    let whole = u128::from(den) * u128::from(units.total);
    let weight = weight_of_units(&OrdersOver::make(seen, units), weights);
    lowest_terms(weight, whole)
}

/// Appends the line of the least sum, where the data are complete.
fn push_sums(alloc: Global, out: &mut Vec<u8>, seen: &Menus, units: &Units) -> Result<(), NoMemory>
    requires { AreUnitsOf seen.now units.now }
    ensures { OnOk result ((sums : List ℕ) × IsSumsText seen.now units.now sums
        × (out.new.items ≡ out.old.items ++ sums)) }
{
    if !is_complete(seen) {
        return Ok(());
    }
    prove!(seen.letters() <= LETTERS);
    push_least(alloc, out, least_sum(seen, units))
}

/// Appends the line of the least sum.
fn push_least(alloc: Global, out: &mut Vec<u8>, least: LeastSum) -> Result<(), NoMemory>
    requires { least.menu < 2 ^ LETTERS }
    ensures { OnOk result (
        out.new.items ≡ out.old.items ++ sum_text least.sum least.letter least.menu) }
{
    push_after::<Signed>(alloc, out, b"sums least ", least.sum)?;
    push_after::<Letter>(alloc, out, b" at ", least.letter)?;
    out.extend_from_slice(b" in ")?;
    push_menu(alloc, out, least.menu)?;
    out.push(b'\n')?;
    Ok(())
}

/// Appends the letters of a menu.
fn push_menu(alloc: Global, out: &mut Vec<u8>, menu: u32) -> Result<(), NoMemory>
    requires { menu < 2 ^ LETTERS }
    ensures { OnOk result (out.new.items ≡ out.old.items ++ menu_text menu) }
{
    for letter in 0..LETTERS {
        if has_letter(menu, letter) {
            Letter::push(alloc, out, letter)?;
        }
    }
    Ok(())
}
