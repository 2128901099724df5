//! Choices from menus with their units, and evidence on them.
ghost use Rattle.std.specs.Prelude.{◌≤◌, IfOk, IfSome};
ghost use Rattle.rp_orders.specs.OrderMixtures.{AreUnitsOf};

use rp_evidence::Share;
use rp_limits::patch::UNITS;
use rp_menu::{Menus, read_menus};
use rp_num::Seq;
use rp_orders::{MenuPart, check_menu, report_menus};
use rp_patch::apportion;
use rp_patch::apportionment::Units;
use std::alloc::Global;
use std::process::Abort;
use std::test::Fail;

/// Asserts that so many units may be asked.
pub(crate) fn assert_unit(rt: &impl Abort, unit: Option<u32>)
    ensures { IfSome unit (λ n. (1 ≤ n) × (n ≤ UNITS)) }
{
    if let Some(unit) = unit {
        assert!(rt; 1 <= unit && unit <= UNITS);
    }
}

/// The menus of a file, with the units of their cells.
pub(crate) fn menus_of(
    rt: &impl Abort,
    alloc: Global,
    file: &str,
    unit: Option<u32>,
) -> Result<(Menus, Units), Fail>
    ensures { IfOk result (λ made. AreUnitsOf made.0 made.1) }
{
    assert_unit(rt, unit);
    let seen = read_menus(alloc, file.as_bytes())?;
    let units = apportion(alloc, seen.groups(), seen.counts(), unit)?;
    Ok((seen, units))
}

/// Orders, by their letters from 0, and their weights.
pub(crate) type Parts = &'static [(&'static [u32], u64)];

/// Evidence, by what it says in numbers.
#[derive(Clone, Copy)]
pub(crate) enum Evidence {
    /// A mixture over a denominator.
    Mixture(u64, Parts),
    /// A partial mixture over a denominator, and the weights of the cells.
    Violation(u64, Parts, &'static [u64]),
    /// The step from which it is withheld.
    Withheld(u64),
}

/// The parts.
fn listed(alloc: Global, parts: Parts) -> Result<Seq<Share>, Fail> {
    let mut listed = Vec::new(alloc);
    for (order, weight) in parts {
        let patches = Seq::from_vec(order.to_vec(alloc)?);
        listed.push(Share {
            patches,
            weight: *weight,
        })?;
    }
    Ok(Seq::from_vec(listed))
}

/// A mixture over `den`.
fn mixture(alloc: Global, den: u64, parts: Parts) -> Result<MenuPart, Fail> {
    let parts = listed(alloc, parts)?;
    Ok(MenuPart::Mixture { den, parts })
}

/// A violation: a partial mixture over `den`, and the weights of the cells.
fn violation(alloc: Global, den: u64, parts: Parts, weights: &[u64]) -> Result<MenuPart, Fail> {
    let weights = Seq::from_vec(weights.to_vec(alloc)?);
    let parts = listed(alloc, parts)?;
    Ok(MenuPart::Violated {
        den,
        parts,
        weights,
    })
}

/// The evidence as the check takes it.
fn part_of(alloc: Global, evidence: Evidence) -> Result<MenuPart, Fail> {
    match evidence {
        Evidence::Mixture(den, parts) => mixture(alloc, den, parts),
        Evidence::Violation(den, parts, weights) => violation(alloc, den, parts, weights),
        Evidence::Withheld(step) => Ok(MenuPart::Wide { step }),
    }
}

/// Whether the evidence is accepted on the choices of a file.
pub(crate) fn accepts(
    rt: &impl Abort,
    alloc: Global,
    file: &str,
    evidence: Evidence,
) -> Result<bool, Fail> {
    let part = part_of(alloc, evidence)?;
    let (seen, units) = menus_of(rt, alloc, file, None)?;
    Ok(check_menu(&seen, &units, &part))
}

/// The report on evidence, or that it is rejected.
fn report_of(
    alloc: Global,
    seen: &Menus,
    units: &Units,
    part: &MenuPart,
    unit: Option<u32>,
) -> Result<String, Fail>
    requires { AreUnitsOf seen.now units.now }
{
    if !check_menu(seen, units, part) {
        return Ok(String::from_str(alloc, "rejected")?);
    }
    let text = report_menus(alloc, seen, units, part, unit)?;
    Ok(String::from_utf8(text)?)
}

/// The report on evidence on the choices of a file, or that it is rejected.
pub(crate) fn reported(
    rt: &impl Abort,
    alloc: Global,
    file: &str,
    unit: Option<u32>,
    evidence: Evidence,
) -> Result<String, Fail> {
    let part = part_of(alloc, evidence)?;
    let (seen, units) = menus_of(rt, alloc, file, unit)?;
    report_of(alloc, &seen, &units, &part, unit)
}
