//! Altered evidence on menus.
ghost use Rattle.std.specs.Prelude.{IfOk};
ghost use Rattle.rp_orders.specs.OrderMixtures.{AreUnitsOf};

use crate::altered::altered_menus::{CASES, COUNT, TABLES};
use crate::altered::numbers::Numbers;
use rp_evidence::Share;
use rp_menu::{Menus, read_menus};
use rp_num::Seq;
use rp_orders::{MenuPart, check_menu};
use rp_patch::apportion;
use rp_patch::apportionment::Units;
use std::alloc::Global;
use std::test::Fail;

/// The menus of a file, with the units of their cells.
fn menus_of(alloc: Global, file: &str) -> Result<(Menus, Units), Fail>
    ensures { IfOk result (λ made. AreUnitsOf made.0 made.1) }
{
    let seen = read_menus(alloc, file.as_bytes())?;
    let units = apportion(alloc, seen.groups(), seen.counts(), None)?;
    Ok((seen, units))
}

/// The next orders with their weights.
fn parts(alloc: Global, numbers: &mut Numbers) -> Result<Seq<Share>, Fail> {
    let mut parts = Vec::new(alloc);
    for _ in 0..numbers.next_u32() {
        let patches = numbers.list_u32(alloc)?;
        let weight = numbers.next_u64();
        parts.push(Share { patches, weight })?;
    }
    Ok(Seq::from_vec(parts))
}

/// The next evidence: a mixture, or a violation.
fn evidence(alloc: Global, numbers: &mut Numbers) -> Result<MenuPart, Fail> {
    let is_mixture = numbers.next() == 0;
    let den = numbers.next_u64();
    let parts = parts(alloc, numbers)?;
    if is_mixture {
        return Ok(MenuPart::Mixture { den, parts });
    }
    let weights = numbers.list_u64(alloc)?;
    Ok(MenuPart::Violated {
        den,
        parts,
        weights,
    })
}

/// Whether the next evidence is accepted on the menus that it names.
fn accepted(alloc: Global, numbers: &mut Numbers) -> Result<bool, Fail> {
    let file = TABLES[numbers.next_u32() as usize % TABLES.len()];
    let part = evidence(alloc, numbers)?;
    let (seen, units) = menus_of(alloc, file)?;
    Ok(check_menu(&seen, &units, &part))
}

#[test]
fn altered_evidence_on_menus(rt: HostRuntime) -> Result<(), Fail> {
    let alloc = rt.alloc();
    let mut numbers = Numbers::of(alloc, CASES)?;
    for case in 0..COUNT {
        let accepted = accepted(alloc, &mut numbers)?;
        assert!(rt; accepted == (numbers.next() == 1), "{case}");
    }
    Ok(())
}
