//! Altered evidence on cost.
use crate::altered::altered_costs::{ASKED, CASES, COUNT, TABLES};
use crate::altered::numbers::Numbers;
use rp_cost::{CostBounds, Upper, check_cost, read_asked, read_tech};
use rp_evidence::Bound;
use rp_farkas::{Entry, Pair};
use rp_num::{Frac, Seq};
use std::alloc::Global;
use std::process::Abort;
use std::test::Fail;

/// The next bound from above, where there is one.
fn upper(numbers: &mut Numbers) -> Option<Upper> {
    if numbers.next() == 0 {
        return None;
    }
    let cost = numbers.next_u64();
    let at = numbers.next_u32();
    Some(Upper { cost, at })
}

/// The next pair.
fn pair(alloc: Global, numbers: &mut Numbers) -> Result<Pair, Fail> {
    let den = numbers.next_u64();
    let mut y = Vec::new(alloc);
    for _ in 0..numbers.next_u32() {
        let at = numbers.next_u32();
        let value = numbers.next_u64();
        y.push(Entry { at, value })?;
    }
    let x = numbers.list_u64(alloc)?;
    let y = Seq::from_vec(y);
    Ok(Pair { den, y, x })
}

/// The next bound from below.
fn lower<R: Abort>(rt: &R, alloc: Global, numbers: &mut Numbers) -> Result<Bound, Fail> {
    let (num, den) = (numbers.next_u64(), numbers.next_u64());
    assert!(rt; den > 0);
    let pair = pair(alloc, numbers)?;
    let value = Frac::new(u128::from(num), u128::from(den));
    Ok(Bound::Shown { value, pair })
}

/// Whether the next bounds are accepted on the technology that they name, of the output that is asked there.
fn accepted<R: Abort>(rt: &R, alloc: Global, numbers: &mut Numbers) -> Result<bool, Fail> {
    let named = numbers.next_u32() as usize;
    let tech = read_tech(alloc, TABLES[named % TABLES.len()].as_bytes())?;
    let asked = read_asked(alloc, ASKED[named % ASKED.len()].as_bytes(), &tech)?;
    let y = numbers.next_u32();
    assert!(rt; y < asked.count());
    let prices = asked.row(y);
    assert!(rt; prices.len() == tech.inputs() as usize);
    let upper = upper(numbers);
    let lower = lower(rt, alloc, numbers)?;
    let bounds = CostBounds { upper, lower };
    Ok(check_cost(&tech, prices, asked.y(y), &bounds))
}

#[test]
fn altered_bounds_on_cost(rt: HostRuntime) -> Result<(), Fail> {
    let alloc = rt.alloc();
    let mut numbers = Numbers::of(alloc, CASES)?;
    for case in 0..COUNT {
        let accepted = accepted(&rt, alloc, &mut numbers)?;
        assert!(rt; accepted == (numbers.next() == 1), "{case}");
    }
    Ok(())
}
