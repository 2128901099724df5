//! Tests of walks with totals: the least ones, a total that does not fit, and the quasilinear sums.
ghost use Rattle.std.specs.Prelude.{◌≡◌, ◌<◌, ◌≤◌};
ghost use Rattle.tests_verdicts.specs.Ladder.{ladder_cost};
ghost use Rattle.rp_limits.specs.declared.walk.TheConstants.{MOST_OBSERVATIONS};

use crate::shared::costs_of;
use rp_evidence::Quasi;
use rp_num::Wide;
use rp_quasi::quasilinear;
use rp_walk::{Settled, Total, settle};
use std::alloc::Global;
use std::process::Abort;
use std::test::Fail;
use tests_inputs::tables::{ALONE, APART, CONTRADICTION, MORE_AND_LESS, NINE_TENTHS, THREE};

/// A total of the test's own: sums over observations in a row, of which only -1, 0 and 1 fit.
#[derive(Drop)]
struct Ladder {
    n: u32,
    ghost few: { (1 ≤ n) × (n ≤ MOST_OBSERVATIONS) },
}

impl Ladder {
    fn cost(&self, t: u32, s: u32) -> u8
        requires t_in { t < self.now.n }
        requires s_in { s < self.now.n }
        ensures value { result ≡ ladder_cost t s }
        ensures small { result ≤ 2 }
    {
        if s == t + 1 {
            0
        } else if t == s + 1 {
            2
        } else {
            1
        }
    }
}

impl Total for Ladder {
    type Value = i8;

    ghost use Rattle.rp_evidence.specs.Quasilinear.{step_sum};
    ghost use Rattle.tests_verdicts.specs.Ladder.{FitsOne, ladder_cost};
    ghost use Rattle.rp_walk.specs.Sums.{sums, whole_total};
    ghost use Rattle.rp_walk.proofs.Rounds.{SameTotal-trans};
    ghost use Rattle.rp_walk.proofs.SumLaws.{step_sums_stay, sums_keep_order};
    ghost use Rattle.std.proofs.Common.{sym};

    ghost rule = { λ a. sums a.n (step_sum ladder_cost) };

    ghost exact = { whole_total };

    ghost fits = { FitsOne };

    fn n(&self) -> u32 {
        self.n
    }

    fn start(&self) -> i8 {
        0
    }

    fn step(&self, v: i8, t: u32, s: u32) -> Result<i8, Wide> {
        let sum = i16::from(v) + i16::from(self.cost(t, s)) - i16::from(self.cost(t, t));
        if sum <= 1 && -1 <= sum {
            Ok(sum as i8)
        } else {
            Err(Wide)
        }
    }

    fn less(&self, a: i8, b: i8) -> bool {
        a < b
    }

    fn pair_breaks(&self, s: u32, t: u32) -> bool {
        self.cost(s, t) + self.cost(t, s) < self.cost(s, s) + self.cost(t, t)
    }

    ghost keeps_order = { λ a. sums_keep_order a.n (step_sum ladder_cost) };

    ghost stays = { λ a. step_sums_stay a.n ladder_cost };

    ghost fits_alike = { λ x y h f. (
      f.0,
      f.1,
      f.2,
      SameTotal-trans y x (whole_total f.0) (sym h) f.3,
    ) };
}

/// The least totals of so many observations in a row.
fn settled(rt: &impl Abort, alloc: Global, n: u32) -> Result<Settled<i8>, Fail> {
    assert!(rt; 1 <= n && n <= 4_096);
    Ok(settle(alloc, &Ladder { n })?)
}

/// Whether these are the least totals.
fn has_totals(settled: &Settled<i8>, totals: &[i8]) -> bool {
    match settled {
        Settled::Values(found) => found.as_slice() == totals,
        _ => false,
    }
}

/// Whether a total does not fit after so many steps and one more between these.
fn is_too_wide(settled: &Settled<i8>, after: u32, ends: (u32, u32)) -> bool {
    match settled {
        Settled::Wide { steps, from, to } => (*steps, *from, *to) == (after, ends.0, ends.1),
        _ => false,
    }
}

/// The quasilinear verdict on the table in a file.
fn sums_of(alloc: Global, file: &str) -> Result<Quasi, Fail> {
    let costs = costs_of(alloc, file)?;
    Ok(quasilinear(alloc, &costs)?)
}

/// Whether these are the least sums.
fn has_values(verdict: &Quasi, values: &[i128]) -> bool {
    match verdict {
        Quasi::Values(found) => found.as_slice() == values,
        Quasi::Cycle(_) => false,
    }
}

/// Whether this cycle shows that there are none.
fn has_cycle(verdict: &Quasi, cycle: &[u32]) -> bool {
    match verdict {
        Quasi::Cycle(found) => found.as_slice() == cycle,
        Quasi::Values(_) => false,
    }
}

#[test]
fn the_first_step_that_does_not_fit(rt: HostRuntime) -> Result<(), Fail> {
    assert!(rt; is_too_wide(&settled(&rt, rt.alloc(), 3)?, 1, (1, 2)));
    assert!(rt; has_totals(&settled(&rt, rt.alloc(), 2)?, &[0, -1]));
    Ok(())
}

/// Asserts the least sums of each table.
fn assert_values(
    rt: &impl Abort,
    alloc: Global,
    cases: &[(&'static str, &'static [i128])],
) -> Result<(), Fail> {
    for (file, values) in cases {
        let verdict = sums_of(alloc, file)?;
        assert!(rt; has_values(&verdict, values), "{file}");
    }
    Ok(())
}

/// Asserts the cycle of each table, which shows that it has no least sums.
fn assert_cycles(
    rt: &impl Abort,
    alloc: Global,
    cases: &[(&'static str, &'static [u32])],
) -> Result<(), Fail> {
    for (file, cycle) in cases {
        let verdict = sums_of(alloc, file)?;
        assert!(rt; has_cycle(&verdict, cycle), "{file}");
    }
    Ok(())
}

const VALUES: [(&'static str, &'static [i128]); 3] = [
    (APART, &[0, 0]),
    (MORE_AND_LESS, &[0, -4]),
    (ALONE, &[0]),
];

const CYCLES: [(&'static str, &'static [u32]); 3] = [
    (CONTRADICTION, &[0, 1, 0]),
    (NINE_TENTHS, &[0, 1, 0]),
    (THREE, &[0, 1, 2, 0]),
];

#[test]
fn sums_of_worked_tables(rt: HostRuntime) -> Result<(), Fail> {
    assert_values(&rt, rt.alloc(), &VALUES)?;
    assert_cycles(&rt, rt.alloc(), &CYCLES)
}
