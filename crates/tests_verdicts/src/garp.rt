//! Tests of the axiom: whether it holds, by evidence and without, and the first pair that violates it, at levels too.
use crate::shared::costs_of;
use rp_evidence::Garp;
use rp_garp::{garp, meets_garp, pairs};
use std::alloc::Global;
use std::process::Abort;
use std::test::Fail;
use tests_inputs::tables::{
    ALONE, AT_799, AT_800, AT_ALL, CONTRADICTION, MORE_AND_LESS, MORE_AND_LESS_AT_ALL,
};

/// Whether the axiom holds, as the test without evidence has it.
fn is_met(alloc: Global, file: &str) -> Result<bool, Fail> {
    let costs = costs_of(alloc, file)?;
    Ok(meets_garp(alloc, &costs)?)
}

/// The verdict with its evidence.
fn verdict_of(alloc: Global, file: &str) -> Result<Garp, Fail> {
    let costs = costs_of(alloc, file)?;
    Ok(garp(alloc, &costs)?)
}

/// Whether a verdict says that the axiom holds.
fn is_ranked(verdict: &Garp) -> bool {
    match verdict {
        Garp::Ranks(_) => true,
        Garp::Cycle(_) => false,
    }
}

/// Whether a verdict has this evidence, which is the ranks or the cycle.
fn has_evidence(verdict: &Garp, evidence: &[u32]) -> bool {
    match verdict {
        Garp::Ranks(list) | Garp::Cycle(list) => list.as_slice() == evidence,
    }
}

/// The first two observations that contradict each other.
fn first_pair(alloc: Global, file: &str) -> Result<Option<(u32, u32)>, Fail> {
    let costs = costs_of(alloc, file)?;
    Ok(pairs(&costs))
}

/// A table, the first two observations that contradict each other, whether the axiom holds, and the ranks or the cycle.
type VerdictCase = (&'static str, Option<(u32, u32)>, bool, &'static [u32]);

/// Asserts whether the axiom holds, by evidence and without.
fn assert_met(rt: &impl Abort, alloc: Global, cases: &[(&'static str, bool)]) -> Result<(), Fail> {
    for (file, holds) in cases {
        assert!(rt; is_met(alloc, file)? == *holds, "{file}");
        let verdict = verdict_of(alloc, file)?;
        assert!(rt; is_ranked(&verdict) == *holds, "{file}, by evidence");
    }
    Ok(())
}

/// Asserts pairs, and verdicts with their evidence.
fn assert_verdicts(rt: &impl Abort, alloc: Global, cases: &[VerdictCase]) -> Result<(), Fail> {
    for (file, pair, holds, evidence) in cases {
        assert!(rt; first_pair(alloc, file)? == *pair, "{file}");
        let verdict = verdict_of(alloc, file)?;
        assert!(rt; is_ranked(&verdict) == *holds, "{file}");
        assert!(rt; has_evidence(&verdict, evidence), "{file}");
    }
    Ok(())
}

const TABLES: [(&'static str, bool); 8] = [
    // one observation
    (ALONE, true),
    // all of one bundle less than the other
    (MORE_AND_LESS, true),
    // each weakly preferred to the other, neither strictly
    ("p_a,q_a,p_b,q_b\n1,1,1,2\n1,2,1,1\n", true),
    // each strictly preferred to the other
    (CONTRADICTION, false),
    // one weakly preferred to the other, and that one strictly to it
    ("p_a,q_a,p_b,q_b\n1,1,1,2\n2,2,1,1\n", false),
    // three of which no two contradict each other
    (
        "p_a,q_a,p_b,q_b,p_c,q_c\n1,3,4,2,4,4\n3,3,2,3,4,2\n3,1,4,4,1,3\n",
        false,
    ),
    // held to levels, at one of which the second bundle costs as much as what counts, and at the other more
    (AT_800, false),
    (AT_799, true),
];

/// Tables on which the axiom holds, and others on which it does not; the verdict with evidence is the same.
#[test]
fn whether_the_axiom_holds(rt: HostRuntime) -> Result<(), Fail> {
    assert_met(&rt, rt.alloc(), &TABLES)
}

const VERDICTS: [VerdictCase; 5] = [
    (AT_800, Some((0, 1)), false, &[0, 1, 0]),
    (AT_799, None, true, &[1, 2]),
    (AT_ALL, Some((0, 1)), false, &[0, 1, 0]),
    (CONTRADICTION, Some((0, 1)), false, &[0, 1, 0]),
    (MORE_AND_LESS_AT_ALL, None, true, &[2, 1]),
];

/// Pairs, and ranks or the cycle. At the levels 1,000 the verdict is that without levels.
#[test]
fn verdicts_by_own_levels(rt: HostRuntime) -> Result<(), Fail> {
    assert_verdicts(&rt, rt.alloc(), &VERDICTS)
}
