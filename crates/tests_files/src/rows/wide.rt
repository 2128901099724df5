//! The homothetic test of a row as it is stated, and filled.
use rp_num::Seq;
use rp_rows::{AsStated, Asked, Found, HomotheticTest, Verdict, verdict_row};
use rp_rows_wide::Filled;
use rp_text::read_table;
use std::alloc::Global;
use std::test::Fail;
use tests_inputs::tables::{CONTRADICTION, MORE_AND_LESS};

/// The stated products pass their width, and rounded ones do not.
const ROUND_COSTS: &str = "p_a,q_a,p_b,q_b\n4194304,2097151,1,4194304\n\
    1,1747627,3145727,2796203\n1,4194304,4194304,2097151\n";

/// The verdict of the homothetic test in the row of a household with that file.
fn verdict_on<T: HomotheticTest>(alloc: Global, file: &str) -> Result<Option<Verdict>, Fail> {
    let asked = Asked {
        pump: false,
        power: None,
    };
    let table = read_table(alloc, file.as_bytes())?;
    let id = Seq::from_vec(Vec::new(alloc));
    let kept = Seq::from_vec(Vec::new(alloc));
    let row = verdict_row::<T>(alloc, asked, id, kept, &table)?;
    Ok(homothetic_of(row.found))
}

/// The verdict of the homothetic test that was found, if it was.
fn homothetic_of(found: Found) -> Option<Verdict> {
    match found {
        Found::Verdicts(verdicts) => Some(verdicts.homothetic),
        Found::Fault(_) => None,
    }
}

#[test]
fn what_is_withheld_is_filled(rt: HostRuntime) -> Result<(), Fail> {
    let alloc = rt.alloc();
    assert!(&rt; verdict_on::<AsStated>(alloc, ROUND_COSTS)? == Some(Verdict::Withheld));
    assert!(&rt; verdict_on::<Filled>(alloc, ROUND_COSTS)? == Some(Verdict::Holds));
    Ok(())
}

#[test]
fn what_is_given_stays(rt: HostRuntime) -> Result<(), Fail> {
    let alloc = rt.alloc();
    assert!(&rt; verdict_on::<Filled>(alloc, CONTRADICTION)? == Some(Verdict::Violated));
    assert!(&rt; verdict_on::<Filled>(alloc, MORE_AND_LESS)? == Some(Verdict::Holds));
    Ok(())
}
