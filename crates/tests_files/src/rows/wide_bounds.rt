//! The rows of bounds as they are stated, and filled.
use crate::rows::bounds::bounds_of;
use rp_bound_rows::{AsStated, BoundsAsked};
use rp_bound_rows_wide::Filled;
use std::alloc::Global;
use std::process::Abort;
use std::test::Fail;

/// A long file, a file of new prices, and the lines below the header as they are stated and filled.
type Case = (&'static str, &'static str, &'static str, &'static str);

/// The tableaus of the programs of `S` pass 2^63 - 1; `B` violates the axiom.
const DEMAND: Case = (
    "household,p_a,q_a,p_b,q_b,p_c,q_c\n\
    S,9999999,2,1,2,1,2\nS,1,1,9999991,1,1,1\nS,1,1,1,1,9999973,1\n\
    B,1,1,2,2,1,1\nB,2,2,1,1,1,1\n",
    "p_a,p_b,p_c,m\n1,1,1,10000000\n",
    "S,3,3,1,a,withheld,,10000000,10000000.000000,,,\n\
    S,3,3,1,b,withheld,,withheld,,,,\n\
    S,3,3,1,c,withheld,,withheld,,,,\n\
    B,2,3,1,a,violated,,violated,,,,\n\
    B,2,3,1,b,violated,,violated,,,,\n\
    B,2,3,1,c,violated,,violated,,,,\n",
    "S,3,3,1,a,5000001/4999999,1.000000,10000000,10000000.000000,,,\n\
    S,3,3,1,b,0,0.000000,49999984999999/4999999,9999999.000000,,,\n\
    S,3,3,1,c,0,0.000000,49999984999999/4999999,9999999.000000,,,\n\
    B,2,3,1,a,violated,,violated,,,,\n\
    B,2,3,1,b,violated,,violated,,,,\n\
    B,2,3,1,c,violated,,violated,,,,\n",
);

/// The lower bound of the second observation is withheld.
const WELFARE: Case = (
    "household,p_a,q_a,p_b,q_b,p_c,q_c\n\
    T,1,4,9999276,7,76,3\nT,4,2,9999992,9,34,7\nT,9999111,1,9999577,8,9999831,3\n",
    "p_a,p_b,p_c\n9999241,1,1\n",
    "T,3,3,1,1,17498791/2499819,7.000023,19998498,19998498.000000,,,\n\
    T,3,3,1,2,withheld,,19998498,19998498.000000,,,\n\
    T,3,3,1,3,119995220/9999831,11.999724,9999252,9999252.000000,,,\n",
    "T,3,3,1,1,17498791/2499819,7.000023,19998498,19998498.000000,,,\n\
    T,3,3,1,2,599985010122478/49998945007867,11.999953,19998498,19998498.000000,,,\n\
    T,3,3,1,3,119995220/9999831,11.999724,9999252,9999252.000000,,,\n",
);

/// The rows are these as they are stated, and these when they are filled.
fn check_case(rt: &impl Abort, alloc: Global, asked: BoundsAsked, case: &Case) -> Result<(), Fail> {
    let (file, new, stated, filled) = *case;
    let found = bounds_of::<AsStated>(alloc, asked, file, new, &[])?;
    assert!(rt;
        found.as_slice().ends_with(stated.as_bytes()),
        "{file}{new}"
    );
    let found = bounds_of::<Filled>(alloc, asked, file, new, &[])?;
    assert!(rt;
        found.as_slice().ends_with(filled.as_bytes()),
        "{file}{new}"
    );
    Ok(())
}

#[test]
fn withheld_bounds_on_demand_are_filled(rt: HostRuntime) -> Result<(), Fail> {
    check_case(&rt, rt.alloc(), BoundsAsked::Demand, &DEMAND)
}

#[test]
fn withheld_bounds_on_the_money_metric_are_filled(rt: HostRuntime) -> Result<(), Fail> {
    check_case(&rt, rt.alloc(), BoundsAsked::Welfare, &WELFARE)
}
