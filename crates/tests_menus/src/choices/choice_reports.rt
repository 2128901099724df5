//! Reports on choices from budgets.
use crate::choices::lines::RANDOM;
use std::test::Fail;
use tests_inputs::choices::{
    COPRIME, CROSSED, DEAR, HALVES, IRRATIONAL, MIXTURE, ONE_BUDGET, ONE_CHOICE, VIOLATION,
};
use tests_support::prints;

/// Budgets, choices and the report on them.
const REPORTS: &[(&str, &str, &str)] = &[
    (
        CROSSED,
        VIOLATION,
        "budgets 2 patches 4 types 3 total 4\nrandom violated share 3/4\nweights 1 0 1 0 over 1\n\
        part 1 4 weight 1\npart 2 3 weight 2\n",
    ),
    // the same, with columns in another order, numbers with places, bundles along the same rays, and one that
    // nobody chose
    (
        "w,p_b,obs,p_a\n0.4,2,one,1\n0.40,1,two,2\n",
        "q_a,n,obs,q_b,budget\n0.2,1,x,0.1,1\n0,2,x,0.5,1\n0.0,1,x,1.25,1\n1,2,x,2,2\n7,2,x,0,2\n9,0,x,1,1\n",
        "budgets 2 patches 4 types 3 total 4\nrandom violated share 3/4\nweights 1 0 1 0 over 1\n\
        part 1 4 weight 1\npart 2 3 weight 2\n",
    ),
    (
        CROSSED,
        MIXTURE,
        "budgets 2 patches 4 types 3 total 4\nrandom mixture over 1\npart 1 3 weight 1\n\
        part 1 4 weight 2\npart 2 3 weight 1\n",
    ),
    (
        CROSSED,
        IRRATIONAL,
        "budgets 2 patches 2 types 0 total 1\nrandom violated share 0\nweights 0 0 over 1\n",
    ),
    (
        ONE_BUDGET,
        ONE_CHOICE,
        "budgets 1 patches 1 types 1 total 7\nrandom mixture over 1\npart 1 weight 7\n",
    ),
    (
        DEAR,
        HALVES,
        "budgets 3 patches 9 types 16 total 3\nrandom mixture over 2\npart 1 5 9 weight 1\n\
        part 1 6 8 weight 1\npart 2 4 8 weight 1\npart 2 6 7 weight 1\npart 3 4 7 weight 1\n\
        part 3 5 9 weight 1\n",
    ),
];

/// What is found of choices from budgets, and how many units were asked for.
#[test]
fn reports_of_choices_from_budgets(rt: HostRuntime) -> Result<(), Fail> {
    for (budgets, choices, text) in REPORTS {
        prints(
            rt.alloc(),
            RANDOM,
            &[("b.csv", budgets), ("c.csv", choices)],
            text,
        )?;
    }
    Ok(())
}

/// How many units are asked for, choices and the report on them.
const OF_UNITS: &[(&str, &str, &str)] = &[
    (
        "100",
        COPRIME,
        "budgets 2 patches 2 types 1 total 100\napportioned per 100\nrandom mixture over 1\n\
        part 1 2 weight 100\n",
    ),
    (
        "100",
        VIOLATION,
        "budgets 2 patches 4 types 3 total 100\napportioned per 100\nrandom violated share 3/4\n\
        weights 1 0 1 0 over 1\npart 1 4 weight 25\npart 2 3 weight 50\n",
    ),
    // as many as there are without being asked for
    (
        "4",
        VIOLATION,
        "budgets 2 patches 4 types 3 total 4\napportioned per 4\nrandom violated share 3/4\n\
        weights 1 0 1 0 over 1\npart 1 4 weight 1\npart 2 3 weight 2\n",
    ),
    // of 1, 3 and 2, 2 in four: 1, 2 and 2, 1 in three, and 0, 1 and 1, 0 in one
    (
        "3",
        VIOLATION,
        "budgets 2 patches 4 types 3 total 3\napportioned per 3\nrandom mixture over 1\n\
        part 1 4 weight 1\npart 2 3 weight 2\n",
    ),
    (
        "1",
        VIOLATION,
        "budgets 2 patches 4 types 3 total 1\napportioned per 1\nrandom mixture over 1\n\
        part 2 3 weight 1\n",
    ),
    (
        "1000000000",
        VIOLATION,
        "budgets 2 patches 4 types 3 total 1000000000\napportioned per 1000000000\n\
        random violated share 3/4\nweights 1 0 1 0 over 1\npart 1 4 weight 250000000\n\
        part 2 3 weight 500000000\n",
    ),
];

/// What a budget's patches miss to the units that are asked for goes to the largest remainders.
#[test]
fn reports_of_so_many_units(rt: HostRuntime) -> Result<(), Fail> {
    for (per, choices, text) in OF_UNITS {
        let words = &["rp", "random", "b.csv", "c.csv", "--per", *per];
        prints(
            rt.alloc(),
            words,
            &[("b.csv", CROSSED), ("c.csv", choices)],
            text,
        )?;
    }
    Ok(())
}
