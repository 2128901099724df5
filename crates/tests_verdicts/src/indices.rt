//! Tests of the efficiency index and its evidence, on worked tables and near the greatest costs.
use crate::bounds::shared::push_list;
use crate::shared::costs_of;
use rp_effic::efficiency;
use rp_evidence::{Efficiency, Garp};
use std::alloc::Global;
use std::process::Abort;
use std::test::Fail;
use tests_inputs::tables::{ALONE, APART, CONTRADICTION, EQUAL, MORE_AND_LESS, NINE_TENTHS, THREE};

/// The index with its evidence.
fn index_of(alloc: Global, file: &str) -> Result<Efficiency, Fail> {
    let costs = costs_of(alloc, file)?;
    Ok(efficiency(alloc, &costs)?)
}

/// The index, whether it is attained, and the three lists of evidence, with observations counted from 1.
fn text_of(alloc: Global, found: &Efficiency) -> Result<String, Fail> {
    let mut text = format!(in alloc; "{}/{}", found.level.num, found.level.den)?;
    push_list(alloc, &mut text, ", below", found.below.as_slice(), 0)?;
    push_list(alloc, &mut text, ", above", found.above.as_slice(), 1)?;
    match &found.at {
        Garp::Ranks(ranks) => push_list(alloc, &mut text, ", ranks", ranks.as_slice(), 0)?,
        Garp::Cycle(cycle) => push_list(alloc, &mut text, ", cycle", cycle.as_slice(), 1)?,
    }
    Ok(text)
}

/// A table, and its index with the evidence.
type IndexCase = (&'static str, &'static str);

/// Whether the index of a file is told so.
fn is_told(alloc: Global, file: &str, wanted: &str) -> Result<bool, Fail> {
    let found = index_of(alloc, file)?;
    Ok(text_of(alloc, &found)?.as_str() == wanted)
}

/// Asserts the index of each table.
fn assert_indices(rt: &impl Abort, alloc: Global, cases: &[IndexCase]) -> Result<(), Fail> {
    for (file, wanted) in cases {
        assert!(rt; is_told(alloc, file, wanted)?, "the index of {file}");
    }
    Ok(())
}

const INDICES: [IndexCase; 7] = [
    (CONTRADICTION, "4/5, below 1 1, above 1 2 1, ranks 2 2"),
    (APART, "1/1, below 1 1, above, ranks 1 1"),
    (MORE_AND_LESS, "1/1, below 2 1, above, ranks 2 1"),
    (EQUAL, "1/1, below 1 1, above, ranks 2 2"),
    (NINE_TENTHS, "9/10, below 2 1, above 1 2 1, cycle 2 1 2"),
    (THREE, "1/2, below 1 1 1, above 1 2 3 1, ranks 3 3 3"),
    (ALONE, "1/1, below 1, above, ranks 1"),
];

#[test]
fn the_index_of_worked_tables(rt: HostRuntime) -> Result<(), Fail> {
    assert_indices(&rt, rt.alloc(), &INDICES)
}

/// The walk of four steps has the ratios 9/10, 4/5, 7/10 and 3/5, and every other closed walk one above 1.
#[test]
fn the_index_of_a_long_walk_that_no_pair_walks(rt: HostRuntime) -> Result<(), Fail> {
    let file = "p_a,q_a,p_b,q_b,p_c,q_c,p_d,q_d\n\
        10,1,9,0,20,0,20,0\n20,0,10,1,8,0,20,0\n20,0,20,0,10,1,7,0\n6,0,20,0,20,0,10,1\n";
    let wanted = "9/10, below 1 4 3 2, above 1 2 3 4 1, cycle 1 2 3 4 1";
    assert!(rt; is_told(rt.alloc(), file, wanted)?);
    Ok(())
}

/// 2/4 and 3/6 are one level.
#[test]
fn equal_ratios_of_different_pairs(rt: HostRuntime) -> Result<(), Fail> {
    let file = "p_a,q_a,p_b,q_b\n4,1,2,0\n3,0,6,1\n";
    let wanted = "1/2, below 1 1, above 1 2 1, ranks 2 2";
    assert!(rt; is_told(rt.alloc(), file, wanted)?);
    Ok(())
}

/// Two observations of sixteen goods at the greatest prices and quantities, each one less for one good: each spent
/// one more than the other's bundle costs.
fn greatest(alloc: Global) -> Result<String, Fail> {
    let mut file = String::new(alloc);
    for g in 0..16u32 {
        file.push_str(if g > 0 { "," } else { "" })?;
        file.push_str(format!(in alloc; "p_{g},q_{g}")?.as_str())?;
    }
    for least in [15u32, 0] {
        file.push_str("\n")?;
        for g in 0..16u32 {
            file.push_str(if g > 0 { "," } else { "" })?;
            let number = if g == least { "9999998" } else { "9999999" };
            file.push_str(format!(in alloc; "{number},{number}")?.as_str())?;
        }
    }
    file.push_str("\n")?;
    Ok(file)
}

#[test]
fn own_costs_near_the_limit(rt: HostRuntime) -> Result<(), Fail> {
    let file = greatest(rt.alloc())?;
    let wanted = "1599999660000018/1599999660000019, below 1 1, above 1 2 1, ranks 2 2";
    assert!(rt; is_told(rt.alloc(), file.as_str(), wanted)?);
    Ok(())
}
