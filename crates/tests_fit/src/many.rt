//! Searches on as many observations as a table may have, and searches within few looks.
use crate::searches::{ALL, assert_begins, reported};
use std::alloc::Global;
use std::process::Abort;
use std::test::Fail;
use tests_inputs::tables::THREE;

/// The first line of a report on `blocks`.
const HEAD: &str = "observations 512 goods 16 places 0 0\n";

/// The first line of a table of 16 goods.
const GOODS: &str = "p_a,q_a,p_b,q_b,p_c,q_c,p_d,q_d,p_e,q_e,p_f,q_f,p_g,q_g,p_h,q_h,\
    p_i,q_i,p_j,q_j,p_k,q_k,p_l,q_l,p_m,q_m,p_n,q_n,p_o,q_o,p_p,q_p\n";

/// Appends the line of an observation that buys only goods of this block of two. All other goods are dear.
fn push_row(text: &mut String, block: u32, bought: &str) -> Result<(), Fail> {
    for k in 0..8 {
        if k > 0 {
            text.push(',')?;
        }
        text.push_str(if k == block { bought } else { "9,0,9,0" })?;
    }
    text.push('\n')?;
    Ok(())
}

/// Eight blocks of two goods each. In a block two observations contradict each other (costs 5, 4; 4, 5). Both strictly
/// prefer 62 others, which spend 1 each on one bundle.
fn blocks(alloc: Global) -> Result<String, Fail> {
    let mut text = String::from_str(alloc, GOODS)?;
    for block in 0..8 {
        push_row(&mut text, block, "1,1,2,2")?;
        push_row(&mut text, block, "2,2,1,1")?;
        for _ in 0..62 {
            push_row(&mut text, block, "1,1,1,0")?;
        }
    }
    Ok(text)
}

/// Two observations that contradict each other, 32 times.
fn crowd(alloc: Global) -> Result<String, Fail> {
    let mut text = String::from_str(alloc, "p_a,q_a,p_b,q_b\n")?;
    for _ in 0..32 {
        text.push_str("1,1,2,2\n2,2,1,1\n")?;
    }
    Ok(text)
}

/// The lines of `blocks`. All but 8 are kept. 8 of 512 have the level 4/5, which lacks 1/5 or 1/25. 8 steps are taken
/// away, and each costs 1 of the 576 that was spent.
const OF_BLOCKS: [&str; 4] = [
    "kept 504 of 512",
    "levels mean 219902325555/70368744177664 to 1/320 exact",
    "levels squares 43980465111/70368744177664 to 1/1600 exact",
    "steps 1/72 to 1/72 exact",
];

/// Asserts that the searches find these lines within so many looks.
fn assert_lines(
    rt: &impl Abort,
    alloc: Global,
    text: &str,
    limit: u64,
    lines: [&str; 4],
) -> Result<(), Fail> {
    for i in 0..4 {
        let report = reported(alloc, text, ALL[i], limit)?;
        assert_begins(rt, alloc, report.as_str(), HEAD, lines[i])?;
    }
    Ok(())
}

#[test]
fn the_longest_table(rt: HostRuntime) -> Result<(), Fail> {
    let text = blocks(rt.alloc())?;
    assert_lines(&rt, rt.alloc(), text.as_str(), 1_000_000, OF_BLOCKS)
}

/// Asserts that the checker accepts what each search finds within so many looks.
fn assert_ends(alloc: Global, text: &str, limit: u64) -> Result<(), Fail> {
    for i in 0..4 {
        reported(alloc, text, ALL[i], limit)?;
    }
    Ok(())
}

/// Asserts it within no look, within one look, and within fewer looks than the searches need.
fn assert_each_ends(alloc: Global, text: &str) -> Result<(), Fail> {
    for limit in [0, 1, 100] {
        assert_ends(alloc, text, limit)?;
    }
    Ok(())
}

#[test]
fn few_looks(rt: HostRuntime) -> Result<(), Fail> {
    let long = blocks(rt.alloc())?;
    let crowd = crowd(rt.alloc())?;
    assert_ends(rt.alloc(), long.as_str(), 100)?;
    assert_each_ends(rt.alloc(), crowd.as_str())?;
    assert_each_ends(rt.alloc(), THREE)
}
