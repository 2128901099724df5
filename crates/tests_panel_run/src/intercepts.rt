//! Tests of what choices spent of the budgets that were offered. The prices are exchanged intercepts: the price of each good
//! is the intercept of the other. The shares and what rounding explains are reckoned by hand.
use crate::running::writes;
use std::test::Fail;

const WORDS: &[&str] = &["l.csv", "--intercepts"];

/// The names of the columns of what was offered.
const OFFERED: &str = ",offered_least,below_line,over_line";

/// 4/10 + 5/10 is 9/10. Integers may have been 4.5 and 5.5 on a line with intercepts 9.5, so rounding explains it.
#[test]
fn integers_explain_much(rt: HostRuntime) -> Result<(), Fail> {
    let text = "household,p_x,q_x,p_y,q_y\nA,10,4,10,5\n";
    let rows = "A,1,2,holds,1,1.000000,yes,holds,holds,,,,,,,0.900000,0,0\n";
    writes(rt.alloc(), WORDS, text, OFFERED, rows, "")
}

/// The places are those of the whole file: with two decimal places rounding does not explain 9/10. Of B, 5.12 and 5.12 on
/// 10.25 and 10.25 are 10.24/10.25, which may have been 10.25/10.245; and of C 10.23/10.25 may have been 10.24/10.245.
#[test]
fn places_of_the_file(rt: HostRuntime) -> Result<(), Fail> {
    let text =
        "household,p_x,q_x,p_y,q_y\nA,10,4,10,5\nB,10.25,5.12,10.25,5.12\nC,10.25,5.12,10.25,5.11\n";
    let rows = "A,1,2,holds,1,1.000000,yes,holds,holds,,,,,,,0.900000,1,0\n\
        B,1,2,holds,1,1.000000,yes,holds,holds,,,,,,,0.999024,0,0\n\
        C,1,2,holds,1,1.000000,yes,holds,holds,,,,,,,0.998048,1,0\n";
    writes(rt.alloc(), WORDS, text, OFFERED, rows, "")
}

/// 9/10 + 9/10 is 18/10: the choice costs more than was offered. 6/10 + 5/10 may have been 5.5/10.5 + 4.5/10.5.
#[test]
fn more_than_was_offered(rt: HostRuntime) -> Result<(), Fail> {
    let text = "household,p_x,q_x,p_y,q_y\nA,10,9,10,9\nB,10,6,10,5\n";
    let rows = "A,1,2,holds,1,1.000000,yes,holds,holds,,,,,,,1.800000,0,1\n\
        B,1,2,holds,1,1.000000,yes,holds,holds,,,,,,,1.100000,0,0\n";
    writes(rt.alloc(), WORDS, text, OFFERED, rows, "")
}

/// The price of x is the intercept of y: 3/20 + 1/5 is 7/20, and not 3/5 + 1/20.
#[test]
fn each_price_is_the_other_intercept(rt: HostRuntime) -> Result<(), Fail> {
    let text = "household,p_x,q_x,p_y,q_y\nA,5,3,20,1\n";
    let rows = "A,1,2,holds,1,1.000000,yes,holds,holds,,,,,,,0.350000,1,0\n";
    writes(rt.alloc(), WORDS, text, OFFERED, rows, "")
}

/// The shares of s1 are 1.000125.. and 0.999946.., those of s2 0.871385.. and 1.000063... Numbers of two decimal places
/// explain all but the third. The columns come after those that are kept.
#[test]
fn least_of_each_household(rt: HostRuntime) -> Result<(), Fail> {
    let text = "household,p_x,q_x,p_y,q_y\n\
        s1,33.61,43.2,87.13,16.95\ns1,62.04,20.1,45.50,34.63\n\
        s2,33.61,50,87.13,10\ns2,62.04,12.5,45.50,45\n";
    let rows = "s1,2,2,holds,1,1.000000,yes,holds,holds,,,,,,,43.2,0.999946,0,0\n\
        s2,2,2,holds,1,1.000000,yes,holds,holds,,,,,,,50,0.871385,1,0\n";
    let words = &["l.csv", "--intercepts", "--keep", "q_x"];
    let names = ",q_x,offered_least,below_line,over_line";
    writes(rt.alloc(), words, text, names, rows, "")
}

/// A household with a fault and a record without an id have empty fields.
#[test]
fn nothing_is_told(rt: HostRuntime) -> Result<(), Fail> {
    let text = "household,p_x,q_x,p_y,q_y\nA,0,4,10,5\n,10,4,10,5\n";
    let rows = "A,,,,,,,,,,,,ZeroPrice,1,2,,,\n,,,,,,,,,,,,NoId,2,,,,\n";
    writes(rt.alloc(), WORDS, text, OFFERED, rows, "")
}

/// Three goods have no line with two intercepts.
#[test]
fn three_goods_have_no_line(rt: HostRuntime) -> Result<(), Fail> {
    let text = "household,p_x,q_x,p_y,q_y,p_z,q_z\nA,10,4,10,5,10,1\n";
    let rows = "A,1,3,holds,1,1.000000,yes,holds,holds,,,,,,,,,\n";
    writes(rt.alloc(), WORDS, text, OFFERED, rows, "")
}
