//! Tests of the homothetic test by rounded products, on tables for which the exact ones pass their width and on others.
use rp_clauses::input::Input;
use rp_evidence::Homothetic;
use rp_homo::homothetic;
use rp_num::Frac;
use rp_rounded::rounded_homothetic;
use rp_table::Costs;
use rp_text::read_table;
use std::alloc::Global;
use std::process::Abort;
use std::test::Fail;
use tests_inputs::tables::{ALONE, APART, CONTRADICTION, THREE};

/// What the search finds on the table in a file.
fn found(alloc: Global, file: &str) -> Result<Option<Homothetic>, Fail> {
    let table = read_table(alloc, file.as_bytes())?;
    let costs = Costs::of(alloc, &table)?;
    let input = Input::new(&table, &costs);
    Ok(rounded_homothetic(alloc, &input)?)
}

/// Whether the exact products pass their width.
fn is_withheld(alloc: Global, file: &str) -> Result<bool, Fail> {
    let table = read_table(alloc, file.as_bytes())?;
    let costs = Costs::of(alloc, &table)?;
    Ok(match homothetic(alloc, &costs)? {
        Homothetic::Withheld { .. } => true,
        _ => false,
    })
}

/// A fraction by its parts.
fn is_fraction(f: Frac, num: u128, den: u128) -> bool {
    f.num() == num && f.den() == den
}

/// Whether the first values are these, of so many.
fn has_values(found: &Option<Homothetic>, first: &[(u128, u128)], count: usize) -> bool {
    match found {
        Some(Homothetic::Values(values)) => {
            let values = values.as_slice();
            if values.len() != count || first.len() > count {
                return false;
            }
            for k in 0..first.len() {
                if !is_fraction(values[k], first[k].0, first[k].1) {
                    return false;
                }
            }
            true
        }
        _ => false,
    }
}

/// Whether this start and this cycle were found.
fn has_cycle(found: &Option<Homothetic>, num: u128, den: u128, cycle: &[u32]) -> bool {
    match found {
        Some(Homothetic::Cycle { start, steps }) => {
            is_fraction(*start, num, den) && steps.as_slice() == cycle
        }
        _ => false,
    }
}

/// Each own cost is 2^43. The least products are 1, 7330081712811/2^43, and 7330081712811 * 6597068718081 / 2^86 by way
/// of the second, whose 60 first digits are those of 21990241643181/2^45.
pub(crate) const ROUND_COSTS: &str = "p_a,q_a,p_b,q_b\n4194304,2097151,1,4194304\n\
                          1,1747627,3145727,2796203\n1,4194304,4194304,2097151\n";

/// 25 rounds of an experiment with two goods and three digits.
pub(crate) const EXPERIMENT: &str =
    "p_a,q_a,p_b,q_b\n967,42,695,87\n405,108,463,142\n570,82,665,106\n\
                          269,213,798,108\n558,134,765,147\n904,76,720,144\n306,248,879,130\n\
                          439,179,191,618\n959,61,199,437\n823,51,306,205\n770,92,459,232\n\
                          271,186,634,119\n210,242,612,124\n426,96,618,99\n760,92,126,836\n\
                          538,94,307,247\n418,108,270,251\n702,92,938,103\n448,112,671,113\n\
                          816,70,996,87\n296,224,281,354\n978,80,719,163\n962,69,250,399\n\
                          908,51,203,341\n927,49,235,293\n";

/// One more round, at the prices of the first: rounding both values down would fall round these two for ever.
const SAME_PRICES: &str = "967,21,695,44\n";

/// No two of these three contradict each other, and all three do; their products have about 45 digits each.
const LONG_CYCLE: &str = "p_a,q_a,p_b,q_b,p_c,q_c\n\
                          1427095,8740599,2568788,2615939,8125878,5755235\n\
                          1259134,1636719,9350906,2896239,3239283,8226522\n\
                          8090977,6501313,2967408,9201819,7415760,5058598\n";

/// Costs 2^44 + 1, 2^23; 2^23, 2^44 + 1: the third round would have the denominator 2^122 or more.
pub(crate) const STEEP: &str = "p_a,q_a,p_b,q_b\n4194304,4194304,1,1\n1,1,4194304,4194304\n";

#[test]
fn values_where_exact_products_pass_their_width(rt: HostRuntime) -> Result<(), Fail> {
    let alloc = rt.alloc();
    assert!(rt; is_withheld(alloc, ROUND_COSTS)?);
    let values = [
        (1, 1),
        (7_330_081_712_811, 8_796_093_022_208),
        (21_990_241_643_181, 35_184_372_088_832),
    ];
    assert!(rt; has_values(&found(alloc, ROUND_COSTS)?, &values, 3));
    assert!(rt; is_withheld(alloc, EXPERIMENT)?);
    let first = [
        (33_539_172_242_213_745, 191_984_472_168_880_369),
        (397_675_552_559_674_459, 1_152_921_504_606_846_976),
    ];
    assert!(rt; has_values(&found(alloc, EXPERIMENT)?, &first, 25));
    Ok(())
}

/// As exact fractions of whole numbers of any length give them, rounded down as the search rounds.
#[test]
fn values_where_two_rounds_have_the_same_prices(rt: HostRuntime) -> Result<(), Fail> {
    let alloc = rt.alloc();
    let table = format!(in alloc; "{EXPERIMENT}{SAME_PRICES}")?;
    assert!(rt; is_withheld(alloc, table.as_str())?);
    let first = [
        (805_410_872_032_972_291, 4_611_686_018_427_387_904),
        (795_115_847_789_772_075, 2_305_843_009_213_693_952),
    ];
    assert!(rt; has_values(&found(alloc, table.as_str())?, &first, 26));
    Ok(())
}

#[test]
fn values_where_exact_products_fit(rt: HostRuntime) -> Result<(), Fail> {
    let alloc = rt.alloc();
    assert!(rt; has_values(&found(alloc, ALONE)?, &[(1, 1)], 1));
    assert!(rt; has_values(&found(alloc, APART)?, &[(1, 1), (1, 1)], 2));
    Ok(())
}

#[test]
fn cycles(rt: HostRuntime) -> Result<(), Fail> {
    let alloc = rt.alloc();
    assert!(rt; has_cycle(&found(alloc, CONTRADICTION)?, 1, 1, &[1, 0, 1]));
    assert!(rt; has_cycle(&found(alloc, THREE)?, 1, 1, &[2, 0, 1, 2]));
    // from 1 the third product passes the width: the start is 55791340047606 * 65959795313167 over
    // 54109819968505 * 74021063700151
    let long = found(alloc, LONG_CYCLE)?;
    let num = 525_712_195_683_912_655_636_946_886;
    let den = 572_180_918_670_344_454_511_963_465;
    assert!(rt; has_cycle(&long, num, den, &[1, 0, 2, 1]));
    Ok(())
}

#[test]
fn no_answer_where_a_denominator_gets_too_long(rt: HostRuntime) -> Result<(), Fail> {
    let none = match found(rt.alloc(), STEEP)? {
        None => true,
        Some(_) => false,
    };
    assert!(rt; none);
    Ok(())
}
