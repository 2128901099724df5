//! Tests of Afriat numbers and of the utilities that they give, at levels too, and of what passes their width.
use crate::bounds::shared::are_quantities;
use crate::shared::table_in;
use rp_afriat::{afriat, utility_at};
use rp_evidence::AfriatPart;
use rp_garp::GarpTest;
use std::alloc::Global;
use std::process::Abort;
use std::test::Fail;
use tests_inputs::tables::{
    AT_799, AT_800, AT_ALL, CONTRADICTION, MORE_AND_LESS, MORE_AND_LESS_AT_ALL,
};

/// One observation, of which half counts.
const HALF: &str = "p_a,q_a,e\n3,2,500\n";

/// The numbers of the table in a file, or why there are none.
fn part_of(alloc: Global, file: &str) -> Result<AfriatPart, Fail> {
    let table = table_in(alloc, file)?;
    let tested = GarpTest::of(alloc, &table)?;
    Ok(afriat(alloc, &tested)?)
}

/// Whether these are the numbers.
fn has_numbers(part: &AfriatPart, u: &[i128], lambda: &[u64]) -> bool {
    match part {
        AfriatPart::Model(numbers) => numbers.u.as_slice() == u
            && numbers.lambda.as_slice() == lambda,
        _ => false,
    }
}

/// Whether there are no numbers, as this cycle shows.
fn has_cycle(part: &AfriatPart, cycle: &[u32]) -> bool {
    match part {
        AfriatPart::NoModel(walk) => walk.as_slice() == cycle,
        _ => false,
    }
}

/// Whether this observation is the first to pass a width.
fn is_withheld(part: &AfriatPart, first: u32) -> bool {
    match part {
        AfriatPart::Wide { at } => *at == first,
        _ => false,
    }
}

/// The utility of a bundle under the numbers of the table, where it has some.
fn utility(
    rt: &impl Abort,
    alloc: Global,
    file: &str,
    bundle: &[u32],
) -> Result<Option<i128>, Fail> {
    let table = table_in(alloc, file)?;
    let tested = GarpTest::of(alloc, &table)?;
    assert!(rt; bundle.len() == table.goods() as usize);
    assert!(rt; are_quantities(bundle));
    match afriat(alloc, &tested)? {
        AfriatPart::Model(numbers) => Ok(Some(utility_at(&table, &tested.costs, &numbers, bundle))),
        _ => Ok(None),
    }
}

/// A table, its utilities and its multipliers.
type NumbersCase = (&'static str, &'static [i128], &'static [u64]);

/// A table, a bundle, and its utility where there are numbers.
type UtilityCase = (&'static str, &'static [u32], Option<i128>);

/// Asserts the numbers of each table.
fn assert_numbers(rt: &impl Abort, alloc: Global, cases: &[NumbersCase]) -> Result<(), Fail> {
    for (file, u, lambda) in cases {
        let part = part_of(alloc, file)?;
        assert!(rt; has_numbers(&part, u, lambda), "{file}");
    }
    Ok(())
}

/// Asserts the utility of each bundle.
fn assert_utilities(rt: &impl Abort, alloc: Global, cases: &[UtilityCase]) -> Result<(), Fail> {
    for (file, bundle, value) in cases {
        let found = utility(rt, alloc, file, bundle)?;
        assert!(rt; found == *value, "{file}");
    }
    Ok(())
}

const NUMBERS: [NumbersCase; 4] = [
    (AT_799, &[-1000, 0], &[200, 1]),
    (MORE_AND_LESS_AT_ALL, &[0, -4000], &[1, 1]),
    (MORE_AND_LESS, &[0, -4], &[1, 1]),
    (HALF, &[0], &[1]),
];

/// At 799 the second observation is still preferred to the first and allows it 4,000 - 5,000; the first, to which the
/// second costs 4,000 - 3,995 too much, needs that 200 times to allow the second its 0. Where all levels are 1,000 the
/// utilities are 1,000 times those without levels, and the multipliers are the same.
#[test]
fn numbers_by_own_levels(rt: HostRuntime) -> Result<(), Fail> {
    assert_numbers(&rt, rt.alloc(), &NUMBERS)
}

#[test]
fn no_numbers_where_two_contradict_each_other(rt: HostRuntime) -> Result<(), Fail> {
    let alloc = rt.alloc();
    for file in [AT_800, AT_ALL, CONTRADICTION] {
        let part = part_of(alloc, file)?;
        assert!(rt; has_cycle(&part, &[0, 1, 0]), "{file}");
    }
    Ok(())
}

/// Sixteen goods whose numbers are the greatest that there are, but where a record says less.
const HEADERS: &str =
    "p_a,q_a,p_b,q_b,p_c,q_c,p_d,q_d,p_e,q_e,p_f,q_f,p_g,q_g,p_h,q_h,p_i,q_i,p_j,q_j,p_k,q_k,p_l,q_l,p_m,q_m,p_n,q_n,p_o,q_o,p_p,q_p";

const OF_FEW: &str =
    "9999999,9999999,1,9999998,1,9999999,1,9999999,1,9999999,1,9999999,1,9999999,1,9999999,1,9999999,1,9999999,1,9999999,1,9999999,1,9999999,1,9999999,1,9999999,1,9999999";

const OF_MORE: &str =
    "1,0,9999999,9999999,1,9999998,1,9999999,1,9999999,1,9999999,1,9999999,1,9999999,1,9999999,1,9999999,1,9999999,1,9999999,1,9999999,1,9999999,1,9999999,1,9999999";

const OF_NOTHING: &str =
    "1,0,1,0,867,0,9999999,9999999,9999999,9999999,9999999,9999999,9999999,9999999,9999999,9999999,9999999,9999999,9999999,9999999,9999999,9999999,9999999,9999999,9999999,9999999,9999999,9999999,9999999,9999999,9999999,9999999";

const OF_ONE: &str =
    "9999999,0,9999999,0,9999999,0,9999999,1,9999999,0,9999999,0,9999999,0,9999999,0,9999999,0,9999999,0,9999999,0,9999999,0,9999999,0,9999999,0,9999999,0,9999999,0";

/// The file of a table: its headers and records, each line with what is given for the column of levels.
fn steepest(
    alloc: Global,
    headers: &str,
    records: &[&str],
    header: &str,
    level: &str,
) -> Result<String, Fail> {
    let mut text = format!(in alloc; "{headers}{header}\n")?;
    for record in records {
        text.push_str(format!(in alloc; "{record}{level}\n")?.as_str())?;
    }
    Ok(text)
}

/// Each class falls as far below the one above it as a multiplier near 2^60 lets it. Without levels the last utility is
/// above -2^120; at levels that take nothing away it is 1,000 times as far down, and passes its width where no
/// multiplier does.
#[test]
fn a_utility_is_the_first_to_pass_its_width(rt: HostRuntime) -> Result<(), Fail> {
    let alloc = rt.alloc();
    let records = [OF_FEW, OF_MORE, OF_NOTHING, OF_ONE];
    let u = [
        0i128,
        -99_999_980_000_001,
        -9_999_997_000_000_299_999_990_000_000,
        -1_497_705_391_529_570_773_856_442_573_106_704,
    ];
    let lambda = [
        1u64,
        99_999_980_000_001,
        1_152_073_617_378_793_336,
        1_152_073_617_378_793_336,
    ];
    let plain = steepest(alloc, HEADERS, &records, "", "")?;
    let part = part_of(alloc, plain.as_str())?;
    assert!(rt; has_numbers(&part, &u, &lambda));
    let levelled = steepest(alloc, HEADERS, &records, ",e", ",1000")?;
    let part = part_of(alloc, levelled.as_str())?;
    assert!(rt; is_withheld(&part, 3), "at levels");
    Ok(())
}

const UTILITIES: [UtilityCase; 9] = [
    (AT_799, &[1, 2], Some(-1000)),
    (AT_799, &[2, 1], Some(0)),
    (AT_799, &[3, 3], Some(4000)),
    (AT_799, &[0, 0], Some(-800_000)),
    (AT_800, &[1, 2], None),
    (MORE_AND_LESS_AT_ALL, &[3, 3], Some(-2000)),
    (MORE_AND_LESS, &[3, 3], Some(-2)),
    (HALF, &[2], Some(3000)),
    (HALF, &[1], Some(0)),
];

/// An observed bundle has its number where all of its expenditure counts, and can have more where a part does; what
/// costs no more than that part has at most the number.
#[test]
fn utilities_by_own_levels(rt: HostRuntime) -> Result<(), Fail> {
    assert_utilities(&rt, rt.alloc(), &UTILITIES)
}

const BESIDE: [UtilityCase; 4] = [
    (MORE_AND_LESS, &[3, 3], Some(-2)),
    (MORE_AND_LESS, &[4, 4], Some(0)),
    (MORE_AND_LESS, &[0, 0], Some(-8)),
    (MORE_AND_LESS, &[1, 9], Some(2)),
];

/// Two bundles at the same prices: the utility is what a bundle costs, less 8.
#[test]
fn utilities_of_bundles_beside_the_observed_ones(rt: HostRuntime) -> Result<(), Fail> {
    assert_utilities(&rt, rt.alloc(), &BESIDE)
}
