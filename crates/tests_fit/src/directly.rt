//! Numbers of violations, the two levels of closed walks, and whole certificates, by the calls that find them.
use crate::refused::{FORK, ONE_BUNDLE, ONE_WAY, UNEVEN, WHOLE};
use crate::verdicts::report_on;
use rp_check_fit::count_violations;
use rp_clauses::input::Input;
use rp_fit::{HomotheticLevelPart, QuasilinearLevelPart, ViolationsPart};
use rp_fit_find::find_fit;
use rp_search_walk_levels::{search_homothetic_level, search_quasilinear_level};
use rp_table::Costs;
use rp_text::read_table;
use std::alloc::Global;
use std::process::Abort;
use std::test::Fail;
use tests_inputs::tables::{ALONE, CONTRADICTION, EQUAL, MORE_AND_LESS, NINE_TENTHS, THREE};

/// The numbers of violations of a table.
fn counted(alloc: Global, text: &str) -> Result<ViolationsPart, Fail> {
    let table = read_table(alloc, text.as_bytes())?;
    let costs = Costs::of(alloc, &table)?;
    Ok(count_violations(&Input::new(&table, &costs)))
}

/// Tables with the pairs that violate GARP, its weak form, WARP and SARP, and the observations in some pair of GARP.
const VIOLATIONS: &[(&str, [u32; 5])] = &[
    (CONTRADICTION, [2, 2, 2, 2, 2]),
    (THREE, [3, 0, 0, 3, 3]),
    (MORE_AND_LESS, [0, 0, 0, 0, 0]),
    (ONE_WAY, [1, 1, 2, 2, 2]),
    (EQUAL, [0, 0, 2, 2, 0]),
    (ONE_BUNDLE, [0, 0, 0, 0, 0]),
    (ALONE, [0, 0, 0, 0, 0]),
];

/// Asserts that the violations of each table are counted so.
fn assert_counted(
    rt: &impl Abort,
    alloc: Global,
    cases: &[(&'static str, [u32; 5])],
) -> Result<(), Fail> {
    for k in 0..cases.len() {
        let (text, numbers) = cases[k];
        let found = counted(alloc, text)?;
        let [garp, weak_garp, warp, sarp, observations] = numbers;
        assert_eq!(rt; found.garp, garp, "{text}");
        assert_eq!(rt; found.weak_garp, weak_garp, "{text}");
        assert_eq!(rt; found.warp, warp, "{text}");
        assert_eq!(rt; found.sarp, sarp, "{text}");
        assert_eq!(rt; found.observations, observations, "{text}");
    }
    Ok(())
}

#[test]
fn violations_are_counted(rt: HostRuntime) -> Result<(), Fail> {
    assert_counted(&rt, rt.alloc(), VIOLATIONS)
}

/// The quasilinear level of a table. It is an error if the search gives none.
fn quasilinear_level(alloc: Global, text: &str) -> Result<QuasilinearLevelPart, Fail> {
    let table = read_table(alloc, text.as_bytes())?;
    let costs = Costs::of(alloc, &table)?;
    match search_quasilinear_level(alloc, &Input::new(&table, &costs))? {
        Some(part) => Ok(part),
        None => Err(Fail::new("no quasilinear level")),
    }
}

/// Bounds on the homothetic level of a table. It is an error if the search gives none.
fn homothetic_level(alloc: Global, text: &str) -> Result<HomotheticLevelPart, Fail> {
    let table = read_table(alloc, text.as_bytes())?;
    let costs = Costs::of(alloc, &table)?;
    match search_homothetic_level(alloc, &Input::new(&table, &costs))? {
        Some(part) => Ok(part),
        None => Err(Fail::new("no homothetic level")),
    }
}

/// Tables with their quasilinear level as a quotient, and with the homothetic level over 2^40, rounded up.
///
/// The walk through both observations of `CONTRADICTION` costs 4 + 4 of 5 + 5, and 16 of 25 by products. In `UNEVEN` it
/// costs 1 + 3 of 4 + 4 and 3 of 16, in `ONE_WAY` 2 + 3 of 2 + 4 and 6 of 8, in `NINE_TENTHS` 5 + 45 of 10 + 50 and 225
/// of 500. In `THREE` the walk through all costs 3 of 6 and 1 of 8, in `FORK` that through the first and the third 2 of 8
/// and 1 of 16. In the others no walk costs less than was spent.
const LEVELS: &[(&str, (u64, u64), u64)] = &[
    (CONTRADICTION, (4, 5), 879_609_302_221),
    (THREE, (1, 2), WHOLE / 2),
    (MORE_AND_LESS, (1, 1), WHOLE),
    (EQUAL, (1, 1), WHOLE),
    (ALONE, (1, 1), WHOLE),
    (ONE_BUNDLE, (1, 1), WHOLE),
    (UNEVEN, (1, 2), 476_102_500_706),
    (ONE_WAY, (5, 6), 952_205_001_411),
    (NINE_TENTHS, (5, 6), 737_574_822_528),
    (FORK, (1, 4), WHOLE / 4),
];

/// Asserts that the levels of each table are found, the homothetic one between bounds that differ by at most 2^-40.
fn assert_levels(
    rt: &impl Abort,
    alloc: Global,
    cases: &[(&'static str, (u64, u64), u64)],
) -> Result<(), Fail> {
    for k in 0..cases.len() {
        let (text, (num, den), high) = cases[k];
        let level = quasilinear_level(alloc, text)?;
        assert_eq!(rt;
            u128::from(level.num) * u128::from(den),
            u128::from(level.den) * u128::from(num),
            "{text}"
        );
        let bounds = homothetic_level(alloc, text)?;
        assert_eq!(rt; bounds.high, high, "{text}");
        assert!(rt; bounds.high.saturating_sub(bounds.low) <= 1, "{text}");
    }
    Ok(())
}

#[test]
fn levels_of_walks_are_found(rt: HostRuntime) -> Result<(), Fail> {
    assert_levels(&rt, rt.alloc(), LEVELS)
}

/// The report of the whole certificate that is found.
fn whole_report(alloc: Global, text: &str) -> Result<String, Fail> {
    let table = read_table(alloc, text.as_bytes())?;
    let costs = Costs::of(alloc, &table)?;
    let input = Input::new(&table, &costs);
    let items = find_fit(alloc, &input)?;
    report_on(alloc, &input, items.as_slice())
}

/// Tables with lines that stand in their reports, one for each item.
const WHOLE_REPORTS: &[(&str, [&str; 9])] = &[
    (
        CONTRADICTION,
        [
            "\nviolations garp 2 wgarp 2 warp 2 sarp 2 of 2\nviolating observations 2 of 2\n",
            "\nefficiency 4/5 attained yes\n",
            "\nkept 1 of 2\n",
            "\nlevels mean 219902325555/2199023255552 to 1/10 exact\n",
            "\nlevels squares 43980465111/2199023255552 to 1/50 exact\n",
            "\nsteps 1/10 to 1/10 exact\n",
            "\npump 1/5\n",
            "\nquasilinear level 4/5\n",
            "\nhomothetic level 219902325555/274877906944 to 879609302221/1099511627776\n",
        ],
    ),
    (
        THREE,
        [
            "\nviolations garp 3 wgarp 0 warp 0 sarp 3 of 6\nviolating observations 3 of 3\n",
            "\nefficiency 1/2 attained yes\n",
            "\nkept 2 of 3\n",
            "\nlevels mean 1/6 to 1/6 exact\n",
            "\nlevels squares 1/12 to 1/12 exact\n",
            "\nsteps 1/6 to 1/6 exact\n",
            "\npump 1/2\n",
            "\nquasilinear level 1/2\n",
            "\nhomothetic level ",
        ],
    ),
    (
        MORE_AND_LESS,
        [
            "\nviolations garp 0 wgarp 0 warp 0 sarp 0 of 2\nviolating observations 0 of 2\n",
            "\nefficiency 1 attained yes\n",
            "\nkept 2 of 2\n",
            "\nlevels mean 0 to 0 exact\n",
            "\nlevels squares 0 to 0 exact\n",
            "\nsteps 0 to 0 exact\n",
            "\npump 0\n",
            "\nquasilinear level 1\n",
            "\nhomothetic level ",
        ],
    ),
];

/// Asserts that each line stands in the report of its table.
fn assert_whole(
    rt: &impl Abort,
    alloc: Global,
    cases: &[(&'static str, [&'static str; 9])],
) -> Result<(), Fail> {
    for k in 0..cases.len() {
        let (text, lines) = cases[k];
        let report = whole_report(alloc, text)?;
        for i in 0..9 {
            assert!(rt; report.contains(lines[i]), "{report}");
        }
    }
    Ok(())
}

#[test]
fn whole_certificates_are_found(rt: HostRuntime) -> Result<(), Fail> {
    assert_whole(&rt, rt.alloc(), WHOLE_REPORTS)
}
