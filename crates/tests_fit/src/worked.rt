//! The indices of worked tables: evidence by hand, its text, and its report.
use crate::forged::{Forged, Grouped, items_of};
use crate::verdicts::{report, verdict};
use rp_check::Verdict;
use rp_fit::{FitItem, GroupKind, Lack};
use rp_json_fit::{read_fit, write_fit};
use std::alloc::Global;
use std::process::Abort;
use std::test::Fail;
use tests_inputs::tables::{CONTRADICTION, MORE_AND_LESS, THREE};

/// 2^40, in which the levels are counted.
const WHOLE: u64 = 1_099_511_627_776;

/// Two observations contradict each other, so one is kept. The second has the level 4/5, which lacks 1/5 or 1/25. Its
/// step costs 1 of 10. The walk through both has the ratio 2/10, the quotient 8/10 and the geometric mean 4/5.
const OF_CONTRADICTION: &[Forged] = &[
    Forged::Violations([2, 2, 2, 2, 2]),
    Forged::Efficiency((4, 5), &[1, 1], &[0, 1, 0], &[2, 2]),
    Forged::Kept(&[0], &[0], 1, &[(1, GroupKind::Pairs, &[0, 1])], 1),
    Forged::Levels(
        Lack::Mean,
        &[0, 0],
        &[1, 0],
        1,
        &[(219_902_325_555, &[0, 1, 0])],
    ),
    Forged::Levels(
        Lack::Squares,
        &[0, 0],
        &[1, 0],
        1,
        &[(43_980_465_111, &[0, 1, 0])],
    ),
    Forged::Steps(&[&[], &[0]], 1, &[1, 0], 1, &[(1, &[0, 1, 0])]),
    Forged::Pump(1, 5, &[0, 1, 0], &[0, 0]),
    Forged::Quasilinear(4, 5, &[0, 1, 0], &[0, 0]),
    Forged::Homothetic(879_609_302_220, 879_609_302_221, &[0, 1, 0], &[1, 1]),
];

const TEXT_OF_CONTRADICTION: &str = "{\"items\":[\
    {\"garp\":\"2\",\"item\":\"violations\",\"observations\":\"2\",\"sarp\":\"2\",\"warp\":\"2\",\"wgarp\":\"2\"},\
    {\"above\":[1,2,1],\"at_ranks\":[2,2],\"below\":[1,1],\"item\":\"efficiency\",\"level\":\"4/5\"},\
    {\"den\":\"1\",\"groups\":[{\"pairs\":[1,2],\"weight\":\"1\"}],\"item\":\"kept\",\"kept\":[1],\"most\":\"1\",\"ranks\":[0]},\
    {\"at\":[0,1],\"cycles\":[{\"cycle\":[1,2,1],\"weight\":\"219902325555\"}],\"den\":\"1\",\"item\":\"levels\",\
    \"measure\":\"mean\",\"ranks\":[1,0]},\
    {\"at\":[0,1],\"cycles\":[{\"cycle\":[1,2,1],\"weight\":\"43980465111\"}],\"den\":\"1\",\"item\":\"levels\",\
    \"measure\":\"squares\",\"ranks\":[1,0]},\
    {\"cost\":\"1\",\"cycles\":[{\"cycle\":[1,2,1],\"weight\":\"1\"}],\"den\":\"1\",\"item\":\"steps\",\"ranks\":[1,0],\
    \"taken\":[[],[1]]},\
    {\"cycle\":[1,2,1],\"den\":\"5\",\"item\":\"pump\",\"num\":\"1\",\"values\":[\"0\",\"0\"]},\
    {\"cycle\":[1,2,1],\"den\":\"5\",\"item\":\"quasilinear_level\",\"num\":\"4\",\"values\":[\"0\",\"0\"]},\
    {\"cycle\":[1,2,1],\"high\":\"879609302221\",\"item\":\"homothetic_level\",\"low\":\"879609302220\",\
    \"values\":[\"1\",\"1\"]}],\"kind\":\"fit\",\"version\":1}\n";

const REPORT_OF_CONTRADICTION: &str = "observations 2 goods 2 places 0 0\n\
    violations garp 2 wgarp 2 warp 2 sarp 2 of 2\nviolating observations 2 of 2\n\
    efficiency 4/5 attained yes\nbelow 1 1\nabove 1 2 1\nat ranks 2 2\n\
    kept 1 of 2\nobservations 1\nranks 0\ngroups over 1\npairs 1 2 weight 1\n\
    levels mean 219902325555/2199023255552 to 1/10 exact\nat 1 4/5\nranks 1 0\n\
    cycles over 1\ncycle 1 2 1 weight 219902325555\n\
    levels squares 43980465111/2199023255552 to 1/50 exact\nat 1 4/5\nranks 1 0\n\
    cycles over 1\ncycle 1 2 1 weight 43980465111\n\
    steps 1/10 to 1/10 exact\nremoved 2 to 1\nranks 1 0\ncycles over 1\ncycle 1 2 1 weight 1\n\
    pump 1/5\ncycle 1 2 1\nvalues 0 0\n\
    quasilinear level 4/5\ncycle 1 2 1\nvalues 0 0\n\
    homothetic level 219902325555/274877906944 to 879609302221/1099511627776\ncycle 1 2 1\nvalues 1 1\n";

/// Three observations contradict each other only together, so two are kept. The third has the level 1/2, which lacks
/// 1/2 or 1/4. Its step costs 1 of 6. The walk through all has the ratio 3/6, the quotient 3/6 and the geometric mean
/// 1/2.
const OF_THREE: &[Forged] = &[
    Forged::Violations([3, 0, 0, 3, 3]),
    Forged::Efficiency((1, 2), &[1, 1, 1], &[0, 1, 2, 0], &[3, 3, 3]),
    Forged::Kept(
        &[0, 1],
        &[1, 0],
        1,
        &[(1, GroupKind::Cycle, &[0, 1, 2, 0])],
        2,
    ),
    Forged::Levels(
        Lack::Mean,
        &[0, 1, 0],
        &[2, 1, 0],
        1,
        &[(549_755_813_888, &[0, 1, 2, 0])],
    ),
    Forged::Levels(
        Lack::Squares,
        &[0, 1, 0],
        &[2, 1, 0],
        1,
        &[(274_877_906_944, &[0, 1, 2, 0])],
    ),
    Forged::Steps(&[&[], &[], &[0]], 1, &[2, 1, 0], 1, &[(1, &[0, 1, 2, 0])]),
    Forged::Pump(1, 2, &[0, 1, 2, 0], &[0, 0, 0]),
    Forged::Quasilinear(1, 2, &[0, 1, 2, 0], &[0, 0, 0]),
    Forged::Homothetic(WHOLE / 2, WHOLE / 2, &[0, 1, 2, 0], &[1, 1, 1]),
];

const TEXT_OF_THREE: &str = "{\"items\":[\
    {\"garp\":\"3\",\"item\":\"violations\",\"observations\":\"3\",\"sarp\":\"3\",\"warp\":\"0\",\"wgarp\":\"0\"},\
    {\"above\":[1,2,3,1],\"at_ranks\":[3,3,3],\"below\":[1,1,1],\"item\":\"efficiency\",\"level\":\"1/2\"},\
    {\"den\":\"1\",\"groups\":[{\"cycle\":[1,2,3,1],\"weight\":\"1\"}],\"item\":\"kept\",\"kept\":[1,2],\"most\":\"2\",\
    \"ranks\":[1,0]},\
    {\"at\":[0,0,1],\"cycles\":[{\"cycle\":[1,2,3,1],\"weight\":\"549755813888\"}],\"den\":\"1\",\"item\":\"levels\",\
    \"measure\":\"mean\",\"ranks\":[2,1,0]},\
    {\"at\":[0,0,1],\"cycles\":[{\"cycle\":[1,2,3,1],\"weight\":\"274877906944\"}],\"den\":\"1\",\"item\":\"levels\",\
    \"measure\":\"squares\",\"ranks\":[2,1,0]},\
    {\"cost\":\"1\",\"cycles\":[{\"cycle\":[1,2,3,1],\"weight\":\"1\"}],\"den\":\"1\",\"item\":\"steps\",\
    \"ranks\":[2,1,0],\"taken\":[[],[],[1]]},\
    {\"cycle\":[1,2,3,1],\"den\":\"2\",\"item\":\"pump\",\"num\":\"1\",\"values\":[\"0\",\"0\",\"0\"]},\
    {\"cycle\":[1,2,3,1],\"den\":\"2\",\"item\":\"quasilinear_level\",\"num\":\"1\",\"values\":[\"0\",\"0\",\"0\"]},\
    {\"cycle\":[1,2,3,1],\"high\":\"549755813888\",\"item\":\"homothetic_level\",\"low\":\"549755813888\",\
    \"values\":[\"1\",\"1\",\"1\"]}],\"kind\":\"fit\",\"version\":1}\n";

const REPORT_OF_THREE: &str = "observations 3 goods 3 places 0 0\n\
    violations garp 3 wgarp 0 warp 0 sarp 3 of 6\nviolating observations 3 of 3\n\
    efficiency 1/2 attained yes\nbelow 1 1 1\nabove 1 2 3 1\nat ranks 3 3 3\n\
    kept 2 of 3\nobservations 1 2\nranks 1 0\ngroups over 1\ncycle 1 2 3 1 weight 1\n\
    levels mean 1/6 to 1/6 exact\nat 1 1 1/2\nranks 2 1 0\n\
    cycles over 1\ncycle 1 2 3 1 weight 549755813888\n\
    levels squares 1/12 to 1/12 exact\nat 1 1 1/2\nranks 2 1 0\n\
    cycles over 1\ncycle 1 2 3 1 weight 274877906944\n\
    steps 1/6 to 1/6 exact\nremoved 3 to 1\nranks 2 1 0\ncycles over 1\ncycle 1 2 3 1 weight 1\n\
    pump 1/2\ncycle 1 2 3 1\nvalues 0 0 0\n\
    quasilinear level 1/2\ncycle 1 2 3 1\nvalues 0 0 0\n\
    homothetic level 1/2 to 1/2\ncycle 1 2 3 1\nvalues 1 1 1\n";

/// Two observations do not contradict each other, so both are kept and nothing is to be taken away.
const ALONE_EACH: &[Grouped] = &[(1, GroupKind::Pairs, &[0]), (1, GroupKind::Pairs, &[1])];

const OF_MORE_AND_LESS: &[Forged] = &[
    Forged::Violations([0, 0, 0, 0, 0]),
    Forged::Efficiency((1, 1), &[2, 1], &[], &[2, 1]),
    Forged::Kept(&[0, 1], &[1, 0], 1, ALONE_EACH, 2),
    Forged::Levels(Lack::Mean, &[0, 1], &[1, 0], 1, &[]),
    Forged::Levels(Lack::Squares, &[0, 1], &[1, 0], 1, &[]),
    Forged::Steps(&[&[], &[]], 0, &[1, 0], 1, &[]),
    Forged::Pump(0, 1, &[0, 0], &[0, -4]),
    Forged::Quasilinear(1, 1, &[0, 0], &[4, 0]),
    Forged::Homothetic(WHOLE, WHOLE, &[0, 0], &[2, 1]),
];

const TEXT_OF_MORE_AND_LESS: &str = "{\"items\":[\
    {\"garp\":\"0\",\"item\":\"violations\",\"observations\":\"0\",\"sarp\":\"0\",\"warp\":\"0\",\"wgarp\":\"0\"},\
    {\"above\":[],\"at_ranks\":[2,1],\"below\":[2,1],\"item\":\"efficiency\",\"level\":\"1\"},\
    {\"den\":\"1\",\"groups\":[{\"pairs\":[1],\"weight\":\"1\"},{\"pairs\":[2],\"weight\":\"1\"}],\"item\":\"kept\",\
    \"kept\":[1,2],\"most\":\"2\",\"ranks\":[1,0]},\
    {\"at\":[0,0],\"cycles\":[],\"den\":\"1\",\"item\":\"levels\",\"measure\":\"mean\",\"ranks\":[1,0]},\
    {\"at\":[0,0],\"cycles\":[],\"den\":\"1\",\"item\":\"levels\",\"measure\":\"squares\",\"ranks\":[1,0]},\
    {\"cost\":\"0\",\"cycles\":[],\"den\":\"1\",\"item\":\"steps\",\"ranks\":[1,0],\"taken\":[[],[]]},\
    {\"cycle\":[1,1],\"den\":\"1\",\"item\":\"pump\",\"num\":\"0\",\"values\":[\"0\",\"-4\"]},\
    {\"cycle\":[1,1],\"den\":\"1\",\"item\":\"quasilinear_level\",\"num\":\"1\",\"values\":[\"4\",\"0\"]},\
    {\"cycle\":[1,1],\"high\":\"1099511627776\",\"item\":\"homothetic_level\",\"low\":\"1099511627776\",\
    \"values\":[\"2\",\"1\"]}],\"kind\":\"fit\",\"version\":1}\n";

const REPORT_OF_MORE_AND_LESS: &str = "observations 2 goods 2 places 0 0\n\
    violations garp 0 wgarp 0 warp 0 sarp 0 of 2\nviolating observations 0 of 2\n\
    efficiency 1 attained yes\nbelow 2 1\nat ranks 2 1\n\
    kept 2 of 2\nobservations 1 2\nranks 1 0\ngroups over 1\npairs 1 weight 1\npairs 2 weight 1\n\
    levels mean 0 to 0 exact\nat 1 1\nranks 1 0\ncycles over 1\n\
    levels squares 0 to 0 exact\nat 1 1\nranks 1 0\ncycles over 1\n\
    steps 0 to 0 exact\nranks 1 0\ncycles over 1\n\
    pump 0\ncycle 1 1\nvalues 0 -4\n\
    quasilinear level 1\ncycle 1 1\nvalues 4 0\n\
    homothetic level 1 to 1\ncycle 1 1\nvalues 2 1\n";

/// A table, the items of its certificate, the certificate's text and its report.
type Worked = (&'static str, &'static [Forged], &'static str, &'static str);

pub(crate) const WORKED: &[Worked] = &[
    (
        CONTRADICTION,
        OF_CONTRADICTION,
        TEXT_OF_CONTRADICTION,
        REPORT_OF_CONTRADICTION,
    ),
    (THREE, OF_THREE, TEXT_OF_THREE, REPORT_OF_THREE),
    (
        MORE_AND_LESS,
        OF_MORE_AND_LESS,
        TEXT_OF_MORE_AND_LESS,
        REPORT_OF_MORE_AND_LESS,
    ),
];

/// The text of a certificate.
fn written(alloc: Global, items: &[FitItem]) -> Result<String, Fail> {
    let bytes = write_fit(alloc, items)?;
    Ok(String::from_utf8_lossy(alloc, bytes.as_slice())?)
}

/// The text of the certificate that `read_fit` makes of a text.
fn written_again(alloc: Global, text: &str) -> Result<String, Fail> {
    let items = read_fit(alloc, text.as_bytes())?;
    written(alloc, items.as_slice())
}

/// Asserts that the items of a worked table are accepted, have this report and this text, and that the text is read
/// back.
fn assert_worked(rt: &impl Abort, alloc: Global, worked: Worked) -> Result<(), Fail> {
    let (table, all, text, told) = worked;
    let items = items_of(alloc, all)?;
    assert_eq!(rt;
        verdict(alloc, table, items.as_slice())?,
        Verdict::Accepted,
        "{table}"
    );
    let printed = report(alloc, table, items.as_slice())?;
    assert!(rt; printed.as_str() == told, "{printed}");
    let first = written(alloc, items.as_slice())?;
    assert!(rt; first.as_str() == text, "{first}");
    let second = written_again(alloc, text)?;
    assert!(rt; second.as_str() == text, "{second}");
    Ok(())
}

/// Asserts it of each.
fn assert_all_worked(rt: &impl Abort, alloc: Global, all: &[Worked]) -> Result<(), Fail> {
    for k in 0..all.len() {
        assert_worked(rt, alloc, all[k])?;
    }
    Ok(())
}

#[test]
fn worked_tables(rt: HostRuntime) -> Result<(), Fail> {
    assert_all_worked(&rt, rt.alloc(), WORKED)
}
