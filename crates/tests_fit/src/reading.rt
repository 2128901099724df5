//! Texts that are read as certificates on goodness of fit, and texts that are not.
use rp_json::JsonFault;
use rp_json_fit::read_fit;
use std::alloc::Global;
use std::process::Abort;
use std::test::Fail;

/// How many items are read, or why a text is not read.
type Outcome = Result<usize, JsonFault>;

/// What `read_fit` returns for a text.
fn outcome(alloc: Global, text: &str) -> Outcome {
    match read_fit(alloc, text.as_bytes()) {
        Ok(items) => Ok(items.as_slice().len()),
        Err(fault) => Err(fault),
    }
}

/// Whole texts: two spellings of one value, texts that are not JSON, other kinds, versions and members.
const WHOLE: &[(&str, Outcome)] = &[
    ("{\"items\":[],\"kind\":\"fit\",\"version\":1}", Ok(0)),
    (
        " { \"version\" : 1 , \"kind\" : \"f\\u0069t\" , \"items\" : [ ] } \n",
        Ok(0),
    ),
    ("", Err(JsonFault::NotJson)),
    ("fit", Err(JsonFault::NotJson)),
    (
        "{\"items\":[],\"kind\":\"fit\",\"version\":1} 1",
        Err(JsonFault::NotJson),
    ),
    (
        "{\"items\":[],\"kind\":\"fit\",\"version\":2}",
        Err(JsonFault::BadVersion),
    ),
    (
        "{\"items\":[],\"kind\":\"fit\",\"version\":\"1\"}",
        Err(JsonFault::BadShape { item: 0 }),
    ),
    (
        "{\"items\":[],\"kind\":\"table\",\"version\":1}",
        Err(JsonFault::BadShape { item: 0 }),
    ),
    (
        "{\"items\":{},\"kind\":\"fit\",\"version\":1}",
        Err(JsonFault::BadShape { item: 0 }),
    ),
    (
        "{\"items\":[],\"kind\":\"fit\",\"levels\":[],\"version\":1}",
        Err(JsonFault::BadShape { item: 0 }),
    ),
    ("[]", Err(JsonFault::BadShape { item: 0 })),
];

/// Asserts what each text is read as.
fn assert_read(rt: &impl Abort, alloc: Global, cases: &[(&str, Outcome)]) {
    for k in 0..cases.len() {
        let (text, expected) = cases[k];
        let found = outcome(alloc, text);
        assert_eq!(rt; found, expected, "case {k}");
    }
}

#[test]
fn whole_certificates(rt: HostRuntime) {
    assert_read(&rt, rt.alloc(), WHOLE)
}

/// Items that are read, one on each line. Numbers are up to their limits.
const READ: &str = "\
{\"garp\":\"4294967295\",\"item\":\"violations\",\"observations\":\"0\",\"sarp\":\"0\",\"warp\":\"0\",\"wgarp\":\"0\"}
{\"above\":[],\"at_cycle\":[1,1],\"below\":[4294967295],\"item\":\"efficiency\",\"level\":\"1/2\"}
{\"den\":\"0\",\"groups\":[{\"cycle\":[4294967295],\"weight\":\"4294967295\"}],\"item\":\"kept\",\"kept\":[],\"most\":\"0\",\"ranks\":[4294967295]}
{\"at\":[0,1,4294967295],\"cycles\":[{\"cycle\":[],\"weight\":\"18446744073709551615\"}],\"den\":\"0\",\"item\":\"levels\",\"measure\":\"squares\",\"ranks\":[]}
{\"cost\":\"340282366920938463463374607431768211455\",\"cycles\":[],\"den\":\"0\",\"item\":\"steps\",\"ranks\":[],\"taken\":[[],[1,1]]}
{\"cycle\":[],\"den\":\"18446744073709551615\",\"item\":\"pump\",\"num\":\"0\",\"values\":[\"-170141183460469231731687303715884105727\"]}
{\"cycle\":[],\"den\":\"0\",\"item\":\"quasilinear_level\",\"num\":\"0\",\"values\":[\"170141183460469231731687303715884105727\"]}
{\"cycle\":[],\"high\":\"18446744073709551615\",\"item\":\"homothetic_level\",\"low\":\"0\",\"values\":[\"18446744073709551615\"]}";

/// Items that are not read, one on each line. Numbers are not strings, have another spelling, or are past their
/// limits. A member is missing, is there twice, or has another name. An observation is 0. A group has two kinds, or
/// no kind. A level is given by the observation's own number. A list has another depth.
const REFUSED: &str = "\
{\"garp\":2,\"item\":\"violations\",\"observations\":\"0\",\"sarp\":\"0\",\"warp\":\"0\",\"wgarp\":\"0\"}
{\"garp\":\"02\",\"item\":\"violations\",\"observations\":\"0\",\"sarp\":\"0\",\"warp\":\"0\",\"wgarp\":\"0\"}
{\"garp\":\"-1\",\"item\":\"violations\",\"observations\":\"0\",\"sarp\":\"0\",\"warp\":\"0\",\"wgarp\":\"0\"}
{\"garp\":\"4294967296\",\"item\":\"violations\",\"observations\":\"0\",\"sarp\":\"0\",\"warp\":\"0\",\"wgarp\":\"0\"}
{\"garp\":\"0\",\"item\":\"violations\",\"observations\":\"0\",\"sarp\":\"0\",\"warp\":\"0\"}
{\"garp\":\"0\",\"item\":\"violations\",\"of\":\"2\",\"observations\":\"0\",\"sarp\":\"0\",\"warp\":\"0\",\"wgarp\":\"0\"}
{\"garp\":\"0\",\"item\":\"violation\",\"observations\":\"0\",\"sarp\":\"0\",\"warp\":\"0\",\"wgarp\":\"0\"}
{\"item\":\"garp\",\"ranks\":[1]}
{\"den\":\"1\",\"groups\":[],\"item\":\"kept\",\"kept\":[0],\"most\":\"0\",\"ranks\":[0]}
{\"den\":\"1\",\"groups\":[],\"item\":\"kept\",\"kept\":[4294967296],\"most\":\"0\",\"ranks\":[0]}
{\"den\":\"1\",\"groups\":[],\"item\":\"kept\",\"kept\":[1],\"most\":\"0\",\"ranks\":[4294967296]}
{\"den\":\"4294967296\",\"groups\":[],\"item\":\"kept\",\"kept\":[1],\"most\":\"0\",\"ranks\":[0]}
{\"den\":\"1\",\"groups\":[{\"pairs\":[1],\"weight\":\"4294967296\"}],\"item\":\"kept\",\"kept\":[1],\"most\":\"0\",\"ranks\":[0]}
{\"den\":\"1\",\"groups\":[{\"cycle\":[1],\"pairs\":[1],\"weight\":\"1\"}],\"item\":\"kept\",\"kept\":[1],\"most\":\"0\",\"ranks\":[0]}
{\"den\":\"1\",\"groups\":[{\"pair\":[1],\"weight\":\"1\"}],\"item\":\"kept\",\"kept\":[1],\"most\":\"0\",\"ranks\":[0]}
{\"at\":[1],\"cycles\":[],\"den\":\"1\",\"item\":\"levels\",\"measure\":\"mean\",\"ranks\":[0]}
{\"at\":[0,2],\"cycles\":[],\"den\":\"1\",\"item\":\"levels\",\"measure\":\"mean\",\"ranks\":[0]}
{\"at\":[0],\"cycles\":[],\"den\":\"1\",\"item\":\"levels\",\"measure\":\"median\",\"ranks\":[0]}
{\"at\":[0],\"cycles\":[{\"cycle\":[1],\"weight\":\"18446744073709551616\"}],\"den\":\"1\",\"item\":\"levels\",\"measure\":\"mean\",\"ranks\":[0]}
{\"cost\":\"340282366920938463463374607431768211456\",\"cycles\":[],\"den\":\"1\",\"item\":\"steps\",\"ranks\":[0],\"taken\":[[]]}
{\"cost\":\"0\",\"cycles\":[],\"den\":\"1\",\"item\":\"steps\",\"ranks\":[0],\"taken\":[]  ,\"taken\":[1]}
{\"cost\":\"0\",\"cycles\":[],\"den\":\"1\",\"item\":\"steps\",\"ranks\":[0],\"taken\":[1]}
{\"cycle\":[1,1],\"den\":\"1\",\"item\":\"pump\",\"num\":\"0\",\"values\":[\"-0\"]}
{\"cycle\":[1,1],\"den\":\"1\",\"item\":\"pump\",\"num\":\"0\",\"values\":[\"170141183460469231731687303715884105728\"]}
{\"cycle\":[1,1],\"den\":\"1\",\"item\":\"pump\",\"num\":\"0\",\"values\":[\"-170141183460469231731687303715884105728\"]}
{\"cycle\":[1,1],\"den\":\"1\",\"item\":\"quasilinear_level\",\"num\":\"1/2\",\"values\":[\"0\"]}
{\"cycle\":[1,1],\"high\":\"18446744073709551616\",\"item\":\"homothetic_level\",\"low\":\"0\",\"values\":[\"1\"]}
{\"cycle\":[1,1],\"high\":\"1\",\"item\":\"homothetic_level\",\"low\":\"0\",\"values\":[\"-1\"]}";

/// What `read_fit` returns for a certificate with this second item.
fn outcome_of_item(alloc: Global, item: &str) -> Result<Outcome, Fail> {
    let mut text = String::from_str(
        alloc,
        "{\"items\":[{\"garp\":\"0\",\"item\":\"violations\",\"observations\":\"0\",\"sarp\":\"0\",\"warp\":\"0\",\"wgarp\":\"0\"},",
    )?;
    text.push_str(item)?;
    text.push_str("],\"kind\":\"fit\",\"version\":1}")?;
    Ok(outcome(alloc, text.as_str()))
}

/// Asserts that each line is an item that is read, or one that is not.
fn assert_items(
    rt: &impl Abort,
    alloc: Global,
    lines: &str,
    expected: Outcome,
) -> Result<(), Fail> {
    for item in lines.lines() {
        let found = outcome_of_item(alloc, item)?;
        assert_eq!(rt; found, expected, "{item}");
    }
    Ok(())
}

#[test]
fn items_are_read_within_limits(rt: HostRuntime) -> Result<(), Fail> {
    assert_items(&rt, rt.alloc(), READ, Ok(2))?;
    assert_items(
        &rt,
        rt.alloc(),
        REFUSED,
        Err(JsonFault::BadShape { item: 2 }),
    )
}
