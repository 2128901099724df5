//! What texts denote as certificates.
use rp_evidence::{Certificate, Kind};
use rp_json::{JsonFault, read, write};
use std::alloc::Global;
use std::test::Fail;

/// The certificate of two purchases that contradict each other.
const CONTRADICTION: &str =
    "{\"items\":[{\"cycle\":[1,2,1],\"item\":\"garp\"},{\"cycle\":[1,2,1],\"item\":\"afriat\"},{\"above\":[1,2,1],\"at_ranks\":[2,2],\"below\":[1,1],\"item\":\"efficiency\",\"level\":\"4/5\"},{\"cycle\":[1,2,1],\"item\":\"homothetic\",\"start\":\"1\"},{\"cycle\":[1,2,1],\"item\":\"quasilinear\"}],\"kind\":\"table\",\"version\":1}\n";

/// The certificate of the same purchases where the first counts for 799 thousandths of what was spent.
const LEVELS: &str =
    "{\"items\":[{\"item\":\"garp\",\"ranks\":[1,2]},{\"item\":\"afriat\",\"lambda\":[\"200\",\"1\"],\"utility\":[\"-1000\",\"0\"]},{\"above\":[1,2,1],\"at_ranks\":[2,2],\"below\":[1,1],\"item\":\"efficiency\",\"level\":\"4/5\"},{\"cycle\":[1,2,1],\"item\":\"homothetic\",\"start\":\"1\"},{\"cycle\":[1,2,1],\"item\":\"quasilinear\"}],\"kind\":\"table\",\"levels\":[799,1000],\"version\":2}\n";

/// A violation of random choices from two budgets.
const RANDOM: &str =
    "{\"items\":[{\"den\":\"1\",\"item\":\"random\",\"parts\":[[[1,4],\"1\"],[[2,3],\"2\"]],\"total\":\"4\",\"weights\":[\"1\",\"0\",\"1\",\"0\"]}],\"kind\":\"random\",\"version\":1}\n";

/// What is refused of these bytes, or nothing.
fn fault_of(alloc: Global, bytes: &[u8], kind: Kind) -> Option<JsonFault> {
    match read(alloc, bytes, kind) {
        Ok(_) => None,
        Err(fault) => Some(fault),
    }
}

/// Whether these bytes are read, and written again as that text.
fn is_written_as(alloc: Global, bytes: &[u8], kind: Kind, text: &str) -> Result<bool, JsonFault> {
    let certificate: Certificate = read(alloc, bytes, kind)?;
    let written = write(alloc, &certificate)?;
    Ok(written.as_slice() == text.as_bytes())
}

/// The text of a certificate of a table with one item.
fn of_table(alloc: Global, item: &str) -> Result<String, Fail> {
    Ok(format!(in alloc; "{{\"items\":[{item}],\"kind\":\"table\",\"version\":1}}\n")?)
}

/// Whole certificates are written as they were read, and so is one that is spelled in another way.
#[test]
fn whole_certificates_there_and_back(rt: HostRuntime) -> Result<(), Fail> {
    let alloc = rt.alloc();
    assert!(rt; is_written_as(alloc, CONTRADICTION.as_bytes(), Kind::Table, CONTRADICTION)?);
    assert!(rt; is_written_as(alloc, LEVELS.as_bytes(), Kind::Table, LEVELS)?);
    assert!(rt; is_written_as(alloc, RANDOM.as_bytes(), Kind::Random, RANDOM)?);
    let plain = "{\"items\":[],\"kind\":\"table\",\"version\":1}\n";
    for spelled in [
        "{\"items\":[],\"kind\":\"table\",\"version\":1}",
        " {\"version\": 1,\n\"kind\":\"t\\u0061ble\", \"items\":[ ]}\r\n",
        "{\"items\":[1],\"items\":[],\"kind\":\"table\",\"version\":1}",
    ] {
        assert!(rt; is_written_as(alloc, spelled.as_bytes(), Kind::Table, plain)?);
    }
    Ok(())
}

/// One item of every form on a table, there and back.
#[test]
fn items_of_every_form_there_and_back(rt: HostRuntime) -> Result<(), Fail> {
    let alloc = rt.alloc();
    for item in [
        "{\"item\":\"garp\",\"ranks\":[2,0,4294967295]}",
        "{\"cycle\":[],\"item\":\"garp\"}",
        "{\"item\":\"afriat\",\"lambda\":[\"1\",\"18446744073709551615\"],\"utility\":[\"0\",\"-4\"]}",
        "{\"item\":\"afriat\",\"withheld\":4294967295}",
        "{\"above\":[],\"at_cycle\":[2,1,2],\"below\":[2,1],\"item\":\"efficiency\",\"level\":\"0\"}",
        "{\"item\":\"homothetic\",\"values\":[\"1\",\"170141183460469231731687303715884105727\"]}",
        "{\"item\":\"homothetic\",\"withheld\":[2,3,1]}",
        "{\"item\":\"quasilinear\",\"values\":[\"0\",\"-170141183460469231731687303715884105727\"]}",
        "{\"below\":[1],\"expenditure\":\"3\",\"goods\":[{\"lower\":{\"den\":\"1\",\"value\":\"1/2\",\"x\":[\"1\"],\"y\":[[2,\"1\"]]},\"upper\":{\"withheld\":\"7\"}}],\"inner\":{\"den\":\"1\",\"num\":[\"2\"]},\"item\":\"demand\",\"prices\":[\"1\"],\"strict\":[]}",
        "{\"cycle\":[1,2,1],\"expenditure\":\"3\",\"item\":\"demand\",\"prices\":[\"1\",\"1\"]}",
        "{\"cycle\":[1,2,1],\"expenditure\":\"18446744073709551615\",\"item\":\"demand\",\"prices\":[\"4294967295\",\"0\"]}",
        "{\"at\":1,\"item\":\"welfare\",\"lower\":{\"withheld\":\"18446744073709551615\"},\"observation\":2,\"prices\":[\"1\"],\"upper\":\"12\"}",
        "{\"cycle\":[1,2,1],\"item\":\"welfare\",\"observation\":1,\"prices\":[\"1\"]}",
    ] {
        let text = of_table(alloc, item)?;
        assert!(rt; is_written_as(alloc, text.as_bytes(), Kind::Table, &text)?);
    }
    for item in [
        "{\"den\":\"2\",\"item\":\"random\",\"parts\":[],\"total\":\"4\"}",
        "{\"item\":\"random\",\"total\":\"4\",\"withheld\":\"1\"}",
    ] {
        let text = format!(in alloc; "{{\"items\":[{item}],\"kind\":\"random\",\"version\":1}}\n")?;
        assert!(rt; is_written_as(alloc, text.as_bytes(), Kind::Random, &text)?);
    }
    Ok(())
}

/// Items that are none: numbers out of their type, not plain or not in lowest terms; a name too many, missing or of
/// the other kind.
#[test]
fn items_that_are_none(rt: HostRuntime) -> Result<(), Fail> {
    let alloc = rt.alloc();
    for item in [
        "{\"item\":\"garp\"}",
        "{\"cycle\":[0],\"item\":\"garp\"}",
        "{\"cycle\":[4294967296],\"item\":\"garp\"}",
        "{\"cycle\":[1.0],\"item\":\"garp\"}",
        "{\"cycle\":[1e0],\"item\":\"garp\"}",
        "{\"cycle\":[\"1\"],\"item\":\"garp\"}",
        "{\"item\":\"garp\",\"ranks\":[-0]}",
        "{\"item\":\"garp\",\"ranks\":[4294967296]}",
        "{\"item\":\"garp\",\"more\":1,\"ranks\":[1]}",
        "{\"item\":\"GARP\",\"ranks\":[1]}",
        "{\"item\":\"afriat\",\"lambda\":[\"-0\"],\"utility\":[\"0\"]}",
        "{\"item\":\"afriat\",\"lambda\":[\"1\"],\"utility\":[\"-0\"]}",
        "{\"item\":\"afriat\",\"lambda\":[\"01\"],\"utility\":[\"0\"]}",
        "{\"item\":\"afriat\",\"lambda\":[\"+1\"],\"utility\":[\"0\"]}",
        "{\"item\":\"afriat\",\"lambda\":[\"18446744073709551616\"],\"utility\":[\"0\"]}",
        "{\"item\":\"homothetic\",\"values\":[\"2/4\"]}",
        "{\"item\":\"homothetic\",\"values\":[\"1/1\"]}",
        "{\"item\":\"homothetic\",\"withheld\":[4294967296,1,1]}",
        "{\"item\":\"quasilinear\",\"values\":[\"-170141183460469231731687303715884105728\"]}",
        "{\"above\":[],\"at_ranks\":[],\"below\":[],\"item\":\"efficiency\",\"level\":\"1/18446744073709551616\"}",
        "{\"item\":\"random\",\"total\":\"4\",\"withheld\":\"1\"}",
        "[]",
        "null",
    ] {
        let text = of_table(alloc, item)?;
        let fault = fault_of(alloc, text.as_bytes(), Kind::Table);
        assert!(rt; fault == Some(JsonFault::BadShape { item: 1 }));
    }
    let second = of_table(
        alloc,
        "{\"item\":\"garp\",\"ranks\":[1]},{\"item\":\"garp\"},7",
    )?;
    assert!(rt;
        fault_of(alloc, second.as_bytes(), Kind::Table) == Some(JsonFault::BadShape { item: 2 })
    );
    let last = of_table(
        alloc,
        "{\"item\":\"garp\",\"ranks\":[1]},{\"item\":\"garp\",\"ranks\":[1]},7",
    )?;
    assert!(rt;
        fault_of(alloc, last.as_bytes(), Kind::Table) == Some(JsonFault::BadShape { item: 3 })
    );
    Ok(())
}

/// Demand and welfare that are none: a price, an amount or a number past its type, an id of 0, a name too few.
#[test]
fn bounds_that_are_none(rt: HostRuntime) -> Result<(), Fail> {
    let alloc = rt.alloc();
    for item in [
        "{\"below\":[1],\"expenditure\":\"3\",\"goods\":[{\"lower\":{\"den\":\"1\",\"value\":\"1/2\",\"x\":[\"1\"],\"y\":[[2,\"1\"]]},\"upper\":{\"withheld\":\"7\"}}],\"inner\":{\"den\":\"1\",\"num\":[\"2\"]},\"item\":\"demand\",\"prices\":[\"4294967296\"],\"strict\":[]}",
        "{\"below\":[1],\"expenditure\":\"18446744073709551616\",\"goods\":[{\"lower\":{\"den\":\"1\",\"value\":\"1/2\",\"x\":[\"1\"],\"y\":[[2,\"1\"]]},\"upper\":{\"withheld\":\"7\"}}],\"inner\":{\"den\":\"1\",\"num\":[\"2\"]},\"item\":\"demand\",\"prices\":[\"1\"],\"strict\":[]}",
        "{\"below\":[0],\"expenditure\":\"3\",\"goods\":[{\"lower\":{\"den\":\"1\",\"value\":\"1/2\",\"x\":[\"1\"],\"y\":[[2,\"1\"]]},\"upper\":{\"withheld\":\"7\"}}],\"inner\":{\"den\":\"1\",\"num\":[\"2\"]},\"item\":\"demand\",\"prices\":[\"1\"],\"strict\":[]}",
        "{\"below\":[1],\"expenditure\":\"3\",\"goods\":[{\"lower\":{\"den\":\"1\",\"value\":\"1/2\",\"x\":[\"1\"],\"y\":[[0,\"1\"]]},\"upper\":{\"withheld\":\"7\"}}],\"inner\":{\"den\":\"1\",\"num\":[\"2\"]},\"item\":\"demand\",\"prices\":[\"1\"],\"strict\":[]}",
        "{\"below\":[1],\"expenditure\":\"3\",\"goods\":[{\"lower\":{\"den\":\"1\",\"value\":\"1/2\",\"x\":[\"1\"],\"y\":[[4294967296,\"1\"]]},\"upper\":{\"withheld\":\"7\"}}],\"inner\":{\"den\":\"1\",\"num\":[\"2\"]},\"item\":\"demand\",\"prices\":[\"1\"],\"strict\":[]}",
        "{\"below\":[1],\"expenditure\":\"3\",\"goods\":[{\"lower\":{\"den\":\"1\",\"value\":\"1/2\",\"x\":[\"1\"],\"y\":[[2,\"1\",1]]},\"upper\":{\"withheld\":\"7\"}}],\"inner\":{\"den\":\"1\",\"num\":[\"2\"]},\"item\":\"demand\",\"prices\":[\"1\"],\"strict\":[]}",
        "{\"below\":[1],\"expenditure\":\"3\",\"goods\":[{\"lower\":{\"den\":\"1\",\"value\":\"1/2\",\"x\":[\"1\"],\"y\":[[2,\"1\"]]}}],\"inner\":{\"den\":\"1\",\"num\":[\"2\"]},\"item\":\"demand\",\"prices\":[\"1\"],\"strict\":[]}",
        "{\"below\":[1],\"expenditure\":\"3\",\"goods\":[{\"lower\":{\"den\":\"1\",\"value\":\"1/2\",\"y\":[[2,\"1\"]]},\"upper\":{\"withheld\":\"7\"}}],\"inner\":{\"den\":\"1\",\"num\":[\"2\"]},\"item\":\"demand\",\"prices\":[\"1\"],\"strict\":[]}",
        "{\"below\":[1],\"expenditure\":\"3\",\"goods\":[{\"lower\":{\"den\":\"1\",\"value\":\"1/2\",\"x\":[\"1\"],\"y\":[[2,\"1\"]]},\"upper\":{\"withheld\":\"7\"}}],\"inner\":{\"num\":[\"2\"]},\"item\":\"demand\",\"prices\":[\"1\"],\"strict\":[]}",
        "{\"below\":[1],\"expenditure\":\"3\",\"goods\":[{\"lower\":{\"den\":\"1\",\"value\":\"1/2\",\"x\":[\"1\"],\"y\":[[2,\"1\"]]},\"upper\":{\"withheld\":\"7\"}}],\"inner\":{\"den\":\"1\",\"num\":[\"2\"]},\"item\":\"demand\",\"prices\":[\"1\"]}",
        "{\"cycle\":[1,2,1],\"item\":\"demand\",\"prices\":[\"1\",\"1\"]}",
        "{\"cycle\":[1,2,1],\"expenditure\":\"3\",\"item\":\"demand\",\"prices\":[\"1\",\"4294967296\"]}",
        "{\"at\":1,\"item\":\"welfare\",\"lower\":{\"withheld\":\"7\"},\"observation\":2,\"prices\":[\"4294967296\"],\"upper\":\"12\"}",
        "{\"at\":1,\"item\":\"welfare\",\"lower\":{\"den\":\"1\",\"value\":\"8\",\"x\":[\"8\"],\"y\":[[0,\"1\"]]},\"observation\":2,\"prices\":[\"1\"],\"upper\":\"12\"}",
        "{\"at\":0,\"item\":\"welfare\",\"lower\":{\"withheld\":\"7\"},\"observation\":2,\"prices\":[\"1\"],\"upper\":\"12\"}",
        "{\"at\":1,\"item\":\"welfare\",\"lower\":{\"withheld\":\"7\"},\"observation\":0,\"prices\":[\"1\"],\"upper\":\"12\"}",
        "{\"at\":1,\"item\":\"welfare\",\"lower\":{\"withheld\":\"7\"},\"observation\":2,\"prices\":[\"1\"],\"upper\":\"18446744073709551616\"}",
        "{\"at\":1,\"item\":\"welfare\",\"lower\":{\"withheld\":\"7\"},\"observation\":2,\"prices\":[\"1\"]}",
        "{\"at\":1,\"item\":\"welfare\",\"lower\":{},\"observation\":2,\"prices\":[\"1\"],\"upper\":\"12\"}",
        "{\"cycle\":[1,2,1],\"item\":\"welfare\",\"prices\":[\"1\"]}",
        "{\"cycle\":[1,2,1],\"item\":\"welfare\",\"observation\":1,\"prices\":[\"4294967296\"]}",
    ] {
        let text = of_table(alloc, item)?;
        let fault = fault_of(alloc, text.as_bytes(), Kind::Table);
        assert!(rt; fault == Some(JsonFault::BadShape { item: 1 }), "{item}");
    }
    Ok(())
}

/// The top: its kind, its version and its items, whatever else stands there; then which version it is.
#[test]
fn tops_and_versions(rt: HostRuntime) -> Result<(), Fail> {
    let alloc = rt.alloc();
    let whole = Some(JsonFault::BadShape { item: 0 });
    let version = Some(JsonFault::BadVersion);
    for (text, fault) in [
        ("{\"items\":[7],\"kind\":\"table\",\"version\":0}", version),
        ("{\"items\":[],\"kind\":\"table\",\"version\":3}", version),
        (
            "{\"items\":[],\"kind\":\"table\",\"levels\":[1],\"version\":3}",
            version,
        ),
        (
            "{\"items\":[],\"kind\":\"table\",\"levels\":7,\"more\":1,\"version\":3}",
            version,
        ),
        ("{\"items\":[],\"kind\":\"random\",\"version\":3}", whole),
        ("{\"items\":[],\"version\":3}", whole),
        ("{\"kind\":\"table\",\"version\":3}", whole),
        ("{\"items\":[],\"kind\":\"table\",\"version\":1.0}", whole),
        ("{\"items\":[],\"kind\":\"table\",\"version\":-1}", whole),
        (
            "{\"items\":[],\"kind\":\"table\",\"version\":18446744073709551616}",
            whole,
        ),
        ("{\"items\":[],\"kind\":\"random\",\"version\":1}", whole),
        ("{\"items\":{},\"kind\":\"table\",\"version\":1}", whole),
        ("{\"items\":[],\"kind\":\"table\"}", whole),
        (
            "{\"items\":[],\"kind\":\"table\",\"more\":1,\"version\":1}",
            whole,
        ),
        (
            "{\"items\":[],\"kind\":\"table\",\"levels\":[],\"version\":1}",
            whole,
        ),
        (
            "{\"items\":[],\"kind\":\"table\",\"levels\":[1],\"version\":1}",
            whole,
        ),
        ("[]", whole),
        ("1", whole),
    ] {
        assert!(rt;
            fault_of(alloc, text.as_bytes(), Kind::Table) == fault,
            "{text}"
        );
    }
    Ok(())
}

/// Version 2: on a table alone, with one or more levels of 1 to 1,000; and only then its items.
#[test]
fn tops_with_levels(rt: HostRuntime) -> Result<(), Fail> {
    let alloc = rt.alloc();
    let whole = Some(JsonFault::BadShape { item: 0 });
    for (text, fault) in [
        ("{\"items\":[],\"kind\":\"table\",\"version\":2}", whole),
        (
            "{\"items\":[7],\"kind\":\"table\",\"levels\":[],\"version\":2}",
            whole,
        ),
        (
            "{\"items\":[],\"kind\":\"table\",\"levels\":[0],\"version\":2}",
            whole,
        ),
        (
            "{\"items\":[],\"kind\":\"table\",\"levels\":[1,1001],\"version\":2}",
            whole,
        ),
        (
            "{\"items\":[],\"kind\":\"table\",\"levels\":[\"1\"],\"version\":2}",
            whole,
        ),
        (
            "{\"items\":[],\"kind\":\"table\",\"levels\":[1.0],\"version\":2}",
            whole,
        ),
        (
            "{\"items\":[],\"kind\":\"table\",\"levels\":\"1\",\"version\":2}",
            whole,
        ),
        (
            "{\"items\":[],\"kind\":\"table\",\"levels\":1,\"version\":2}",
            whole,
        ),
        (
            "{\"items\":[],\"kind\":\"table\",\"levels\":[1],\"more\":1,\"version\":2}",
            whole,
        ),
        (
            "{\"items\":[],\"kind\":\"table\",\"more\":[1],\"version\":2}",
            whole,
        ),
        (
            "{\"items\":[],\"kind\":\"random\",\"levels\":[1],\"version\":2}",
            whole,
        ),
        (
            "{\"items\":[],\"kind\":\"table\",\"levels\":[1,1000],\"version\":2}",
            None,
        ),
        (
            "{\"items\":[7],\"kind\":\"table\",\"levels\":[1],\"version\":2}",
            Some(JsonFault::BadShape { item: 1 }),
        ),
    ] {
        assert!(rt;
            fault_of(alloc, text.as_bytes(), Kind::Table) == fault,
            "{text}"
        );
    }
    for (text, fault) in [
        (
            "{\"items\":[],\"kind\":\"random\",\"levels\":[1],\"version\":2}",
            whole,
        ),
        ("{\"items\":[],\"kind\":\"random\",\"version\":2}", whole),
        ("{\"items\":[],\"kind\":\"random\",\"version\":1}", None),
    ] {
        assert!(rt;
            fault_of(alloc, text.as_bytes(), Kind::Random) == fault,
            "{text}"
        );
    }
    Ok(())
}

/// Bytes that are no JSON: none at all, cut short, not UTF-8, a lone surrogate, nested too deeply.
#[test]
fn bytes_that_are_no_json(rt: HostRuntime) -> Result<(), Fail> {
    let alloc = rt.alloc();
    let cut = &CONTRADICTION.as_bytes()[..CONTRADICTION.len() - 2];
    assert!(rt; fault_of(alloc, cut, Kind::Table) == Some(JsonFault::NotJson));
    for bytes in [
        &b""[..],
        b"{",
        b"{\"items\":[],}",
        b"\xff",
        b"\xef\xbb\xbf1",
        b"\"\\ud800\"",
        b"1 1",
        b"01",
    ] {
        assert!(rt; fault_of(alloc, bytes, Kind::Table) == Some(JsonFault::NotJson));
    }
    let mut deep = Vec::new(alloc);
    for _ in 0..200 {
        deep.push(b'[')?;
    }
    for _ in 0..200 {
        deep.push(b']')?;
    }
    assert!(rt; fault_of(alloc, deep.as_slice(), Kind::Table) == Some(JsonFault::NotJson));
    Ok(())
}

/// The text of each fault is its name.
#[test]
fn texts_of_faults(rt: HostRuntime) -> Result<(), Fail> {
    let alloc = rt.alloc();
    for (fault, text) in [
        (JsonFault::NotJson, "NotJson"),
        (JsonFault::BadVersion, "BadVersion"),
        (JsonFault::BadShape { item: 3 }, "BadShape"),
        (JsonFault::NoMemory, "NoMemory"),
    ] {
        assert!(rt; fault.to_string(alloc)?.as_str() == text);
    }
    Ok(())
}
