//! Texts that are refused as certificates.
use rp_commands::Status;
use std::alloc::Global;
use std::test::Fail;
use tests_inputs::tables::{CERTIFICATE, CONTRADICTION, certificate_of};
use tests_support::{CHECK, ends, filled, prints, refuses};

/// The text is refused as a certificate with that fault.
fn refuses_text(alloc: Global, text: &str, fault: &str) -> Result<(), Fail> {
    let line = format!(in alloc; "rp: c.json: {fault}\n")?;
    refuses(
        alloc,
        CHECK,
        &[("t.csv", CONTRADICTION), ("c.json", text)],
        line.as_str(),
    )
}

const TEXTS: &[(&str, &str)] = &[
    ("", "NotJson"),
    (CONTRADICTION, "NotJson"),
    (
        "{\"items\":[],\"kind\":\"table\",\"version\":1}{}",
        "NotJson",
    ),
    ("[]", "BadShape item 0"),
    (
        "{\"items\":{},\"kind\":\"table\",\"version\":1}",
        "BadShape item 0",
    ),
    ("{\"items\":[],\"kind\":\"table\"}", "BadShape item 0"),
    (
        "{\"items\":[],\"kind\":\"table\",\"levels\":[],\"version\":1}",
        "BadShape item 0",
    ),
    (
        "{\"items\":[],\"kind\":\"table\",\"version\":\"1\"}",
        "BadShape item 0",
    ),
    (
        "{\"items\":[],\"kind\":\"random\",\"version\":1}",
        "BadShape item 0",
    ),
    (
        "{\"items\":[],\"kind\":\"random\",\"version\":2}",
        "BadShape item 0",
    ),
    (
        "{\"items\":[{\"den\":\"1\",\"item\":\"random\",\"parts\":[[[1,4],\"1\"],[[2,3],\"2\"]],\"total\":\"4\",\"weights\":[\"1\",\"0\",\"1\",\"0\"]}],\"kind\":\"random\",\"version\":1}",
        "BadShape item 0",
    ),
    (
        "{\"items\":[],\"kind\":\"table\",\"version\":2}",
        "BadShape item 0",
    ),
    (
        "{\"items\":[],\"kind\":\"table\",\"levels\":[1001],\"version\":2}",
        "BadShape item 0",
    ),
    (
        "{\"items\":[],\"kind\":\"table\",\"levels\":7,\"version\":3}",
        "BadVersion",
    ),
    (
        "{\"items\":[7],\"kind\":\"table\",\"version\":0}",
        "BadVersion",
    ),
];

#[test]
fn texts_that_are_no_certificate(rt: HostRuntime) -> Result<(), Fail> {
    let Some(cut) = CERTIFICATE.get(..20) else {
        return Err("past the end".into());
    };
    refuses_text(rt.alloc(), cut, "NotJson")?;
    for (text, fault) in TEXTS {
        refuses_text(rt.alloc(), text, fault)?;
    }
    Ok(())
}

const ITEMS: &[(&str, &str)] = &[
    (
        "{\"cycle\":[1,2,1],\"item\":\"garp\"},{\"item\":\"garp\"}",
        "BadShape item 2",
    ),
    ("{\"cycle\":[0],\"item\":\"garp\"}", "BadShape item 1"),
    (
        "{\"cycle\":[1,2,1],\"item\":\"garp\"},{\"item\":\"afriat\",\"lambda\":[\"1\",\"1\"],\"utility\":[\"-0\",\"0\"]}",
        "BadShape item 2",
    ),
    (
        "{\"cycle\":[1,2,1],\"item\":\"garp\"},{\"cycle\":[1,2,1],\"item\":\"afriat\"},{\"item\":\"homothetic\",\"values\":[\"1\",\"2/4\"]}",
        "BadShape item 3",
    ),
    // an item that the table refutes stands before one that is none
    (
        "{\"item\":\"garp\",\"ranks\":[1,1]},{\"item\":\"garp\"},7",
        "BadShape item 2",
    ),
    (
        "{\"item\":\"random\",\"total\":\"4\",\"withheld\":\"1\"}",
        "BadShape item 1",
    ),
];

#[test]
fn items_that_are_none_are_told_by_their_number(rt: HostRuntime) -> Result<(), Fail> {
    for (items, fault) in ITEMS {
        let text = certificate_of(rt.alloc(), items)?;
        refuses_text(rt.alloc(), text.as_str(), fault)?;
    }
    Ok(())
}

const FILES: &[(&[(&str, &str)], Status, &str)] = &[
    (
        &[("t.csv", ""), ("c.json", "{")],
        Status::Refused,
        "rp: t.csv: Empty\n",
    ),
    (
        &[("t.csv", "p_a,q_b\n1,1\n")],
        Status::Refused,
        "rp: t.csv: Unpaired column 1\n",
    ),
    (
        &[("c.json", "{")],
        Status::ReadFault,
        "rp: t.csv: read failed\n",
    ),
    (&[], Status::ReadFault, "rp: t.csv: read failed\n"),
    (
        &[("t.csv", CONTRADICTION)],
        Status::ReadFault,
        "rp: c.json: read failed\n",
    ),
];

#[test]
fn the_table_is_read_before_the_certificate(rt: HostRuntime) -> Result<(), Fail> {
    for (files, status, line) in FILES {
        ends(rt.alloc(), CHECK, files, *status, "", line)?;
    }
    Ok(())
}

#[test]
fn one_file_as_table_and_as_certificate(rt: HostRuntime) -> Result<(), Fail> {
    let files = &[("t.csv", CONTRADICTION), ("c.json", CERTIFICATE)];
    for (name, line) in [
        ("t.csv", "rp: t.csv: NotJson\n"),
        ("c.json", "rp: c.json: BadHeader column 1\n"),
    ] {
        refuses(rt.alloc(), &["rp", "check", name, name], files, line)?;
    }
    Ok(())
}

/// The certificate after so many spaces.
fn after_spaces(alloc: Global, spaces: usize) -> Result<String, Fail> {
    let mut text = filled(alloc, b' ', spaces)?;
    text.push_str(CERTIFICATE)?;
    Ok(text)
}

#[test]
fn a_certificate_of_the_most_bytes_and_of_one_more(rt: HostRuntime) -> Result<(), Fail> {
    let alloc = rt.alloc();
    assert!(rt; CERTIFICATE.len() == 277);
    let most = after_spaces(alloc, 16_777_216 - 277)?;
    let files = &[("t.csv", CONTRADICTION), ("c.json", most.as_str())];
    prints(alloc, CHECK, files, "accepted items 5 withheld 0\n")?;
    let more = after_spaces(alloc, 16_777_217 - 277)?;
    refuses_text(alloc, more.as_str(), "TooLong")
}

/// Spaces alone are no JSON.
#[test]
fn a_long_file_is_refused_before_it_is_read(rt: HostRuntime) -> Result<(), Fail> {
    for (size, fault) in [(16_777_216, "NotJson"), (16_777_217, "TooLong")] {
        let text = filled(rt.alloc(), b' ', size)?;
        refuses_text(rt.alloc(), text.as_str(), fault)?;
    }
    Ok(())
}
