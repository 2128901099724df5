//! Certificates that are written, read and accepted.
use rp_commands::Status;
use rp_evidence::Kind;
use rp_json::{JsonFault, read, write};
use std::alloc::Global;
use std::process::Abort;
use std::test::Fail;
use tests_inputs::tables::{
    ALONE, APART, CONTRADICTION, EQUAL, MORE_AND_LESS, NINE_TENTHS, THREE, certificate_of,
};
use tests_support::{CHECK, joined, prints, run_with_failures, tells};

/// Whether the text is read as a certificate on a table, and written again as it stood.
fn is_read_unchanged(alloc: Global, text: &str) -> Result<bool, JsonFault> {
    let certificate = read(alloc, text.as_bytes(), Kind::Table)?;
    let written = write(alloc, &certificate)?;
    Ok(written.as_slice() == text.as_bytes())
}

/// The words over the files, of which the first is the table, print the certificate, which is read unchanged and
/// accepted on the table with that line.
fn writes_and_accepts(
    rt: &impl Abort,
    alloc: Global,
    words: &[&str],
    files: &[(&str, &str)],
    certificate: &str,
    line: &str,
) -> Result<(), Fail> {
    let Some((_, table)) = files.first() else {
        return Err("no table".into());
    };
    prints(alloc, words, files, certificate)?;
    assert!(rt;
        is_read_unchanged(alloc, certificate)?,
        "{words:?} over {files:?}"
    );
    prints(
        alloc,
        CHECK,
        &[("t.csv", table), ("c.json", certificate)],
        line,
    )
}

/// Tables, the items of their certificates, and how many of these are withheld.
const OF_TABLES: &[(&str, &str, u32)] = &[
    (
        CONTRADICTION,
        "{\"cycle\":[1,2,1],\"item\":\"garp\"},{\"cycle\":[1,2,1],\"item\":\"afriat\"},{\"above\":[1,2,1],\"at_ranks\":[2,2],\"below\":[1,1],\"item\":\"efficiency\",\"level\":\"4/5\"},{\"cycle\":[1,2,1],\"item\":\"homothetic\",\"start\":\"1\"},{\"cycle\":[1,2,1],\"item\":\"quasilinear\"}",
        0,
    ),
    (
        APART,
        "{\"item\":\"garp\",\"ranks\":[1,1]},{\"item\":\"afriat\",\"lambda\":[\"1\",\"1\"],\"utility\":[\"0\",\"0\"]},{\"above\":[],\"at_ranks\":[1,1],\"below\":[1,1],\"item\":\"efficiency\",\"level\":\"1\"},{\"item\":\"homothetic\",\"values\":[\"1\",\"1\"]},{\"item\":\"quasilinear\",\"values\":[\"0\",\"0\"]}",
        0,
    ),
    (
        MORE_AND_LESS,
        "{\"item\":\"garp\",\"ranks\":[2,1]},{\"item\":\"afriat\",\"lambda\":[\"1\",\"1\"],\"utility\":[\"0\",\"-4\"]},{\"above\":[],\"at_ranks\":[2,1],\"below\":[2,1],\"item\":\"efficiency\",\"level\":\"1\"},{\"item\":\"homothetic\",\"values\":[\"1\",\"1/2\"]},{\"item\":\"quasilinear\",\"values\":[\"0\",\"-4\"]}",
        0,
    ),
    (
        EQUAL,
        "{\"item\":\"garp\",\"ranks\":[2,2]},{\"item\":\"afriat\",\"lambda\":[\"1\",\"1\"],\"utility\":[\"0\",\"0\"]},{\"above\":[],\"at_ranks\":[2,2],\"below\":[1,1],\"item\":\"efficiency\",\"level\":\"1\"},{\"item\":\"homothetic\",\"values\":[\"1\",\"1\"]},{\"item\":\"quasilinear\",\"values\":[\"0\",\"0\"]}",
        0,
    ),
    (
        NINE_TENTHS,
        "{\"cycle\":[1,2,1],\"item\":\"garp\"},{\"cycle\":[1,2,1],\"item\":\"afriat\"},{\"above\":[1,2,1],\"at_cycle\":[2,1,2],\"below\":[2,1],\"item\":\"efficiency\",\"level\":\"9/10\"},{\"cycle\":[1,2,1],\"item\":\"homothetic\",\"start\":\"1\"},{\"cycle\":[1,2,1],\"item\":\"quasilinear\"}",
        0,
    ),
    (
        THREE,
        "{\"cycle\":[1,2,3,1],\"item\":\"garp\"},{\"cycle\":[1,2,3,1],\"item\":\"afriat\"},{\"above\":[1,2,3,1],\"at_ranks\":[3,3,3],\"below\":[1,1,1],\"item\":\"efficiency\",\"level\":\"1/2\"},{\"cycle\":[1,2,1],\"item\":\"homothetic\",\"start\":\"1\"},{\"cycle\":[1,2,3,1],\"item\":\"quasilinear\"}",
        0,
    ),
    (
        ALONE,
        "{\"item\":\"garp\",\"ranks\":[1]},{\"item\":\"afriat\",\"lambda\":[\"1\"],\"utility\":[\"0\"]},{\"above\":[],\"at_ranks\":[1],\"below\":[1],\"item\":\"efficiency\",\"level\":\"1\"},{\"item\":\"homothetic\",\"values\":[\"1\"]},{\"item\":\"quasilinear\",\"values\":[\"0\"]}",
        0,
    ),
    (
        "p_a,q_a,p_b,q_b\n2,3,1,2\n1,0,2,3\n2,1,1,0\n",
        "{\"item\":\"garp\",\"ranks\":[3,2,1]},{\"item\":\"afriat\",\"lambda\":[\"1\",\"5\",\"25\"],\"utility\":[\"0\",\"-5\",\"-30\"]},{\"above\":[],\"at_ranks\":[3,2,1],\"below\":[3,2,1],\"item\":\"efficiency\",\"level\":\"1\"},{\"cycle\":[1,2,1],\"item\":\"homothetic\",\"start\":\"1\"},{\"cycle\":[1,2,1],\"item\":\"quasilinear\"}",
        0,
    ),
    (
        "p_a,q_a,p_b,q_b,p_c,q_c\n2,1,2,3,3,0\n3,1,1,0,1,3\n3,0,1,3,2,2\n2,3,2,1,2,3\n",
        "{\"item\":\"garp\",\"ranks\":[1,3,2,4]},{\"item\":\"afriat\",\"lambda\":[\"1\",\"1\",\"1\",\"1\"],\"utility\":[\"-8\",\"-6\",\"-7\",\"0\"]},{\"above\":[],\"at_ranks\":[1,3,2,4],\"below\":[1,3,2,4],\"item\":\"efficiency\",\"level\":\"1\"},{\"cycle\":[2,3,1,2],\"item\":\"homothetic\",\"start\":\"4/7\"},{\"item\":\"quasilinear\",\"values\":[\"-8\",\"-6\",\"-7\",\"0\"]}",
        0,
    ),
    (
        "p_a,q_a,p_b,q_b,p_c,q_c\n1,4,1,3,3,2\n2,3,1,4,4,0\n4,1,2,1,3,1\n4,0,2,2,4,0\n2,4,4,3,3,4\n",
        "{\"item\":\"garp\",\"ranks\":[4,3,2,1,5]},{\"item\":\"afriat\",\"lambda\":[\"1\",\"1\",\"1\",\"1\",\"1\"],\"utility\":[\"-6\",\"-12\",\"-23\",\"-28\",\"0\"]},{\"above\":[],\"at_ranks\":[4,3,2,1,5],\"below\":[4,3,2,1,5],\"item\":\"efficiency\",\"level\":\"1\"},{\"cycle\":[1,2,4,1],\"item\":\"homothetic\",\"start\":\"13/16\"},{\"item\":\"quasilinear\",\"values\":[\"-6\",\"-12\",\"-23\",\"-28\",\"0\"]}",
        0,
    ),
    (
        "p_a,q_a,p_b,q_b,p_c,q_c\n81265,44542,3591,94595,81629,59312\n95990,34016,10759,69607,54061,93616\n3408,62757,96001,14179,40182,17583\n13978,72477,34584,37214,74213,37714\n34585,70604,3772,60680,33424,39990\n",
        "{\"item\":\"garp\",\"ranks\":[2,3,1,2,4]},{\"item\":\"afriat\",\"lambda\":[\"1\",\"1\",\"1\",\"1\",\"1\"],\"utility\":[\"-127608362\",\"560672088\",\"-2554098865\",\"-127608362\",\"0\"]},{\"above\":[],\"at_ranks\":[2,3,1,2,4],\"below\":[2,3,1,2,4],\"item\":\"efficiency\",\"level\":\"1\"},{\"item\":\"homothetic\",\"withheld\":[3,3,1]},{\"item\":\"quasilinear\",\"values\":[\"-575271912\",\"0\",\"-2790100334\",\"-274212450\",\"-156367785\"]}",
        1,
    ),
    // the third weight would pass 2^60
    (
        "p_a,q_a,p_b,q_b\n1048576,1048577,1,1048576\n1,0,1048576,1048577\n1048576,1,1,0\n",
        "{\"item\":\"garp\",\"ranks\":[3,2,1]},{\"item\":\"afriat\",\"withheld\":3},{\"above\":[],\"at_ranks\":[3,2,1],\"below\":[3,2,1],\"item\":\"efficiency\",\"level\":\"1\"},{\"cycle\":[1,2,1],\"item\":\"homothetic\",\"start\":\"1\"},{\"cycle\":[1,2,1],\"item\":\"quasilinear\"}",
        1,
    ),
    // a product of three steps would pass 2^127
    (
        "p_a,q_a,p_b,q_b\n4194304,2097151,1,4194304\n1,1747627,3145727,2796203\n1,4194304,4194304,2097151\n",
        "{\"item\":\"garp\",\"ranks\":[3,2,1]},{\"item\":\"afriat\",\"lambda\":[\"1\",\"1\",\"1\"],\"utility\":[\"0\",\"-1466011309397\",\"-3665035613524\"]},{\"above\":[],\"at_ranks\":[3,2,1],\"below\":[3,2,1],\"item\":\"efficiency\",\"level\":\"1\"},{\"item\":\"homothetic\",\"withheld\":[2,3,1]},{\"item\":\"quasilinear\",\"values\":[\"0\",\"-1466011309397\",\"-3665035613524\"]}",
        1,
    ),
];

#[test]
fn certificates_of_tables_are_written_and_accepted(rt: HostRuntime) -> Result<(), Fail> {
    let alloc = rt.alloc();
    for (table, items, withheld) in OF_TABLES {
        let certificate = certificate_of(alloc, items)?;
        let line = format!(in alloc; "accepted items 5 withheld {withheld}\n")?;
        writes_and_accepts(
            &rt,
            alloc,
            &["rp", "certify", "t.csv"],
            &[("t.csv", table)],
            certificate.as_str(),
            line.as_str(),
        )?;
    }
    Ok(())
}

/// Commands, tables and new prices, with the items of their certificates and how many these are.
const AT_NEW_PRICES: &[(&str, &str, &str, &str, u32)] = &[
    (
        "demand",
        APART,
        "p_a,p_b,m\n1,1,3\n",
        "{\"item\":\"garp\",\"ranks\":[1,1]},{\"below\":[1,2],\"expenditure\":\"3\",\"goods\":[{\"lower\":{\"den\":\"1\",\"value\":\"1\",\"x\":[\"1\",\"2\"],\"y\":[[2,\"1\"],[4,\"1\"]]},\"upper\":{\"den\":\"1\",\"value\":\"2\",\"x\":[\"2\",\"1\"],\"y\":[[1,\"1\"],[4,\"1\"]]}},{\"lower\":{\"den\":\"1\",\"value\":\"1\",\"x\":[\"2\",\"1\"],\"y\":[[1,\"1\"],[4,\"1\"]]},\"upper\":{\"den\":\"1\",\"value\":\"2\",\"x\":[\"1\",\"2\"],\"y\":[[2,\"1\"],[4,\"1\"]]}}],\"inner\":{\"den\":\"1\",\"num\":[\"2\",\"1\"]},\"item\":\"demand\",\"prices\":[\"1\",\"1\"],\"strict\":[]}",
        2,
    ),
    (
        "demand",
        APART,
        "p_a,p_b,m\n1,1,4\n",
        "{\"item\":\"garp\",\"ranks\":[1,1]},{\"below\":[1,2],\"expenditure\":\"4\",\"goods\":[{\"lower\":{\"den\":\"1\",\"value\":\"0\",\"x\":[\"0\",\"4\"],\"y\":[]},\"upper\":{\"den\":\"1\",\"value\":\"4\",\"x\":[\"4\",\"0\"],\"y\":[]}},{\"lower\":{\"den\":\"1\",\"value\":\"0\",\"x\":[\"4\",\"0\"],\"y\":[]},\"upper\":{\"den\":\"1\",\"value\":\"4\",\"x\":[\"0\",\"4\"],\"y\":[]}}],\"inner\":{\"den\":\"1\",\"num\":[\"3\",\"1\"]},\"item\":\"demand\",\"prices\":[\"1\",\"1\"],\"strict\":[1,2]}",
        2,
    ),
    (
        "demand",
        CONTRADICTION,
        "p_a,p_b,m\n1,1,3\n",
        "{\"cycle\":[1,2,1],\"item\":\"garp\"},{\"cycle\":[1,2,1],\"expenditure\":\"3\",\"item\":\"demand\",\"prices\":[\"1\",\"1\"]}",
        2,
    ),
    (
        "welfare",
        MORE_AND_LESS,
        "p_a,p_b\n1,2\n",
        "{\"item\":\"garp\",\"ranks\":[2,1]},{\"at\":1,\"item\":\"welfare\",\"lower\":{\"den\":\"1\",\"value\":\"8\",\"x\":[\"8\",\"0\"],\"y\":[[1,\"1\"]]},\"observation\":1,\"prices\":[\"1\",\"2\"],\"upper\":\"12\"},{\"at\":2,\"item\":\"welfare\",\"lower\":{\"den\":\"1\",\"value\":\"4\",\"x\":[\"4\",\"0\"],\"y\":[[1,\"1\"]]},\"observation\":2,\"prices\":[\"1\",\"2\"],\"upper\":\"6\"}",
        3,
    ),
    (
        "welfare",
        CONTRADICTION,
        "p_a,p_b\n1,2\n",
        "{\"cycle\":[1,2,1],\"item\":\"garp\"},{\"cycle\":[1,2,1],\"item\":\"welfare\",\"observation\":1,\"prices\":[\"1\",\"2\"]},{\"cycle\":[1,2,1],\"item\":\"welfare\",\"observation\":2,\"prices\":[\"1\",\"2\"]}",
        3,
    ),
];

#[test]
fn certificates_at_new_prices_are_written_and_accepted(rt: HostRuntime) -> Result<(), Fail> {
    let alloc = rt.alloc();
    for (command, table, new, items, count) in AT_NEW_PRICES {
        let certificate = certificate_of(alloc, items)?;
        let line = format!(in alloc; "accepted items {count} withheld 0\n")?;
        writes_and_accepts(
            &rt,
            alloc,
            &["rp", command, "t.csv", "n.csv", "--json"],
            &[("t.csv", table), ("n.csv", new)],
            certificate.as_str(),
            line.as_str(),
        )?;
    }
    Ok(())
}

/// 25 rounds that alternate between two budgets.
fn rounds(alloc: Global) -> Result<String, Fail> {
    let mut file = String::from_str(alloc, "p_a,p_b,q_a,q_b\n")?;
    for round in 1..26u32 {
        file.push_str(if round % 2 == 1 {
            "1.25,2.50,20.2,10.1\n"
        } else {
            "2.50,1.25,10.1,20.2\n"
        })?;
    }
    Ok(file)
}

/// A list of 25 entries that alternate.
fn list(alloc: Global, odd: &str, even: &str) -> Result<String, Fail> {
    let mut text = String::from_str(alloc, odd)?;
    for round in 2..26u32 {
        text.push_str(",")?;
        text.push_str(if round % 2 == 1 { odd } else { even })?;
    }
    Ok(text)
}

/// The certificate of the rounds: at the prices of one, bundles of its own parity cost 50500 and the others 63125.
fn certificate_of_rounds(alloc: Global) -> Result<String, Fail> {
    let (ranks, utility) = (list(alloc, "13", "12")?, list(alloc, "\"0\"", "\"12625\"")?);
    let (ones, units) = (list(alloc, "1", "1")?, list(alloc, "\"1\"", "\"1\"")?);
    let sums = list(alloc, "\"0\"", "\"0\"")?;
    let items = joined(
        alloc,
        &[
            "{\"item\":\"garp\",\"ranks\":[",
            ranks.as_str(),
            "]},{\"item\":\"afriat\",\"lambda\":[",
            units.as_str(),
            "],\"utility\":[",
            utility.as_str(),
            "]},{\"above\":[],\"at_ranks\":[",
            ranks.as_str(),
            "],\"below\":[",
            ones.as_str(),
            "],\"item\":\"efficiency\",\"level\":\"1\"},{\"item\":\"homothetic\",\"values\":[",
            units.as_str(),
            "]},{\"item\":\"quasilinear\",\"values\":[",
            sums.as_str(),
            "]}",
        ],
    )?;
    certificate_of(alloc, items.as_str())
}

#[test]
fn the_certificate_of_rounds_with_decimals(rt: HostRuntime) -> Result<(), Fail> {
    let alloc = rt.alloc();
    let (table, certificate) = (rounds(alloc)?, certificate_of_rounds(alloc)?);
    writes_and_accepts(
        &rt,
        alloc,
        &["rp", "certify", "t.csv"],
        &[("t.csv", table.as_str())],
        certificate.as_str(),
        "accepted items 5 withheld 0\n",
    )
}

#[test]
fn rounds_whose_first_read_fails(rt: HostRuntime) -> Result<(), Fail> {
    let alloc = rt.alloc();
    let (table, certificate) = (rounds(alloc)?, certificate_of_rounds(alloc)?);
    let files = &[("t.csv", table.as_str()), ("c.json", certificate.as_str())];
    for words in [&["rp", "certify", "t.csv"] as &[&str], CHECK] {
        let got = run_with_failures(alloc, words, files, &[1], &[])?;
        let told = tells(&got, Status::ReadFault, "rp: t.csv: read failed\n");
        assert!(rt; told, "{words:?} {} {}", got.out, got.err);
    }
    Ok(())
}

const SPELLINGS: &[(&str, &str)] = &[
    (
        "{\"version\": 1, \"kind\": \"table\",\n \"items\": [ {\"item\": \"garp\", \"cycle\": [1, 2, 1]} ]}",
        "accepted items 1 withheld 0\n",
    ),
    (
        "{\"items\":[],\"kind\":\"t\\u0061ble\",\"version\":1}",
        "accepted items 0 withheld 0\n",
    ),
];

#[test]
fn other_spellings_of_a_certificate(rt: HostRuntime) -> Result<(), Fail> {
    for (certificate, line) in SPELLINGS {
        let files = &[("t.csv", CONTRADICTION), ("c.json", certificate)];
        prints(rt.alloc(), CHECK, files, line)?;
    }
    Ok(())
}
