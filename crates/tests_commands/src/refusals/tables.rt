//! Tables that are refused.
use std::alloc::Global;
use std::test::Fail;
use tests_inputs::tables::{AT_800, CONTRADICTION};
use tests_support::{filled, prints, refuses, repeated};

/// The words of `pairs`, over one table.
const PAIRS: &[&str] = &["rp", "pairs", "t.csv"];

/// The table is refused with that fault.
fn refuses_table(alloc: Global, table: &str, fault: &str) -> Result<(), Fail> {
    let line = format!(in alloc; "rp: t.csv: {fault}\n")?;
    refuses(alloc, PAIRS, &[("t.csv", table)], line.as_str())
}

/// No two observations of the table contradict each other.
fn has_no_pair(alloc: Global, table: &str) -> Result<(), Fail> {
    prints(alloc, PAIRS, &[("t.csv", table)], "pair none\n")
}

const COLUMNS: &[(&str, &str)] = &[
    ("", "Empty"),
    ("\u{feff}", "Empty"),
    ("price\n1\n", "BadHeader column 1"),
    ("p_   \n1\n", "BadHeader column 1"),
    ("P_a,q_a\n1,1\n", "BadHeader column 1"),
    ("p_a\u{1},q_a\u{1}\n1,1\n", "BadHeader column 1"),
    (
        "p_a,q_a,p_b\u{1f}c,q_b\u{1f}c\n1,1,1,1\n",
        "BadHeader column 3",
    ),
    ("p_a,q_a,q_b\tc,p_b\tc\n1,1,1,1\n", "BadHeader column 3"),
    ("\"p_a\nb\",\"q_a\nb\"\n1,1\n", "BadHeader column 1"),
    ("p_a\0,q_a\0\n1,1\n", "BadHeader column 1"),
    ("p_a,p_a,price\n1,1,1\n", "TwiceNamed column 2"),
    ("p_a,q_a,p_a,q_a\n1,1,2,2\n", "TwiceNamed column 3"),
    ("p_a,p_a\n1,1\n", "TwiceNamed column 2"),
    ("p_a,q_b\n1,1\n", "Unpaired column 1"),
    ("obs\n1\n", "Unpaired column 0"),
    ("p_a,q_a\n", "NoRecords"),
];

#[test]
fn refused_column_names_are_told_with_their_column(rt: HostRuntime) -> Result<(), Fail> {
    for (table, fault) in COLUMNS {
        refuses_table(rt.alloc(), table, fault)?;
    }
    Ok(())
}

const RECORDS: &[(&str, &str)] = &[
    ("p_a,q_a,p_b,q_b\n1,2,3\n", "Ragged record 1"),
    ("p_a,q_a,p_b,q_b\nx,2,3\n", "Ragged record 1"),
    (
        "p_a,q_a,p_b,q_b\n\"1,5\",1,2,1\n",
        "BadNumber record 1 column 1",
    ),
    ("p_a,q_a\n1.,1\n", "BadNumber record 1 column 1"),
    ("p_a,q_a\n.5,1\n", "BadNumber record 1 column 1"),
    ("p_a,q_a\n+1,1\n", "BadNumber record 1 column 1"),
    ("p_a,q_a\n1e3,1\n", "BadNumber record 1 column 1"),
    (
        "p_a,q_a,p_b,q_b\n1.1234567,1,1,1\n",
        "TooManyDecimals record 1 column 1",
    ),
    (
        "p_a,q_a\n0.0000001,1\n",
        "TooManyDecimals record 1 column 1",
    ),
    (
        "p_a,q_a,p_b,q_b\n0,1,2,2\n2,2,1,1\n",
        "ZeroPrice record 1 column 1",
    ),
    ("p_a,q_a,p_b,q_b\n1,0,2,0\n2,2,1,1\n", "ZeroBundle record 1"),
    ("p_a,q_a\n10000000,1\n", "TooLarge record 1 column 1"),
    ("p_a,q_a\n12345678,1\n", "TooLarge record 1 column 1"),
    ("p_a,q_a\n12345678,1\nx,1\n", "BadNumber record 2 column 1"),
    ("p_a,q_a\n1,1\nx,2,3\n", "Ragged record 2"),
    ("p_a,q_a\nx,1\n1,2,3\n", "BadNumber record 1 column 1"),
    ("p_a,q_a\n1,x\ny,1\n", "BadNumber record 1 column 2"),
    (
        "obs,p_a,p_b,q_a,q_b\n1,1,1,1,1\n2,1,1,1,x\n3,y,1,1,1\n",
        "BadNumber record 2 column 5",
    ),
];

#[test]
fn refused_records_are_told_with_their_place(rt: HostRuntime) -> Result<(), Fail> {
    for (table, fault) in RECORDS {
        refuses_table(rt.alloc(), table, fault)?;
    }
    Ok(())
}

#[test]
fn as_many_observations_as_the_limit_and_one_more(rt: HostRuntime) -> Result<(), Fail> {
    let alloc = rt.alloc();
    let mut table = String::from_str(alloc, "p_a,q_a\n")?;
    table.push_str(repeated(alloc, "1,1\n", 512)?.as_str())?;
    has_no_pair(alloc, table.as_str())?;
    table.push_str("1,1\n")?;
    refuses_table(alloc, table.as_str(), "TooManyRecords")
}

#[test]
fn a_file_longer_than_the_limit_is_not_read(rt: HostRuntime) -> Result<(), Fail> {
    let alloc = rt.alloc();
    let mut table = String::from_str(alloc, "p_a,q_a\n")?;
    table.push_str(repeated(alloc, "1,1\n", 1_048_576)?.as_str())?;
    refuses_table(alloc, table.as_str(), "TooLong")
}

#[test]
fn as_many_goods_as_the_limit_and_one_more(rt: HostRuntime) -> Result<(), Fail> {
    let alloc = rt.alloc();
    let mut names = String::from_str(alloc, "obs")?;
    for k in 0..16 {
        names.push_str(format!(in alloc; ",p_{k},q_{k}")?.as_str())?;
    }
    let record = repeated(alloc, ",1,1", 16)?;
    let most = format!(in alloc; "{names}\n1{record}\n")?;
    has_no_pair(alloc, most.as_str())?;
    let more = format!(in alloc; "{names},p_z,q_z\n1{record},1,1\n")?;
    refuses_table(alloc, more.as_str(), "TooManyGoods")
}

#[test]
fn a_file_of_the_most_bytes_and_of_one_more(rt: HostRuntime) -> Result<(), Fail> {
    let alloc = rt.alloc();
    let mut table = String::from_str(alloc, CONTRADICTION)?;
    table.push_str(filled(alloc, b'\n', 4_194_304 - 32)?.as_str())?;
    assert!(rt; table.len() == 4_194_304);
    prints(alloc, PAIRS, &[("t.csv", table.as_str())], "pair 1 2\n")?;
    table.push('\n')?;
    refuses_table(alloc, table.as_str(), "TooLong")
}

#[test]
fn a_name_of_the_most_bytes_and_of_one_more(rt: HostRuntime) -> Result<(), Fail> {
    let alloc = rt.alloc();
    let name = filled(alloc, b'a', 64)?;
    let most = format!(in alloc; "p_{name},q_{name}\n1,1\n")?;
    has_no_pair(alloc, most.as_str())?;
    let more = format!(in alloc; "p_{name}a,q_{name}a\n1,1\n")?;
    refuses_table(alloc, more.as_str(), "BadHeader column 1")
}

/// Records within what is allowed.
const WITHIN: &[&str] = &[
    "0.123456,1",
    "1,0.123456",
    "9999999,9999999",
    "9.999999,9.999999",
];

#[test]
fn the_most_places_and_the_largest_sizes(rt: HostRuntime) -> Result<(), Fail> {
    for record in WITHIN {
        let table = format!(in rt.alloc(); "p_a,q_a\n{record}\n")?;
        has_no_pair(rt.alloc(), table.as_str())?;
    }
    Ok(())
}

/// Records with a place more than is allowed, or a number greater by one.
const PAST: &[(&str, &str)] = &[
    ("0.1234567,1", "TooManyDecimals record 1 column 1"),
    ("1,0.1234567", "TooManyDecimals record 1 column 2"),
    ("10000000,1", "TooLarge record 1 column 1"),
    ("1,10000000", "TooLarge record 1 column 2"),
    ("10.000001,1", "TooLarge record 1 column 1"),
];

#[test]
fn a_place_more_and_a_number_greater_by_one(rt: HostRuntime) -> Result<(), Fail> {
    for (record, fault) in PAST {
        let table = format!(in rt.alloc(); "p_a,q_a\n{record}\n")?;
        refuses_table(rt.alloc(), table.as_str(), fault)?;
    }
    Ok(())
}

/// Before a second file is asked for: there is none.
const WITHOUT_LEVELS: &[&[&str]] = &[
    &["rp", "demand", "t.csv", "n.csv"],
    &["rp", "welfare", "t.csv", "n.csv", "--json"],
    &["rp", "pump", "t.csv"],
    &["rp", "power", "t.csv", "7", "1000"],
];

#[test]
fn other_commands_refuse_levels(rt: HostRuntime) -> Result<(), Fail> {
    for words in WITHOUT_LEVELS {
        refuses(
            rt.alloc(),
            words,
            &[("t.csv", AT_800)],
            "rp: t.csv: OwnLevels\n",
        )?;
    }
    Ok(())
}

const LEVELS: &[(&str, &str)] = &[
    (
        "p_a,q_a,e\n1,1,0\n",
        "rp: t.csv: BadLevel record 1 column 3\n",
    ),
    ("p_a,q_a,e\n1,0,9\n", "rp: t.csv: ZeroBundle record 1\n"),
    ("p_a,q_a,e\n", "rp: t.csv: NoRecords\n"),
    ("p_a,q_a,e,e\n1,1,9,9\n", "rp: t.csv: TwiceNamed column 4\n"),
    (
        "p_a,q_a,p_b,q_b,e\n1,1,2,2,0\n2,2,1,1,1000\n",
        "rp: t.csv: BadLevel record 1 column 5\n",
    ),
    (
        "p_a,q_a,p_b,q_b,e\n1,1,2,2,999.5\n2,2,1,1,1000\n",
        "rp: t.csv: BadNumber record 1 column 5\n",
    ),
];

const OVER_A_TABLE: &[&[&str]] = &[
    &["rp", "pairs", "t.csv"],
    &["rp", "pump", "t.csv"],
    &["rp", "demand", "t.csv", "n.csv"],
];

#[test]
fn another_fault_of_a_table_with_levels_comes_first(rt: HostRuntime) -> Result<(), Fail> {
    for (table, line) in LEVELS {
        for words in OVER_A_TABLE {
            refuses(rt.alloc(), words, &[("t.csv", table)], line)?;
        }
    }
    Ok(())
}
