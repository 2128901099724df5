//! Calls by the edition of `rp-wide`.
use crate::call::calls::{By, Call, Given, has_text, made_by};
use std::alloc::Global;
use std::test::Fail;
use tests_inputs::tables::CONTRADICTION;

/// A table on which the homothetic test holds, and for which `rp` withholds it.
const HELD: &str = "p_a,q_a,p_b,q_b\n4194304,2097151,1,4194304\n1,1747627,3145727,2796203\n\
                    1,4194304,4194304,2097151\n";

/// What an edition answers to these words over the file `t.csv` of that text.
fn given(alloc: Global, by: By, words: &[u8], text: &str) -> Result<Given, Fail> {
    let call = Call {
        words,
        names: b"t.csv\0",
        sizes: &[text.len() as u64],
        texts: &[text],
    };
    made_by(alloc, by, &call, 2048)
}

/// What stands in the room for the output before its rest.
fn output(alloc: Global, given: &Given) -> Result<String, Fail> {
    let count = (given.output_length as usize).min(given.output.len());
    let text = String::from_utf8_lossy(alloc, &given.output.as_slice()[..count])?;
    Ok(text)
}

/// Whether a text begins so.
fn begins(text: &[u8], start: &[u8]) -> bool {
    text.starts_with(start)
}

#[test]
fn what_rp_withholds_is_filled(rt: HostRuntime) -> Result<(), Fail> {
    let alloc = rt.alloc();
    let stated = given(alloc, By::Stated, b"analyse\0t.csv\0", HELD)?;
    let filled = given(alloc, By::Filled, b"analyse\0t.csv\0", HELD)?;
    assert_eq!(&rt; stated.ending.number(), 0);
    assert_eq!(&rt; filled.ending.number(), 0);
    assert!(&rt;
        output(alloc, &stated)?
            .as_str()
            .contains("\nhomothetic withheld ")
    );
    assert!(&rt;
        output(alloc, &filled)?
            .as_str()
            .contains("\nhomothetic holds\n")
    );
    Ok(())
}

#[test]
fn nothing_withheld_is_answered_alike(rt: HostRuntime) -> Result<(), Fail> {
    let got = given(rt.alloc(), By::Filled, b"pairs\0t.csv\0", CONTRADICTION)?;
    assert_eq!(&rt; got.ending.number(), 0);
    assert!(&rt; has_text(got.output.as_slice(), got.output_length, "pair 1 2\n"));
    assert!(&rt; has_text(got.told.as_slice(), got.told_length, ""));
    Ok(())
}

#[test]
fn the_usage_has_the_name_of_the_edition(rt: HostRuntime) -> Result<(), Fail> {
    let got = given(rt.alloc(), By::Filled, b"pairs\0", CONTRADICTION)?;
    assert_eq!(&rt; got.ending.number(), 2);
    assert!(&rt; begins(got.told.as_slice(), b"usage: rp-wide pairs TABLE\n"));
    assert!(&rt; has_text(got.output.as_slice(), got.output_length, ""));
    Ok(())
}
