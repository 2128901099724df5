//! Calls with too little room.
use crate::call::calls::{Call, has_text, made};
use std::test::Fail;
use tests_inputs::tables::CONTRADICTION;

const PAIRS: Call<'static> = Call {
    words: b"pairs\0t.csv\0",
    names: b"t.csv\0",
    sizes: &[32],
    texts: &[CONTRADICTION],
};

/// What has no place is counted, so that the caller asks again with as much room as was told.
#[test]
fn a_room_that_is_too_small_is_asked_again(rt: HostRuntime) -> Result<(), Fail> {
    for room in [0, 1, 8] {
        let got = made(rt.alloc(), &PAIRS, room)?;
        assert_eq!(&rt; got.ending.number(), 0);
        assert!(&rt; has_text(got.output.as_slice(), got.output_length, "pair 1 2\n"));
    }
    let got = made(rt.alloc(), &PAIRS, 9)?;
    assert!(&rt; got.output.as_slice() == b"pair 1 2\n".as_slice());
    Ok(())
}

/// So is what is told.
#[test]
fn what_is_told_is_cut_to_its_room(rt: HostRuntime) -> Result<(), Fail> {
    let call = Call {
        texts: &[""],
        sizes: &[0],
        words: PAIRS.words,
        names: PAIRS.names,
    };
    let got = made(rt.alloc(), &call, 4)?;
    assert_eq!(&rt; got.ending.number(), 4);
    assert!(&rt; got.told.as_slice() == b"rp: ".as_slice());
    assert_eq!(&rt; got.told_length, 17);
    Ok(())
}
