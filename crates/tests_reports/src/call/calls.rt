//! Calls as these tests make them.
use rp_call::{Ending, answer, answer_edition};
use rp_run_wide::Filled;
use std::alloc::Global;
use std::test::Fail;

/// A call: its words and the names of its files, each ended by a zero byte, the sizes of the files, and their texts.
#[derive(Clone, Copy)]
pub(crate) struct Call<'a> {
    pub(crate) words: &'a [u8],
    pub(crate) names: &'a [u8],
    pub(crate) sizes: &'a [u64],
    pub(crate) texts: &'a [&'a str],
}

/// By which edition a call answers: that of `rp`, or that of `rp-wide`.
#[derive(Clone, Copy)]
pub(crate) enum By {
    Stated,
    Filled,
}

/// What a call gave: how it ended, what stands in the two rooms, and the two lengths.
#[derive(Drop)]
pub(crate) struct Given {
    pub(crate) ending: Ending,
    pub(crate) output: Vec<u8>,
    pub(crate) told: Vec<u8>,
    pub(crate) output_length: u64,
    pub(crate) told_length: u64,
}

/// What stands in a room before the call.
pub(crate) const BEFORE: u8 = b'.';

/// Makes a call with so much room for each of the two texts.
pub(crate) fn made(alloc: Global, call: &Call<'_>, room: usize) -> Result<Given, Fail> {
    made_by(alloc, By::Stated, call, room)
}

/// Makes a call by an edition.
pub(crate) fn made_by(alloc: Global, by: By, call: &Call<'_>, room: usize) -> Result<Given, Fail> {
    let mut bytes = Vec::new(alloc);
    for text in call.texts {
        bytes.extend_from_slice(text.as_bytes())?;
    }
    let mut output = vec![in alloc; BEFORE; room]?;
    let mut told = vec![in alloc; BEFORE; room]?;
    let mut output_length = 0;
    let mut told_length = 0;
    let ending = match by {
        By::Stated => answer(
            alloc,
            call.words,
            call.names,
            call.sizes,
            bytes.as_slice(),
            output.as_mut_slice(),
            told.as_mut_slice(),
            &mut output_length,
            &mut told_length,
        ),
        By::Filled => answer_edition::<Filled>(
            alloc,
            call.words,
            call.names,
            call.sizes,
            bytes.as_slice(),
            output.as_mut_slice(),
            told.as_mut_slice(),
            &mut output_length,
            &mut told_length,
        ),
    };
    Ok(Given {
        ending,
        output,
        told,
        output_length,
        told_length,
    })
}

/// Whether a room has a text at its front, and behind it what stood there before.
pub(crate) fn has_text(room: &[u8], length: u64, text: &str) -> bool {
    let count = text.len().min(room.len());
    let is_kept = length == text.len() as u64 && room[..count] == text.as_bytes()[..count];
    for byte in &room[count..] {
        if *byte != BEFORE {
            return false;
        }
    }
    is_kept
}

/// How many bytes each text has.
pub(crate) fn sizes_of(alloc: Global, texts: &[&str]) -> Result<Vec<u64>, Fail> {
    let mut sizes = Vec::new(alloc);
    for text in texts {
        sizes.push(text.len() as u64)?;
    }
    Ok(sizes)
}

/// A call ends so, with these texts; more room than they need is given.
pub(crate) fn ends(
    alloc: Global,
    call: &Call<'_>,
    number: i32,
    output: &str,
    told: &str,
) -> Result<(), Fail> {
    let got = made(alloc, call, output.len().max(told.len()) + 8)?;
    if got.ending.number() == number
        && has_text(got.output.as_slice(), got.output_length, output)
        && has_text(got.told.as_slice(), got.told_length, told)
    {
        return Ok(());
    }
    let wrong = format!(in alloc;
        "{:?}: wanted {number} {output} {told}, got {} {:?} {:?}",
        call.words,
        got.ending.number(),
        got.output.as_slice(),
        got.told.as_slice()
    )?;
    Err(wrong.into())
}
