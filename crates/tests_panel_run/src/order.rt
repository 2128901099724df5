//! What is told of columns that are left out is told before the table is written. No clause says so, since each stream
//! tells its own bytes alone: here two streams share one count of writes.
ghost use Rattle.std.specs.Prelude.{None};

use crate::running::{files_with, owned_words};
use rp_outside::{Failed, MemDesk, Sink};
use rp_panel_run::{Status, run_panel};
use std::alloc::Global;
use std::cell::Cell;
use std::process::Abort;
use std::test::Fail;

/// A stream that takes all and notes when it took something first and last, by a count of writes that it shares.
#[derive(Drop)]
struct Noted<'a> {
    turns: &'a Cell<u64>,
    first: u64,
    last: u64,
    calls: u64,
}

impl<'a> Noted<'a> {
    fn new(turns: &'a Cell<u64>) -> Noted<'a> {
        Noted {
            turns,
            first: 0,
            last: 0,
            calls: 0,
        }
    }
}

impl<'a> Sink for Noted<'a> {
    ghost written = { λ _. None };

    ghost faults = { λ _. 0 };

    ghost calls = { λ s. s.calls };

    fn write(&mut self, piece: &[u8]) -> Result<u64, Failed> {
        self.calls = self.calls.saturating_add(1);
        let turn = self.turns.get().saturating_add(1);
        self.turns.set(turn);
        if self.first == 0 {
            self.first = turn;
        }
        self.last = turn;
        Ok(piece.len() as u64)
    }
}

/// The last write to standard error and the first to the output, where all ends well.
fn turns_of(
    alloc: Global,
    words: &[&str],
    text: &str,
    new: Option<&str>,
) -> Result<(u64, u64), Fail> {
    let turns = Cell::new(0);
    let all = owned_words(alloc, words)?;
    let mut desk = MemDesk::new(files_with(alloc, text, new)?, Vec::new(alloc));
    let mut out = Noted::new(&turns);
    let mut err = Noted::new(&turns);
    let status = run_panel(alloc, &all, &mut desk, &mut out, &mut err);
    if status != Status::Done {
        return Ok((0, 0));
    }
    Ok((err.last, out.first))
}

/// The words tell of the columns before they write.
fn tells_first(
    rt: &impl Abort,
    alloc: Global,
    words: &[&str],
    text: &str,
    new: Option<&str>,
) -> Result<(), Fail> {
    let (told, written) = turns_of(alloc, words, text, new)?;
    assert!(rt; 0 < told && told < written, "{words:?} {told} {written}");
    Ok(())
}

#[test]
fn columns_are_told_before_the_table(rt: HostRuntime) -> Result<(), Fail> {
    let alloc = rt.alloc();
    let text = "household,year,town,p_a,q_a\nA,1990,x,3,2\n";
    tells_first(&rt, alloc, &["l.csv"], text, None)?;
    let new = Some("m,p_a\n5,3\n");
    tells_first(&rt, alloc, &["l.csv", "--demand", "n.csv"], text, new)
}
