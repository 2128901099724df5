//! The answer of `pairs`.
ghost use Rattle.std.specs.Prelude.{◌≡◌, IfOk};
ghost use Rattle.rp_answers.specs.PairsText.{IsPairsText, pairs_line};

use rp_garp::pairs;
use rp_num::NoMemory;
use rp_print::{push_line, push_ordinals};
use rp_table::{Costs, Table};
use std::alloc::Global;

/// The line on the first two observations that contradict each other.
pub fn pairs_text(alloc: Global, table: &Table) -> Result<Vec<u8>, NoMemory>
    ensures { IfOk result (λ text. IsPairsText table.now text.items) }
{
    prove!(table.n() >= 1);
    let costs = Costs::of(alloc, table)?;
    let text = line_of_pair(alloc, pairs(&costs))?;
    Ok(text)
}

/// `pair S T`, with the observations counted from 1, or `pair none`.
fn line_of_pair(alloc: Global, pair: Option<(u32, u32)>) -> Result<Vec<u8>, NoMemory>
    ensures { IfOk result (λ text. text.items ≡ pairs_line pair) }
{
    let mut text = Vec::new(alloc);
    match pair {
        None => push_line(&mut text, b"pair none")?,
        Some((s, t)) => push_ordinals(alloc, &mut text, b"pair ", &[s, t])?,
    }
    Ok(text)
}
