//! Tables of cases: forged evidence on a table, and what the checker answers on it.
ghost use Rattle.std.specs.Prelude.{All, IsTrue};
ghost use Rattle.rp_evidence.specs.Kinds.{IsOfKind};
ghost use Rattle.rp_evidence.specs.declared.certificate.Kind.TheVariants.{Table as TableKind};

use crate::checker::forged::{Forged, item_of};
use crate::checker::items::at;
use rp_check::{Verdict, check};
use rp_evidence::{Certificate, Item, Kind, Reason};
use rp_num::Seq;
use rp_table::Costs;
use rp_text::read_table;
use std::alloc::Global;
use std::process::Abort;
use std::test::Fail;

/// Whether an item is one on a table.
fn is_of_table(item: &Item) -> bool
    ensures { IsTrue result → IsOfKind TableKind item.now }
{
    !matches!(item, Item::Random { .. })
}

/// What the checker answers: nothing where it accepts, or the item and the place that fail, from 1, with the reason.
pub(crate) type Answer = Option<(u32, Reason, u32)>;

/// What the checker answers on these items.
pub(crate) fn answer(alloc: Global, text: &str, items: Vec<Item>) -> Result<Answer, Fail>
    requires { All (IsOfKind TableKind) items.items }
{
    let table = read_table(alloc, text.as_bytes())?;
    if table.levelled() {
        return Err(Fail::new("a table with levels"));
    }
    let costs = Costs::of(alloc, &table)?;
    let certificate = Certificate {
        kind: Kind::Table,
        version: 1,
        levels: Seq::from_vec(Vec::new(alloc)),
        items: Seq::from_vec(items),
    };
    match check(&table, &costs, &certificate) {
        Verdict::Accepted => Ok(None),
        Verdict::Rejected {
            item,
            reason,
            place,
        } => Ok(Some((item, reason, place))),
    }
}

/// What it answers on one item. No clause speaks of it, so that no proof works out what a table that is written out in
/// a test comes to.
pub(crate) fn answer_alone(alloc: Global, text: &str, item: Item) -> Result<Answer, Fail> {
    if !is_of_table(&item) {
        return Err(Fail::new("an item on random choices"));
    }
    let mut items = Vec::new(alloc);
    items.push(item)?;
    answer(alloc, text, items)
}

/// What it answers on an item after ranks.
pub(crate) fn answer_after(
    alloc: Global,
    text: &str,
    ranks: &[u32],
    item: Item,
) -> Result<Answer, Fail> {
    if !is_of_table(&item) {
        return Err(Fail::new("an item on random choices"));
    }
    let mut items = Vec::new(alloc);
    items.push(Item::Garp(at(alloc, true, ranks)?))?;
    items.push(item)?;
    answer(alloc, text, items)
}

/// A table, the evidence, and the answer.
pub(crate) type Case = (&'static str, Forged, Answer);

/// What the checker answers on the evidence alone, or after ranks where some are given.
fn answer_to(
    rt: &impl Abort,
    alloc: Global,
    text: &str,
    ranks: &[u32],
    forged: Forged,
) -> Result<Answer, Fail> {
    let item = item_of(rt, alloc, forged)?;
    if ranks.is_empty() {
        return answer_alone(alloc, text, item);
    }
    answer_after(alloc, text, ranks, item)
}

/// Asserts what the checker answers on case `k` of a table, from 0.
pub(crate) fn assert_answer(rt: &impl Abort, k: usize, got: Answer, expected: Answer) {
    assert_eq!(rt; got, expected, "case {k}");
}

/// Asserts what the checker answers on each, alone or after ranks where some are given.
pub(crate) fn assert_answers(
    rt: &impl Abort,
    alloc: Global,
    ranks: &[u32],
    cases: &[Case],
) -> Result<(), Fail> {
    for k in 0..cases.len() {
        let (text, forged, expected) = cases[k];
        let got = answer_to(rt, alloc, text, ranks, forged)?;
        assert_answer(rt, k, got, expected);
    }
    Ok(())
}
