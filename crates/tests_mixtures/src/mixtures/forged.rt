//! Evidence on random choices, of whatever origin, as lines of numbers, and what the checker answers on it.
ghost use Rattle.std.specs.Prelude.{◌≡◌, ◌≤◌, [], All, IfOk, IfSome, length};
ghost use Rattle.rp_evidence.specs.Kinds.{IsOfKind};
ghost use Rattle.rp_evidence.specs.declared.certificate.Kind.TheVariants.{Random as RandomKind};
ghost use Rattle.rp_limits.specs.declared.patch.TheConstants.{PATCHES};

use rp_check::{Verdict, check_random};
use rp_evidence::{Certificate, Item, Kind, RandomPart, Share};
use rp_limits::patch::UNITS;
use rp_num::Seq;
use rp_patch::Patches;
use rp_patch::of_choices::patches;
use rp_text::{read_budgets, read_choices};
use std::alloc::Global;
use std::process::Abort;
use std::test::Fail;

/// The patches of choices in a file, from budgets in a file.
pub(crate) fn patches_of(
    alloc: Global,
    budgets: &str,
    choices: &str,
    unit: Option<u32>,
) -> Result<Patches, Fail>
    requires { IfSome unit (λ n. (1 ≤ n) × (n ≤ UNITS)) }
    ensures { IfOk result (λ p. length p.patches ≤ PATCHES) }
{
    let budgets = read_budgets(alloc, budgets.as_bytes())?;
    let choices = read_choices(alloc, choices.as_bytes(), &budgets)?;
    Ok(patches(alloc, &budgets, &choices, unit)?)
}

/// The numbers in a text, with spaces between them.
fn numbers(alloc: Global, text: &str) -> Result<Seq<u64>, Fail> {
    let mut numbers = Vec::new(alloc);
    for word in text.split(' ') {
        if !word.is_empty() {
            numbers.push(word.parse::<u64>()?)?;
        }
    }
    Ok(Seq::from_vec(numbers))
}

/// A type by its patches, which are numbered from 0 as in code, and after a colon its weight.
fn share(alloc: Global, text: &str) -> Result<Share, Fail> {
    let (names, weight) = text.split_once(':').unwrap_or((text, ""));
    let weight = weight.parse::<u64>()?;
    let mut patches = Vec::new(alloc);
    for word in names.split(' ') {
        if !word.is_empty() {
            patches.push(word.parse::<u32>()?)?;
        }
    }
    let patches = Seq::from_vec(patches);
    Ok(Share { patches, weight })
}

/// The parts, with commas between them.
fn shares(alloc: Global, text: &str) -> Result<Seq<Share>, Fail> {
    let mut parts = Vec::new(alloc);
    for part in text.trim().split(',') {
        if !part.is_empty() {
            parts.push(share(alloc, part)?)?;
        }
    }
    Ok(Seq::from_vec(parts))
}

/// A mixture over `den`, or where weights of the patches stand after the parts a violation with a partial mixture.
fn evidence(alloc: Global, den: u64, text: &str) -> Result<RandomPart, Fail> {
    let (parts, weights) = text.split_once(';').unwrap_or((text, ""));
    let parts = shares(alloc, parts)?;
    if weights.is_empty() {
        return Ok(RandomPart::Mixture { den, parts });
    }
    let weights = numbers(alloc, weights)?;
    Ok(RandomPart::Violated {
        den,
        parts,
        weights,
    })
}

/// The evidence in a line: the total, over which number it is, its parts, and of a violation the weights of the
/// patches.
pub(crate) fn item_of(alloc: Global, line: &str) -> Result<Item, Fail>
    ensures { IfOk result (IsOfKind RandomKind) }
{
    let (total, rest) = line.split_once(';').unwrap_or((line, ""));
    let (den, rest) = rest.split_once(';').unwrap_or((rest, ""));
    let (total, den) = (total.parse::<u64>()?, den.parse::<u64>()?);
    let part = evidence(alloc, den, rest)?;
    Ok(Item::Random { total, part })
}

/// What is withheld.
pub(crate) fn withheld(total: u64, step: u64) -> Item
    ensures { IsOfKind RandomKind result }
{
    let part = RandomPart::Wide { step };
    Item::Random { total, part }
}

/// The evidence in a line.
pub(crate) fn alone(alloc: Global, line: &str) -> Result<Vec<Item>, Fail>
    ensures { IfOk result (λ items. All (IsOfKind RandomKind) items.items) }
{
    let item = item_of(alloc, line)?;
    let mut items = Vec::new(alloc);
    items.push(item)?;
    Ok(items)
}

/// The evidence in a line, and then what is withheld.
pub(crate) fn followed(alloc: Global, line: &str, step: u64) -> Result<Vec<Item>, Fail>
    ensures { IfOk result (λ items. All (IsOfKind RandomKind) items.items) }
{
    let item = item_of(alloc, line)?;
    let mut items = Vec::new(alloc);
    items.push(item)?;
    items.push(withheld(4, step))?;
    Ok(items)
}

/// A certificate of these items.
pub(crate) fn certificate(alloc: Global, items: Vec<Item>) -> Certificate
    ensures { result ≡ record { kind = RandomKind; version = 1; levels = []; items = items.items } }
{
    Certificate {
        kind: Kind::Random,
        version: 1,
        levels: Seq::from_vec(Vec::new(alloc)),
        items: Seq::from_vec(items),
    }
}

/// What the checker answers on these items, in words; items and places are from 1.
pub(crate) fn answer(alloc: Global, patches: &Patches, items: Vec<Item>) -> Result<String, Fail>
    requires { All (IsOfKind RandomKind) items.items }
{
    match check_random(patches, &certificate(alloc, items)) {
        Verdict::Accepted => Ok(String::from_str(alloc, "accepted")?),
        Verdict::Rejected {
            item,
            reason,
            place,
        } => Ok(format!(in alloc; "item {} {:?} {}", item, reason, place)?),
    }
}

/// Asserts that the text of this case is as wanted.
pub(crate) fn assert_text(rt: &impl Abort, case: &str, got: String, wanted: &str) {
    assert!(rt; got.as_str() == wanted, "{case}: {got}");
}

/// Asserts what the checker answers on the evidence in each line, which stands before an arrow.
pub(crate) fn assert_answers(
    rt: &impl Abort,
    alloc: Global,
    patches: &Patches,
    cases: &str,
) -> Result<(), Fail> {
    for case in cases.lines() {
        let (line, wanted) = case.split_once(" => ").unwrap_or((case, ""));
        let got = answer(alloc, patches, alone(alloc, line)?)?;
        assert!(rt; got.as_str() == wanted, "{case}, got {got}");
    }
    Ok(())
}
