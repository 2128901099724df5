//! Weights of the patches, looked at within a number of steps. The steps are counted by hand: a step has a patch of
//! each of some first budgets, but not of all, without a violation, with which some type begins that weighs too
//! little, rational or not, and before which no such rational type comes.
ghost use Rattle.std.specs.Prelude.{All};
ghost use Rattle.rp_evidence.specs.Kinds.{IsOfKind};
ghost use Rattle.rp_evidence.specs.declared.certificate.Kind.TheVariants.{Random as RandomKind};

use crate::mixtures::forged::{alone, assert_text, certificate, followed, item_of, patches_of};
use rp_check::{Verdict, check_random_within};
use rp_check_mixture::check_choices_within;
use rp_evidence::Item;
use rp_patch::Patches;
use std::alloc::Global;
use std::process::Abort;
use std::test::Fail;
use tests_inputs::choices::{CROSSED, DEAR, HALVES, VIOLATION};

/// What is found wrong with the evidence in a line within so many steps, in words.
fn found(alloc: Global, patches: &Patches, line: &str, steps: u64) -> Result<String, Fail> {
    let Item::Random { total, part } = item_of(alloc, line)? else {
        return Ok(String::from_str(alloc, "not on random choices")?);
    };
    match check_choices_within(patches, total, &part, steps) {
        Ok(()) => Ok(String::from_str(alloc, "nothing")?),
        Err(found) => Ok(format!(in alloc; "{:?} {}", found.reason, found.place)?),
    }
}

/// Asserts what is found within the steps that stand before each line.
fn assert_found(
    rt: &impl Abort,
    alloc: Global,
    patches: &Patches,
    cases: &str,
) -> Result<(), Fail> {
    for case in cases.lines() {
        let (asked, wanted) = case.split_once(" => ").unwrap_or((case, ""));
        let (steps, line) = asked.split_once(" steps ").unwrap_or(("", asked));
        let got = found(alloc, patches, line, steps.parse::<u64>()?)?;
        assert_text(rt, case, got, wanted);
    }
    Ok(())
}

/// In the first four the second or the first patch of the first budget is a step. In the last two there is none, since
/// both patches of the second budget weigh enough. What comes before the types are weighed comes before the steps.
const TWO_BUDGETS: &str = "\
0 steps 4;1; 0 3:1, 1 2:2; 1 0 1 0 => Steps 0
1 steps 4;1; 0 3:1, 1 2:2; 1 0 1 0 => nothing
0 steps 4;1; 0 3:1, 1 2:2; 0 0 1 0 => Steps 0
1 steps 4;1; 0 3:1, 1 2:2; 0 0 1 0 => Dual 0
0 steps 5;1; 0 3:1, 1 2:2; 1 0 1 0 => Units 0
0 steps 4;0; 0 3:1, 1 2:2; 1 0 1 0 => Number 0
0 steps 4;1; 1 3:1, 0 3:1; 1 0 1 0 => Irrational 1
0 steps 4;1; 0 3:1, 1 2:2; 1 0 1 => Shape 0
0 steps 4;1; 0 3:2, 1 2:2; 1 0 1 0 => Units 1
0 steps 4;1; 0 3:1, 1 2:2 => Units 2
0 steps 4;1; 0 3:1, 1 2:2; 0 0 1 1 => Least 0
0 steps 4;2; 0 3:2, 1 2:4; 0 0 2 2 => Least 0
";

/// Patches 2 and 5 are a violation, as are those of any type that ends with 8 and has no 4 before it, or has 1 and 4.
///
/// The steps of the first two: 0, 1 and 2; with each of these 3, and with 0 and 1 also 5. Of the next two, in which
/// 0 3 6 is too light: 0 and 0 3. Of the next two, in which 0 4 8 is the first that is: 0, 0 3 and 0 4. Of the last, in
/// which 2 4 8 is the only one: 1, with each of the three after it, and 2, 2 3 and 2 4.
const THREE_BUDGETS: &str = "\
7 steps 3;1; ; 0 0 0 0 1 0 1 1 0 => Steps 0
8 steps 3;1; ; 0 0 0 0 1 0 1 1 0 => Least 0
1 steps 3;1; ; 0 0 0 0 0 0 0 0 0 => Steps 0
2 steps 3;1; ; 0 0 0 0 0 0 0 0 0 => Dual 0
2 steps 3;1; ; 0 0 0 0 0 0 1 1 0 => Steps 0
3 steps 3;1; ; 0 0 0 0 0 0 1 1 0 => Dual 0
6 steps 3;1; ; 1 0 0 0 0 0 1 1 0 => Steps 0
7 steps 3;1; ; 1 0 0 0 0 0 1 1 0 => Dual 0
18446744073709551615 steps 3;1; ; 1 0 0 0 0 0 1 1 0 => Dual 0
";

#[test]
fn weights_within_steps(rt: HostRuntime) -> Result<(), Fail> {
    let alloc = rt.alloc();
    let two = patches_of(alloc, CROSSED, VIOLATION, None)?;
    assert_found(&rt, alloc, &two, TWO_BUDGETS)?;
    let three = patches_of(alloc, DEAR, HALVES, None)?;
    assert_found(&rt, alloc, &three, THREE_BUDGETS)
}

/// What the checker answers on these items within so many steps each, in words; items and places are from 1.
fn answer_within(
    alloc: Global,
    patches: &Patches,
    items: Vec<Item>,
    steps: u64,
) -> Result<String, Fail>
    requires { All (IsOfKind RandomKind) items.items }
{
    match check_random_within(patches, &certificate(alloc, items), steps) {
        Verdict::Accepted => Ok(String::from_str(alloc, "accepted")?),
        Verdict::Rejected {
            item,
            reason,
            place,
        } => Ok(format!(in alloc; "item {} {:?} {}", item, reason, place)?),
    }
}

/// Evidence that wants one step; twice it wants one for each item.
const LINE: &str = "4;1; 0 3:1, 1 2:2; 1 0 1 0";

#[test]
fn certificates_within_steps(rt: HostRuntime) -> Result<(), Fail> {
    let alloc = rt.alloc();
    let patches = patches_of(alloc, CROSSED, VIOLATION, None)?;
    let got = answer_within(alloc, &patches, alone(alloc, LINE)?, 0)?;
    assert_text(&rt, LINE, got, "item 1 Steps 0");
    let got = answer_within(alloc, &patches, followed(alloc, LINE, 1)?, 1)?;
    assert_text(&rt, LINE, got, "accepted");
    let mut twice = alone(alloc, LINE)?;
    twice.push(item_of(alloc, LINE)?)?;
    let got = answer_within(alloc, &patches, twice, 1)?;
    assert_text(&rt, LINE, got, "accepted");
    let other_total = "5;1; 0 3:1, 1 2:2; 1 0 1 0";
    let mut second = alone(alloc, LINE)?;
    second.push(item_of(alloc, other_total)?)?;
    let got = answer_within(alloc, &patches, second, 1)?;
    assert_text(&rt, other_total, got, "item 2 Units 0");
    Ok(())
}
