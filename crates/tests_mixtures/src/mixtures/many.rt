//! As many patches as are asked for: up to the limit of generated types.
ghost use Rattle.std.specs.Prelude.{◌≤◌};
ghost use Rattle.rp_limits.specs.declared.generated.TheConstants.{PATCHES};

use crate::mixtures::told::told_fault;
use rp_patch::of_choices::patches_within;
use rp_text::{read_budgets, read_choices};
use std::alloc::{AllocError, Global};
use std::test::Fail;

/// On each of these budgets a good of its own costs 2 and the others 1. So a bundle on one of them lies above another
/// where it has more of the other's good than of its own good, and costs just as much there where it has as much.
const BUDGETS: &str = "p_a,p_b,p_c,p_d,p_e,p_f,p_g,p_h,w\n\
    2,1,1,1,1,1,1,1,9\n1,2,1,1,1,1,1,1,9\n1,1,2,1,1,1,1,1,9\n1,1,1,2,1,1,1,1,9\n\
    1,1,1,1,2,1,1,1,9\n1,1,1,1,1,2,1,1,9\n1,1,1,1,1,1,2,1,9\n1,1,1,1,1,1,1,2,9\n";

/// One of a budget's own good, and of the others, in order, one or two by the bits of a number: another patch for each
/// number below 128.
fn push_choice(text: &mut String, budget: u32, number: u32) -> Result<(), AllocError> {
    write!(text, "{budget}")?;
    let mut bits = number;
    for good in 1..9 {
        if good == budget {
            text.push_str(",1")?;
        } else {
            let many = 1 + bits % 2;
            write!(text, ",{many}")?;
            bits /= 2;
        }
    }
    text.push_str(",1\n")
}

/// Choices in so many patches on each of the eight budgets, and in one more on the last.
fn choices(alloc: Global, each: u32, more: bool) -> Result<String, AllocError> {
    let mut text = String::from_str(alloc, "budget,q_a,q_b,q_c,q_d,q_e,q_f,q_g,q_h,n\n")?;
    for budget in 1..9 {
        for number in 0..each {
            push_choice(&mut text, budget, number)?;
        }
    }
    if more {
        push_choice(&mut text, 8, each)?;
    }
    Ok(text)
}

/// How many patches there are, where there may be so many, or the fault.
fn counted(alloc: Global, each: u32, more: bool, most: u32) -> Result<String, Fail>
    requires { most ≤ PATCHES }
{
    let budgets = read_budgets(alloc, BUDGETS.as_bytes())?;
    let choices = read_choices(alloc, choices(alloc, each, more)?.as_bytes(), &budgets)?;
    match patches_within(alloc, &budgets, &choices, None, most) {
        Ok(made) => {
            let patches = made.count();
            Ok(format!(in alloc; "{patches} patches")?)
        }
        Err(fault) => Ok(told_fault(alloc, fault)?),
    }
}

/// Patches on each budget, whether one more is on the last, how many there may be, and what is told.
type Case = (u32, bool, u32, &'static str);

const CASES: &[Case] = &[
    (32, false, 256, "256 patches"),
    (32, true, 256, "TooManyPatches 8"),
    (36, false, 256, "TooManyPatches 8"),
    (37, false, 256, "TooManyPatches 7"),
    (32, false, 255, "TooManyPatches 8"),
    (32, false, 224, "TooManyPatches 8"),
    (32, false, 223, "TooManyPatches 7"),
    (6, false, 48, "48 patches"),
    (6, true, 48, "TooManyPatches 8"),
    (6, true, 49, "49 patches"),
    (1, false, 0, "TooManyPatches 1"),
];

/// So many patches as there may be are taken, and with one more the first budget is told up to which there are too many.
#[test]
fn as_many_patches_as_there_may_be(rt: HostRuntime) -> Result<(), Fail> {
    for (each, more, most, wanted) in CASES {
        let got = counted(rt.alloc(), *each, *more, *most)?;
        assert!(rt; got.as_str() == *wanted, "{each} {more} {most} => {got}");
    }
    Ok(())
}
