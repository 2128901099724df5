//! What is found of worked choices, which the check accepts.
ghost use Rattle.rp_orders.specs.OrderMixtures.{AreUnitsOf};

use crate::menus::cases::{Asked, assert_told};
use crate::menus::evidence::menus_of;
use crate::menus::given::push;
use rp_evidence::Share;
use rp_menu::Menus;
use rp_orders::{MenuPart, check_menu, menus};
use rp_patch::apportionment::Units;
use std::alloc::{AllocError, Global};
use std::process::Abort;
use std::test::Fail;

/// An order, by its letters from 0, and its weight.
fn push_part(alloc: Global, text: &mut String, part: &Share) -> Result<(), AllocError> {
    text.push_str(", part")?;
    for letter in part.patches.as_slice() {
        push(alloc, text, " ", u64::from(*letter))?;
    }
    push(alloc, text, " weight ", part.weight)
}

/// Each order and its weight.
fn push_parts(alloc: Global, text: &mut String, parts: &[Share]) -> Result<(), AllocError> {
    for part in parts {
        push_part(alloc, text, part)?;
    }
    Ok(())
}

/// The weight of each cell.
fn push_weights(alloc: Global, text: &mut String, weights: &[u64]) -> Result<(), AllocError> {
    text.push_str(", weights")?;
    for weight in weights {
        push(alloc, text, " ", *weight)?;
    }
    Ok(())
}

/// The evidence in words.
fn push_evidence(alloc: Global, text: &mut String, part: &MenuPart) -> Result<(), AllocError> {
    match part {
        MenuPart::Mixture { den, parts } => {
            push(alloc, text, "mixture over ", *den)?;
            push_parts(alloc, text, parts.as_slice())
        }
        MenuPart::Violated {
            den,
            parts,
            weights,
        } => {
            push(alloc, text, "violated over ", *den)?;
            push_weights(alloc, text, weights.as_slice())?;
            push_parts(alloc, text, parts.as_slice())
        }
        MenuPart::Wide { step } => push(alloc, text, "withheld ", *step),
    }
}

/// The evidence in words.
fn told(alloc: Global, part: &MenuPart) -> Result<String, Fail> {
    let mut text = String::new(alloc);
    push_evidence(alloc, &mut text, part)?;
    Ok(text)
}

/// What is found of choices, or that it is rejected.
fn found_of(alloc: Global, seen: &Menus, units: &Units) -> Result<String, Fail>
    requires { AreUnitsOf seen.now units.now }
{
    let part = menus(alloc, seen, units)?;
    if !check_menu(seen, units, &part) {
        return Ok(String::from_str(alloc, "rejected")?);
    }
    told(alloc, &part)
}

/// What is found of a file, or that it is rejected.
pub(crate) fn found(
    rt: &impl Abort,
    alloc: Global,
    file: &str,
    unit: Option<u32>,
) -> Result<String, Fail> {
    let (seen, units) = menus_of(rt, alloc, file, unit)?;
    found_of(alloc, &seen, &units)
}

/// Two letters; one letter alone; and orders that are left out.
const FEW_LETTERS: &[(&str, &str)] = &[
    (
        "menu,choice,n\nab,a,1\nab,b,2\n",
        "mixture over 1, part 0 1 weight 1, part 1 0 weight 2",
    ),
    ("menu,choice,n\na,a,3\n", "mixture over 1, part 0 weight 3"),
    // the one order that picks a and b
    (
        "menu,choice,n\nab,a,1\nbc,b,1\n",
        "mixture over 1, part 0 1 2 weight 1",
    ),
];

/// Two letters with units that are asked: 33 and a third, and 66 and two thirds.
const A_HUNDRED_UNITS: &[(&str, &str)] = &[(
    "menu,choice,n\nab,a,1\nab,b,2\n",
    "mixture over 1, part 0 1 weight 33, part 1 0 weight 67",
)];

#[test]
fn few_letters(rt: HostRuntime) -> Result<(), Fail> {
    assert_told(&rt, rt.alloc(), Asked::Found(None), FEW_LETTERS)?;
    assert_told(&rt, rt.alloc(), Asked::Found(Some(100)), A_HUNDRED_UNITS)
}

/// All menus of three letters: the orders a b c once, b c a twice and c a b three times make the first choices, and
/// for three letters there is no other mixture. And choices that no mixture makes: of b in the place of a, on the
/// smaller menu alone; and round a circle, where no order picks a cell from every menu.
const THREE_LETTERS: &[(&str, &str)] = &[
    (
        "menu,choice,n\nab,a,4\nab,b,2\nac,a,1\nac,c,5\nbc,b,3\nbc,c,3\nabc,a,1\nabc,b,2\nabc,c,3\n",
        "mixture over 1, part 0 1 2 weight 1, part 1 2 0 weight 2, part 2 0 1 weight 3",
    ),
    // b is picked before a, and a before c; b has one half of what is picked of all three
    (
        "menu,choice,n\nab,b,2\nac,a,2\nbc,b,2\nabc,a,1\nabc,b,1\n",
        "violated over 1, weights 0 0 0 0 1, part 1 0 2 weight 1",
    ),
    (
        "menu,choice,n\nabc,a,1\nabc,b,1\nab,b,2\n",
        "violated over 1, weights 0 1 0, part 1 0 2 weight 1",
    ),
    (
        "menu,choice,n\nab,a,1\nbc,b,1\nac,c,1\n",
        "violated over 1, weights 0 0 0",
    ),
];

#[test]
fn three_letters(rt: HostRuntime) -> Result<(), Fail> {
    assert_told(&rt, rt.alloc(), Asked::Found(None), THREE_LETTERS)
}
