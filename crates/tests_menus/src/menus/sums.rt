//! The sums over menus that hold a menu.
ghost use Rattle.rp_orders.specs.OrderMixtures.{AreUnitsOf};

use crate::menus::cases::{Asked, assert_told};
use crate::menus::evidence::menus_of;
use rp_menu::Menus;
use rp_orders::{is_complete, menu_sum};
use rp_patch::apportionment::Units;
use std::alloc::{AllocError, Global};
use std::process::Abort;
use std::test::Fail;

/// The sum of a letter at a menu.
fn push_sum(
    alloc: Global,
    text: &mut String,
    menu: u32,
    x: u32,
    sum: i128,
) -> Result<(), AllocError> {
    text.push_str(format!(in alloc; "{menu}:{x}:{sum} ")?.as_str())
}

/// The sums of each letter at each menu that has it, by menu and then by letter, where the data are complete.
fn sums_of(alloc: Global, seen: &Menus, units: &Units) -> Result<String, AllocError>
    requires { AreUnitsOf seen.now units.now }
{
    if !is_complete(seen) {
        return String::from_str(alloc, "incomplete");
    }
    let letters = seen.letters();
    let mut text = String::new(alloc);
    for menu in 0..2u32.pow(letters) {
        for x in 0..letters {
            if menu / 2u32.pow(x) % 2 == 1 {
                push_sum(alloc, &mut text, menu, x, menu_sum(seen, units, x, menu))?;
            }
        }
    }
    Ok(text)
}

/// The sums of the choices of a file.
pub(crate) fn sums(rt: &impl Abort, alloc: Global, file: &str) -> Result<String, Fail> {
    let (seen, units) = menus_of(rt, alloc, file, None)?;
    Ok(sums_of(alloc, &seen, &units)?)
}

/// One and two letters; and all menus of three, which a mixture of a b c once, b c a twice and c a b three times makes,
/// and where b is picked from a and b alone, but a from all three; and all menus of four, which a b c d once, b d a c
/// twice and d c b a three times make: so often are the letters from the one on, in an order, just those of the menu.
const SUMS: &[(&str, &str)] = &[
    ("menu,choice,n\na,a,3\n", "1:0:3 "),
    (
        "menu,choice,n\nab,a,1\nab,b,2\n",
        "1:0:2 2:1:1 3:0:1 3:1:2 ",
    ),
    (
        "menu,choice,n\nab,a,4\nab,b,2\nac,a,1\nac,c,5\nbc,b,3\nbc,c,3\nabc,a,1\nabc,b,2\nabc,c,3\n",
        "1:0:2 2:1:3 3:0:3 3:1:0 4:2:1 5:0:0 5:2:2 6:1:1 6:2:0 7:0:1 7:1:2 7:2:3 ",
    ),
    (
        "menu,choice,n\n\
        ab,a,1\nab,b,5\nac,a,3\nac,c,3\nad,a,1\nad,d,5\nbc,b,3\nbc,c,3\nbd,b,3\nbd,d,3\ncd,c,1\ncd,d,5\n\
        abc,a,1\nabc,b,2\nabc,c,3\nabd,a,1\nabd,b,2\nabd,d,3\nacd,a,1\nacd,d,5\nbcd,b,3\nbcd,d,3\n\
        abcd,a,1\nabcd,b,2\nabcd,d,3\n",
        "1:0:3 2:1:0 3:0:0 3:1:3 4:2:2 5:0:2 5:2:0 6:1:0 6:2:0 7:0:0 7:1:0 7:2:3 8:3:1 9:0:0 9:3:0 \
         10:1:0 10:3:0 11:0:0 11:1:0 11:3:0 12:2:1 12:3:0 13:0:0 13:2:0 13:3:2 14:1:1 14:2:0 14:3:0 \
         15:0:1 15:1:2 15:2:0 15:3:3 ",
    ),
    (
        "menu,choice,n\nab,b,2\nac,a,2\nbc,b,2\nabc,a,1\nabc,b,1\n",
        "1:0:1 2:1:-1 3:0:-1 3:1:1 4:2:2 5:0:1 5:2:0 6:1:1 6:2:0 7:0:1 7:1:1 7:2:0 ",
    ),
    ("menu,choice,n\nabc,a,1\nabc,b,1\nab,b,2\n", "incomplete"),
];

#[test]
fn sums_of_complete_data(rt: HostRuntime) -> Result<(), Fail> {
    assert_told(&rt, rt.alloc(), Asked::Sums, SUMS)
}
