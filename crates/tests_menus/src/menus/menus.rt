//! The order of menus and cells.
use crate::menus::cases::{Asked, assert_told};
use std::test::Fail;

/// A menu takes its place, and so does a cell in its menu, when a record first says that somebody chose there.
const IN_ORDER: &[(&str, &str)] = &[
    (
        "menu,choice,n\nab,a,1\nab,b,2\n",
        "2 letters, menus 3, cells 0:0:1 0:1:2",
    ),
    (
        "menu,choice,n\nabc,a,1\nabc,b,1\nab,b,2\n",
        "3 letters, menus 7 3, cells 0:0:1 0:1:1 1:1:2",
    ),
    // cells of one menu stand together, and records of one cell are counted together
    (
        "menu,choice,n\nbd,d,1\nac,c,2\nbd,b,3\nbd,d,4\nac,c,1\n",
        "4 letters, menus 10 5, cells 0:3:5 0:1:3 1:2:3",
    ),
    // a record that was chosen no time counts for the letters and makes neither a menu nor a cell
    (
        "choice,n,obs,menu\nf,0,x,abcdef\nb,1,y,ab\na,0,z,ab\na,2,,ab\n",
        "6 letters, menus 3, cells 0:1:1 0:0:2",
    ),
    // counts with blanks, leading zeros and a point; lines that end in CR and LF
    (
        "menu,choice, n \r\na,a, 007 \r\n\"a\",a,1.0\r\n",
        "1 letters, menus 1, cells 0:0:8",
    ),
];

#[test]
fn menus_and_cells_in_order(rt: HostRuntime) -> Result<(), Fail> {
    assert_told(&rt, rt.alloc(), Asked::Read, IN_ORDER)
}
