//! Menus of as many letters as there may be.
use rp_commands::Status;
use std::test::Fail;
use tests_support::{prints, run_over};

/// All 57 menus of two or more of six letters, with the choices of one person, who ranks a first and f last.
const ONE_ORDER: &str =
    "menu,choice,n\nab,a,1\nac,a,1\nad,a,1\nae,a,1\naf,a,1\nbc,b,1\nbd,b,1\nbe,b,1\n\
    bf,b,1\ncd,c,1\nce,c,1\ncf,c,1\nde,d,1\ndf,d,1\nef,e,1\nabc,a,1\nabd,a,1\n\
    abe,a,1\nabf,a,1\nacd,a,1\nace,a,1\nacf,a,1\nade,a,1\nadf,a,1\naef,a,1\n\
    bcd,b,1\nbce,b,1\nbcf,b,1\nbde,b,1\nbdf,b,1\nbef,b,1\ncde,c,1\ncdf,c,1\n\
    cef,c,1\ndef,d,1\nabcd,a,1\nabce,a,1\nabcf,a,1\nabde,a,1\nabdf,a,1\nabef,a,1\n\
    acde,a,1\nacdf,a,1\nacef,a,1\nadef,a,1\nbcde,b,1\nbcdf,b,1\nbcef,b,1\nbdef,b,1\n\
    cdef,c,1\nabcde,a,1\nabcdf,a,1\nabcef,a,1\nabdef,a,1\nacdef,a,1\nbcdef,b,1\n\
    abcdef,a,1\n";

/// All these menus with the choices of four persons, three of whom have two neighbours of that order exchanged:
/// 64 cells, the most allowed.
const FOUR_ORDERS: &str =
    "menu,choice,n\nab,a,4\nac,a,4\nad,a,4\nae,a,4\naf,a,4\nbc,b,4\nbd,b,4\nbe,b,4\n\
    bf,b,4\ncd,c,3\ncd,d,1\nce,c,4\ncf,c,4\nde,d,3\nde,e,1\ndf,d,4\nef,e,3\nef,f,1\n\
    abc,a,4\nabd,a,4\nabe,a,4\nabf,a,4\nacd,a,4\nace,a,4\nacf,a,4\nade,a,4\n\
    adf,a,4\naef,a,4\nbcd,b,4\nbce,b,4\nbcf,b,4\nbde,b,4\nbdf,b,4\nbef,b,4\n\
    cde,c,3\ncde,d,1\ncdf,c,3\ncdf,d,1\ncef,c,4\ndef,d,3\ndef,e,1\nabcd,a,4\n\
    abce,a,4\nabcf,a,4\nabde,a,4\nabdf,a,4\nabef,a,4\nacde,a,4\nacdf,a,4\nacef,a,4\n\
    adef,a,4\nbcde,b,4\nbcdf,b,4\nbcef,b,4\nbdef,b,4\ncdef,c,3\ncdef,d,1\n\
    abcde,a,4\nabcdf,a,4\nabcef,a,4\nabdef,a,4\nacdef,a,4\nbcdef,b,4\nabcdef,a,4\n";

#[test]
fn all_menus_of_six_letters_by_one_order(rt: HostRuntime) -> Result<(), Fail> {
    let out = "alternatives 6 menus 57 cells 57 orders 1 total 1\nmenus mixture over 1\n\
               part a b c d e f weight 1\nsums least 0 at a in a\n";
    prints(
        rt.alloc(),
        &["rp", "menus", "m.csv"],
        &[("m.csv", ONE_ORDER)],
        out,
    )
}

/// Five orders pick a cell of every menu. More than one mixture of them makes these choices: no part is held against.
#[test]
fn as_many_cells_as_there_may_be(rt: HostRuntime) -> Result<(), Fail> {
    let first =
        "alternatives 6 menus 57 cells 64 orders 5 total 4\nmenus mixture over 1\npart a b ";
    let got = run_over(
        rt.alloc(),
        &["rp", "menus", "m.csv"],
        &[("m.csv", FOUR_ORDERS)],
    )?;
    assert!(rt; got.status == Status::Done, "{}", got.err);
    assert!(rt; got.out.starts_with(first), "{}", got.out);
    assert!(rt;
        got.out.ends_with("\nsums least 0 at a in a\n"),
        "{}",
        got.out
    );
    Ok(())
}
