//! Tests of the sheet, through the forms of technologies, asked files and choices from menus.
use crate::readers::reading::{Reader, assert_read};
use rp_forms::Form;
use rp_sheet::{Records, TableFault, read_sheet};
use std::alloc::Global;
use std::test::Fail;

const TECHNOLOGIES: &str = "\
y,p,w_a,x_a,w_b,x_b|1,5,1,2,2,1|2,4,2,2,1,2| => Ok([1, 5, 1, 2, 2, 1, 2, 4, 2, 2, 1, 2])
obs,w_a,x_a,y|x,1.5,2,0.25| => Ok([0, 15, 200, 25])
x_a,y,p,w_a|1,0,0.25,1| => Ok([1, 0, 25, 100])
";

#[test]
fn technologies_are_read(rt: HostRuntime) -> Result<(), Fail> {
    assert_read(&rt, rt.alloc(), Reader::Technologies, TECHNOLOGIES)
}

const FAULTS: &str = "\
y,p_a,q_a| => Err(BadHeader { column: 2 })
 => Err(Empty)
y,w_a,x_a,e| => Err(BadHeader { column: 4 })
y,w_a,w_a| => Err(TwiceNamed { column: 3 })
y,w_a,x_b| => Err(Unpaired { column: 2 })
w_a,x_a,p| => Err(Unpaired { column: 0 })
y,p| => Err(Unpaired { column: 0 })
y,w_a,x_a| => Err(NoRecords)
y,w_a,x_a|1,1| => Err(Ragged { row: 1 })
y,w_a,x_a|1,x,1| => Err(BadNumber { row: 1, column: 2 })
y,w_a,x_a|1.1234567,1,1| => Err(TooManyDecimals { row: 1, column: 1 })
y,p,w_a,x_a|1,0,1,1| => Err(ZeroPrice { row: 1, column: 2 })
y,w_a,x_a|1,1,0| => Err(ZeroBundle { row: 1 })
y,w_a,x_a|10000000,1,1| => Err(TooLarge { row: 1, column: 1 })
";

#[test]
fn technologies_have_the_faults_of_tables(rt: HostRuntime) -> Result<(), Fail> {
    assert_read(&rt, rt.alloc(), Reader::Technologies, FAULTS)
}

const ASKED: &str = "\
w_a,w_b,y|1,2.5,3| => Ok([10, 25, 30])
y,obs,w_b,w_a|0,x,1,2| => Ok([0, 0, 1, 2])
w_a,w_b,y,p| => Err(BadHeader { column: 4 })
e,w_a,w_b,y| => Err(BadHeader { column: 1 })
y| => Err(Unpaired { column: 0 })
w_a,w_b| => Err(Unpaired { column: 0 })
w_a,w_c,y| => Err(OtherGoods { column: 2 })
w_a,y| => Err(OtherGoods { column: 0 })
w_a,w_b,y|1,1,0.25| => Err(TooFine { row: 1, column: 3 })
";

#[test]
fn asked_files_have_the_inputs_of_a_technology(rt: HostRuntime) -> Result<(), Fail> {
    assert_read(&rt, rt.alloc(), Reader::Asked, ASKED)
}

const MENUS: &str = "\
menu,choice,n|ab, a ,3| => Ok([0, 0, 3])
menu,choice,n,p_a| => Err(BadHeader { column: 4 })
menu,choice,e,n| => Err(BadHeader { column: 3 })
menu,n| => Err(Unpaired { column: 0 })
menu,choice,n|ab,a,1.5| => Err(BadNumber { row: 1, column: 3 })
";

#[test]
fn menus_have_texts_and_counts(rt: HostRuntime) -> Result<(), Fail> {
    assert_read(&rt, rt.alloc(), Reader::Menus, MENUS)
}

/// The field of the only record of choices from menus under a header, or nothing where there are more or fewer.
fn field_under(alloc: Global, file: &str, header: &[u8]) -> Result<Vec<u8>, TableFault> {
    let records = Records::of(alloc, file.as_bytes(), 3)?;
    if records.len() != 2 {
        return Ok(Vec::new(alloc));
    }
    let sheet = read_sheet(alloc, &Form::menus(), &[], &records)?;
    let column = sheet.columns.find(header).unwrap_or(0);
    Ok(records.row_field(0, column).to_vec(alloc)?)
}

#[test]
fn a_text_is_found_by_its_header(rt: HostRuntime) -> Result<(), Fail> {
    let field = field_under(rt.alloc(), "menu,n, choice \nab,3, a \n", b"choice")?;
    assert!(rt; field.as_slice() == b" a ".as_slice());
    Ok(())
}
