//! Tests of what refuses a long file as a whole.
use crate::long_files::reading::{assert_files, assert_told};
use std::test::Fail;

/// Files with a fault as a whole; the earliest stage that finds one tells it.
const REFUSED: &str = "\
household,p_a,q_a|A,1,2|A,3| => Ragged { row: 2 }
household,p_a,q_a|A,1,2|B,3,4,5|A,0,1| => Ragged { row: 2 }
household,year,p_a,q_a|A,1,1,2|B,1,2| => Ragged { row: 2 }
household,p_a,q_a,p_a|A,1,2,1| => TwiceNamed { column: 4 }
household,x,p_a,q_a, x |A,1,1,2,1| => TwiceNamed { column: 5 }
house,p_a,q_a|A,1,2| => NoIdColumn
household,x,p_a|A,1,2| => Unpaired { column: 3 }
household,x,y|A,1,2| => Unpaired { column: 0 }
household,p_a,q_a| => NoRecords
household,p_a,p_a|A,1| => TwiceNamed { column: 3 }
";

#[test]
fn a_file_is_refused_with_its_first_fault(rt: HostRuntime) -> Result<(), Fail> {
    assert_files(&rt, rt.alloc(), "household", &[], REFUSED)
}

#[test]
fn an_empty_file_is_refused(rt: HostRuntime) -> Result<(), Fail> {
    assert_told(&rt, rt.alloc(), "", "household", &[], "Empty")
}

#[test]
fn a_name_to_be_kept_has_a_column(rt: HostRuntime) -> Result<(), Fail> {
    let file = "household,p_a,q_a\nA,1,2\n";
    let wanted = "NoKeptColumn { number: 1 }";
    assert_told(&rt, rt.alloc(), file, "household", &[b"town"], wanted)
}
