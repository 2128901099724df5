//! Tests of households: which records are whose, and what they denote.
use crate::long_files::reading::{assert_files, assert_told};
use std::test::Fail;

/// Records of one household that stand apart, ids that differ by blanks, records without an id.
const HOUSEHOLDS: &str = "\
household,p_a,q_a|A,1,2|B,3,4|A,5,6| => A 2 [ 1x2] [ 5x6];B 1 [ 3x4];
household,p_a,q_a|B,3,4|A,1,2|A,5,6| => B 1 [ 3x4];A 2 [ 1x2] [ 5x6];
p_a,household,q_a|1,A,2|5,A ,6|7,  A,8| => A 3 [ 1x2] [ 5x6] [ 7x8];
household,p_a,q_a|,1,2|A,3,4|  ,5,6| => A 1 [ 3x4];NoId 1;NoId 3;
household,p_a,q_a|,1,2| => NoId 1;
household,p_a,q_a|a,1,2|A,3,4|a b,5,6|ab,7,8| => a 1 [ 1x2];A 1 [ 3x4];a b 1 [ 5x6];ab 1 [ 7x8];
year,household,obs,q_a,p_a,income|1,A,x,2,1,9|2,A,y,4,3,9| => A 2 [ 1x2] [ 3x4];
household,p_a,q_a,e|A,1,2,900|A,3,4,1001| => A 2 BadLevel { row: 2, column: 4 };
household,p_a,q_a|A,1.5,2|B,3,4| => A 1 [ 15x2];B 1 [ 3x4];
";

/// Faults of one household, with the record and the column of the file.
const FAULTS: &str = "\
year,household,p_a,q_a|1,A,1,2|1,B,3,4|2,A,0,2|2,B,5,6| => A 2 ZeroPrice { row: 3, column: 3 };B 2 [ 3x4] [ 5x6];
q_a,p_a,household|1,1,A|x,2,B|1,3,A|1,y,B| => A 2 [ 1x1] [ 3x1];B 2 BadNumber { row: 2, column: 1 };
household,p_a,q_a|B,1,1|A,1,0|B,1,0|A,1,1| => B 2 ZeroBundle { row: 3 };A 2 ZeroBundle { row: 2 };
household,p_a,q_a|A,1,1|B,10000000,1|C,1.1234567,1| => A 1 [ 1x1];B 1 TooLarge { row: 2, column: 2 };\
C 1 TooManyDecimals { row: 3, column: 2 };
";

/// Texts of the first record of each household.
const KEPT: &str = "\
household,town,p_a,q_a|A,x,1,2|B,y,3,4|A,z,5,6| => A 2 [ 1x2] [ 5x6] :x;B 1 [ 3x4] :y;
town,household,p_a,q_a| x ,A,1,2|,B,3,4| => A 1 [ 1x2] : x ;B 1 [ 3x4] :;
";

#[test]
fn households_have_their_records_wherever_they_stand(rt: HostRuntime) -> Result<(), Fail> {
    assert_files(&rt, rt.alloc(), "household", &[], HOUSEHOLDS)
}

#[test]
fn a_household_has_the_fault_of_its_own(rt: HostRuntime) -> Result<(), Fail> {
    assert_files(&rt, rt.alloc(), "household", &[], FAULTS)
}

#[test]
fn texts_of_the_first_record_are_kept(rt: HostRuntime) -> Result<(), Fail> {
    assert_files(&rt, rt.alloc(), "household", &[b"town"], KEPT)
}

#[test]
fn a_line_end_in_an_id_makes_no_record(rt: HostRuntime) -> Result<(), Fail> {
    let file = "household,p_a,q_a\r\n\"A\rB\",1,2\r\n\"A\r\nB\",3,4\r\nA,5,6\r\n";
    let wanted = "A\rB 1 [ 1x2];A\r\nB 1 [ 3x4];A 1 [ 5x6];";
    assert_told(&rt, rt.alloc(), file, "household", &[], wanted)
}

#[test]
fn ids_stand_under_any_name(rt: HostRuntime) -> Result<(), Fail> {
    let file = "obs,household,p_a,q_a\n1,A,1,2\n2,A,3,4\n";
    let wanted = "1 1 [ 1x2];2 1 [ 3x4];";
    assert_told(&rt, rt.alloc(), file, "obs", &[], wanted)
}
