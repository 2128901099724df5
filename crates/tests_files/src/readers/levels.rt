//! Tests of the column of levels: where it stands, what it may hold, and the place of each fault. What is read is how
//! many observations and goods there are, 1 where there are levels and 0 where there are none, and the level of each.
use crate::readers::reading::{Reader, assert_read};
use std::test::Fail;

const STAND: &str = "\
e,p_a,q_a,p_b,q_b|799,1,1,2,2|1000,2,2,1,1| => Ok([2, 2, 1, 799, 1000])
p_a,q_a, e ,p_b,q_b|1,1, 799\t,2,2|2,2,1000,1,1| => Ok([2, 2, 1, 799, 1000])
p_a,q_a,p_b,q_b,e|1,1,2,2,799.0|2,2,1,1,01000.0000000| => Ok([2, 2, 1, 799, 1000])
obs,p_a,q_a,p_b,e,q_b|x,1,1,2,799,2|y,2,2,1,1000,1| => Ok([2, 2, 1, 799, 1000])
";

#[test]
fn own_levels_stand_first_between_and_last(rt: HostRuntime) -> Result<(), Fail> {
    assert_read(&rt, rt.alloc(), Reader::Levels, STAND)
}

/// All of what was spent counts.
const WITHOUT: &str = "\
p_a,q_a,p_e,q_e|1,1,2,2| => Ok([1, 2, 0, 1000])
";

#[test]
fn a_table_without_the_column_has_no_levels(rt: HostRuntime) -> Result<(), Fail> {
    assert_read(&rt, rt.alloc(), Reader::Levels, WITHOUT)
}

const LEVELS: &str = "\
p_a,q_a,p_b,q_b,e|1,1,2,2,1|2,2,1,1,1000| => Ok([2, 2, 1, 1, 1000])
p_a,q_a,p_b,q_b,e|1,1,2,2,1000|2,2,1,1,1000| => Ok([2, 2, 1, 1000, 1000])
p_a,q_a,p_b,q_b,e|1,1,2,2,999.0|2,2,1,1,1000| => Ok([2, 2, 1, 999, 1000])
p_a,q_a,p_b,q_b,e|1,1,2,2,1.0000000|2,2,1,1,1000| => Ok([2, 2, 1, 1, 1000])
p_a,q_a,p_b,q_b,e|1,1,2,2,0|2,2,1,1,1000| => Err(BadLevel { row: 1, column: 5 })
p_a,q_a,p_b,q_b,e|1,1,2,2,0.0|2,2,1,1,1000| => Err(BadLevel { row: 1, column: 5 })
p_a,q_a,p_b,q_b,e|1,1,2,2,1001|2,2,1,1,1000| => Err(BadLevel { row: 1, column: 5 })
p_a,q_a,p_b,q_b,e|1,1,2,2,10000000000000000000|2,2,1,1,1000| => Err(BadLevel { row: 1, column: 5 })
p_a,q_a,p_b,q_b,e|1,1,2,2,99999999999999999999999999999999999999999999|2,2,1,1,1000| => Err(BadLevel { row: 1, column: 5 })
p_a,q_a,p_b,q_b,e|1,1,2,2,999.5|2,2,1,1,1000| => Err(BadNumber { row: 1, column: 5 })
p_a,q_a,p_b,q_b,e|1,1,2,2,0.5|2,2,1,1,1000| => Err(BadNumber { row: 1, column: 5 })
p_a,q_a,p_b,q_b,e|1,1,2,2,1000.5|2,2,1,1,1000| => Err(BadNumber { row: 1, column: 5 })
p_a,q_a,p_b,q_b,e|1,1,2,2,1.1234567|2,2,1,1,1000| => Err(BadNumber { row: 1, column: 5 })
p_a,q_a,p_b,q_b,e|1,1,2,2,-1|2,2,1,1,1000| => Err(BadNumber { row: 1, column: 5 })
p_a,q_a,p_b,q_b,e|1,1,2,2,|2,2,1,1,1000| => Err(BadNumber { row: 1, column: 5 })
p_a,q_a,p_b,q_b,e|1,1,2,2,1e3|2,2,1,1,1000| => Err(BadNumber { row: 1, column: 5 })
";

#[test]
fn own_levels_are_whole_thousandths_from_1_to_1_000(rt: HostRuntime) -> Result<(), Fail> {
    assert_read(&rt, rt.alloc(), Reader::Levels, LEVELS)
}

const PLACES: &str = "\
p_a,q_a,e,e|1,1,1,1| => Err(TwiceNamed { column: 4 })
e,q_a,E|1,1,1| => Err(BadHeader { column: 3 })
e|1| => Err(Unpaired { column: 0 })
p_a,e|1,1| => Err(Unpaired { column: 1 })
p_e,e|1,1| => Err(Unpaired { column: 1 })
p_a,q_a,e|x,1,0| => Err(BadNumber { row: 1, column: 1 })
e,p_a,q_a|0,x,1| => Err(BadLevel { row: 1, column: 1 })
e,p_a,q_a|1,1,1|1001,1,0| => Err(BadLevel { row: 2, column: 1 })
p_a,e,q_a|0,0,1| => Err(ZeroPrice { row: 1, column: 1 })
p_a,q_a,e|1,0,1|1,1,0| => Err(ZeroBundle { row: 1 })
p_a,q_a,e|10000000,1,1|1,1,0| => Err(BadLevel { row: 2, column: 3 })
p_a,q_a,e|1,1| => Err(Ragged { row: 1 })
p_a,q_a,e| => Err(NoRecords)
";

#[test]
fn faults_of_own_levels_come_by_their_places(rt: HostRuntime) -> Result<(), Fail> {
    assert_read(&rt, rt.alloc(), Reader::Levels, PLACES)
}
