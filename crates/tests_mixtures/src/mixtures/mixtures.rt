//! Mixtures of rational types, and where there is none.
use crate::mixtures::told::{Ask, assert_each};
use std::test::Fail;
use tests_inputs::choices::{CROSSED, ONE_BUDGET};

/// On the third no type is rational.
const ON_CROSSED: &str = "\
budget,q_a,q_b,n|1,2,1,1|1,0,2,3|2,1,2,2|2,2,0,2| => violated, weights 1 0 1 0 over 1, 1 4 weight 1, 2 3 weight 2
budget,q_a,q_b,n|1,2,1,3|1,0,2,1|2,1,2,2|2,2,0,2| => mixture over 1, 1 3 weight 1, 1 4 weight 2, 2 3 weight 1
budget,q_a,q_b,n|1,0,2,1|2,2,0,1| => violated, weights 0 0 over 1
";

const ON_ONE: &str = "\
budget,q_a,n|1,2,7| => mixture over 1, 1 weight 7
";

/// A mixture where there is one, and else the greatest share with weights that show it.
#[test]
fn mixtures_and_violations(rt: HostRuntime) -> Result<(), Fail> {
    assert_each(&rt, rt.alloc(), Ask::Evidence, CROSSED, ON_CROSSED)?;
    assert_each(&rt, rt.alloc(), Ask::Evidence, ONE_BUDGET, ON_ONE)
}
