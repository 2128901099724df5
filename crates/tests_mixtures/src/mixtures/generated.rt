//! Mixtures of rational types that are generated, and where there is none.
use crate::mixtures::told::{Ask, assert_each, share_text};
use rp_evidence::RandomPart;
use rp_generated::{SEARCH_STEPS, generated};
use rp_limits::generated::PATCHES;
use rp_patch::Patches;
use rp_patch::of_choices::patches_within;
use rp_text::{read_budgets, read_choices};
use std::alloc::Global;
use std::test::Fail;
use tests_inputs::choices::{CROSSED, ONE_BUDGET};

const ON_CROSSED: &str = "\
budget,q_a,q_b,n|1,2,1,1|1,0,2,3|2,1,2,2|2,2,0,2| => violated, weights 1 0 1 0 over 1, 1 4 weight 1, 2 3 weight 2
budget,q_a,q_b,n|1,2,1,3|1,0,2,1|2,1,2,2|2,2,0,2| => mixture over 1, 1 3 weight 1, 1 4 weight 2, 2 3 weight 1
budget,q_a,q_b,n|1,0,2,1|2,2,0,1| => violated, weights 0 0 over 1
";

const ON_ONE: &str = "\
budget,q_a,n|1,2,7| => mixture over 1, 1 weight 7
";

/// Eight budgets of three goods, and seven choices on each.
const MANY: &str =
    "p_bread,p_wine,p_rent,w\n5,3,3,60\n5,1,4,60\n2,1,2,60\n1,3,4,60\n2,4,5,60\n1,5,2,60\n1,2,4,60\n3,2,4,60\n";

const ON_MANY: &str = "\
    budget,q_bread,q_wine,q_rent,n|\
    1,1,0,1,1|1,4,4,3,1|1,1,1,0,1|1,0,1,1,1|1,1,1,2,1|1,2,1,4,1|1,1,1,1,1|\
    2,3,2,0,1|2,2,3,1,1|2,1,2,0,1|2,2,2,4,1|2,4,0,4,1|2,2,0,2,1|2,2,2,3,1|\
    3,2,1,3,1|3,3,1,0,1|3,2,0,2,1|3,3,0,4,1|3,3,2,3,1|3,4,0,3,1|3,0,1,4,1|\
    4,1,0,1,1|4,3,2,4,1|4,2,4,2,1|4,3,0,4,1|4,2,2,0,1|4,3,0,1,1|4,2,4,4,1|\
    5,2,1,2,1|5,2,4,0,1|5,2,2,2,1|5,1,0,1,1|5,2,3,1,1|5,0,0,4,1|5,4,3,0,1|\
    6,1,4,2,1|6,2,3,3,1|6,1,0,0,1|6,3,2,1,1|6,1,4,1,1|6,3,0,1,1|6,3,2,1,1|\
    7,0,3,2,1|7,1,3,4,1|7,1,4,3,1|7,3,2,3,1|7,2,2,3,1|7,3,1,0,1|7,3,4,1,1|\
    8,3,2,1,1|8,0,3,2,1|8,4,4,4,1|8,2,0,2,1|8,4,0,2,1|8,2,4,2,1|8,3,2,2,1|\
    \x20=> violated, 3 and 0 left of 7";

/// Eight budgets of three goods, and twenty people's choices on each, other people on each, in 70 patches.
const DRAWN: &str = "\
    p_a,p_b,p_c,w\n4,5,1,60\n4,1,4,60\n2,4,3,60\n2,4,2,60\n4,1,2,60\n3,5,1,60\n1,3,4,60\n\
    5,4,1,60\n";

const ON_DRAWN: &str = "\
    budget,q_a,q_b,q_c,n\n1,616,509,9999,8\n1,0,0,9999,5\n1,858,2036,9999,3\n\
    1,5263,4082,9999,1\n1,6155,9733,9999,1\n1,9999,678,6102,1\n1,6064,130,9999,1\n\
    2,15,9999,41,14\n2,0,9999,0,2\n2,7866,9999,4253,1\n2,2135,7248,9999,1\n2,1223,55,9999,2\n\
    3,6766,9999,9385,1\n3,9999,1512,219,4\n3,242,259,9999,1\n3,8911,9999,3057,5\n\
    3,721,6863,9999,2\n3,9999,1117,8475,3\n3,9999,8085,8506,1\n3,1,9999,3278,2\n3,9999,0,0,1\n\
    4,737,1380,9999,1\n4,1599,9999,6172,1\n4,9999,568,4335,6\n4,9999,1449,7962,2\n4,0,0,9999,1\n\
    4,1221,9999,929,2\n4,9999,2,0,1\n4,4256,0,9999,1\n4,3047,1524,9999,3\n4,1009,9999,3597,1\n\
    4,6385,2950,9999,1\n5,4923,4350,9999,12\n5,0,9999,0,4\n5,9999,1304,1853,1\n\
    5,9999,6823,1282,1\n5,9999,0,0,1\n5,9999,4797,9483,1\n6,1646,8652,9999,1\n6,9999,47,1478,5\n\
    6,4334,475,9999,4\n6,0,0,9999,4\n6,1295,9999,4809,1\n6,8743,1532,9999,1\n\
    6,2159,3599,9999,1\n6,0,21,9999,1\n6,19,2913,9999,1\n6,9999,3960,2054,1\n\
    7,5810,9999,8069,1\n7,9999,418,161,13\n7,2913,9999,5411,2\n7,2501,404,9999,1\n\
    7,3728,8330,9999,1\n7,8727,9953,9999,1\n7,3738,6051,9999,1\n8,0,1012,9999,2\n\
    8,5027,3029,9999,1\n8,9,1,9999,3\n8,254,9999,3891,1\n8,0,0,9999,1\n8,4310,5857,9999,1\n\
    8,1,2,9999,1\n8,5545,9893,9999,1\n8,9999,4,8518,1\n8,1232,9999,1599,2\n8,425,5754,9999,1\n\
    8,4904,9999,8558,1\n8,3858,8629,9999,1\n8,11,15,9999,2\n8,9999,5810,2359,1\n";

/// Where types are few, those that are generated give the answers that all types give.
#[test]
fn generated_mixtures_and_violations(rt: HostRuntime) -> Result<(), Fail> {
    assert_each(&rt, rt.alloc(), Ask::Generated, CROSSED, ON_CROSSED)?;
    assert_each(&rt, rt.alloc(), Ask::Generated, ONE_BUDGET, ON_ONE)
}

/// There are 6,383 rational types on these patches, more than are listed. The greatest share is 3/7, as a program over
/// all of them has it in floating point.
#[test]
fn more_types_than_are_listed(rt: HostRuntime) -> Result<(), Fail> {
    assert_each(&rt, rt.alloc(), Ask::GeneratedShare, MANY, ON_MANY)
}

/// The patches of the drawn choices: 70, more than are listed, on eight budgets.
fn drawn(alloc: Global) -> Result<Patches, Fail> {
    let budgets = read_budgets(alloc, DRAWN.as_bytes())?;
    let choices = read_choices(alloc, ON_DRAWN.as_bytes(), &budgets)?;
    Ok(patches_within(alloc, &budgets, &choices, None, PATCHES)?)
}

/// There are 351,439 rational types on these patches. The greatest share is 17/20, as a program over all of them has it
/// in floating point.
#[test]
fn more_patches_than_are_listed(rt: HostRuntime) -> Result<(), Fail> {
    let alloc = rt.alloc();
    let made = drawn(alloc)?;
    let part = generated(alloc, &made, SEARCH_STEPS)?;
    assert_eq!(rt; made.count(), 70);
    let told = share_text(alloc, &part, made.total())?;
    assert!(rt; told.as_str() == "violated, 17 and 0 left of 20", "{told}");
    Ok(())
}

/// A type takes a look at a patch of each of the eight budgets. So fewer steps find none, and all of them are made.
#[test]
fn few_steps_are_all_made(rt: HostRuntime) -> Result<(), Fail> {
    let alloc = rt.alloc();
    let made = drawn(alloc)?;
    for most in 0..8 {
        let made_steps = match generated(alloc, &made, most)? {
            RandomPart::Wide { step } => Some(step),
            _ => None,
        };
        assert_eq!(rt; made_steps, Some(most));
    }
    Ok(())
}

/// A limit that is not reached changes nothing.
#[test]
fn ample_steps_change_nothing(rt: HostRuntime) -> Result<(), Fail> {
    let alloc = rt.alloc();
    let made = drawn(alloc)?;
    let part = generated(alloc, &made, SEARCH_STEPS / 64)?;
    let told = share_text(alloc, &part, made.total())?;
    assert!(rt; told.as_str() == "violated, 17 and 0 left of 20", "{told}");
    Ok(())
}
