//! The rows of bounds of long files.
use rp_bound_rows::{AsStated, BoundSearch, BoundsAsked};
use rp_bounds_panel::write_bounds;
use rp_long::{read_long_records, read_panel};
use std::alloc::Global;
use std::process::Abort;
use std::test::Fail;

const DEMAND_HEADER: &str =
    "household,observations,goods,price,good,lower,lower_floor,upper,upper_ceiling,\
    fault,record,column\n";

const WELFARE_HEADER: &str =
    "household,observations,goods,price,observation,lower,lower_floor,upper,upper_ceiling,\
    fault,record,column\n";

/// A long file, a file of new prices, and the lines below the header.
type Case = (&'static str, &'static str, &'static str);

/// `A` has two observations apart, those of `B` contradict each other, the third record has no id, `C` is at fault, and
/// the quantities of `D` have a place.
const HOUSEHOLDS: &str = "household,p_a,q_a,p_b,q_b\n\
    A,1,2,2,1\nB,1,1,2,2\n,9,9,9,9\nA,2,1,1,2\nC,1,x,1,1\nB,2,2,1,1\nD,1,0.5,1,0.5\n";

const DEMANDS: &[Case] = &[
    (
        HOUSEHOLDS,
        "p_a,p_b,m\n1,1,3\n1.5,1,2.5\n",
        "A,2,2,1,a,1,1.000000,2,2.000000,,,\n\
        A,2,2,1,b,1,1.000000,2,2.000000,,,\n\
        A,2,2,2,a,0,0.000000,5/3,1.666667,,,\n\
        A,2,2,2,b,0,0.000000,5/2,2.500000,,,\n\
        B,2,2,1,a,violated,,violated,,,,\n\
        B,2,2,1,b,violated,,violated,,,,\n\
        B,2,2,2,a,violated,,violated,,,,\n\
        B,2,2,2,b,violated,,violated,,,,\n\
        C,,,,,,,,,BadNumber,5,3\n\
        D,1,2,1,a,0,0.000000,3,3.000000,,,\n\
        D,1,2,1,b,0,0.000000,3,3.000000,,,\n\
        D,1,2,2,a,0,0.000000,5/3,1.666667,,,\n\
        D,1,2,2,b,0,0.000000,5/2,2.500000,,,\n\
        ,,,,,,,,,NoId,3,\n",
    ),
    // a fault of the new prices beside the tables of some households, and not of others
    (
        "household,p_a,q_a\nA,3,2\nB,3,2.5\n",
        "m,p_a\n5.5,3\n",
        "A,,,,,,,,,NEW: TooFine,1,1\n\
        B,1,1,1,a,11/6,1.833333,11/6,1.833334,,,\n",
    ),
    // one that is the same for all
    (
        "household,p_a,q_a\nA,3,2\nB,3,2.5\n",
        "p_a\n3\n",
        "A,,,,,,,,,NEW: Unpaired,,0\nB,,,,,,,,,NEW: Unpaired,,0\n",
    ),
    (
        "household,p_a,q_a,e\n\"A, B\",3,2,900\n",
        "m,p_a\n5,3\n",
        "\"A, B\",,,,,,,,,OwnLevels,,\n",
    ),
    // each bound is shown or withheld by itself: the tableaus of these programs soon pass 2^63 - 1
    (
        "household,p_a,q_a,p_b,q_b,p_c,q_c\n\
        S,9999999,2,1,2,1,2\nS,1,1,9999991,1,1,1\nS,1,1,1,1,9999973,1\n",
        "p_a,p_b,p_c,m\n1,1,1,10000000\n",
        "S,3,3,1,a,withheld,,10000000,10000000.000000,,,\n\
        S,3,3,1,b,withheld,,withheld,,,,\n\
        S,3,3,1,c,withheld,,withheld,,,,\n",
    ),
];

/// Money has the places of the new prices and those of the quantities.
const WELFARES: &[Case] = &[(
    "household,p_a,q_a,p_b,q_b\n\
    A,1,4,1,4\nA,1,2,1,2\nB,1,1,2,2\nB,2,2,1,1\nD,1,0.5,1,0.5\n",
    "p_a,p_b\n0.1,0.2\n",
    "A,2,2,1,1,4/5,0.800000,6/5,1.200000,,,\n\
    A,2,2,1,2,2/5,0.400000,3/5,0.600000,,,\n\
    B,2,2,1,1,violated,,violated,,,,\n\
    B,2,2,1,2,violated,,violated,,,,\n\
    D,1,2,1,1,1/10,0.100000,3/20,0.150000,,,\n",
)];

/// The rows of bounds of a long file.
pub(crate) fn bounds_of<S: BoundSearch>(
    alloc: Global,
    asked: BoundsAsked,
    file: &str,
    new: &str,
    kept: &[&[u8]],
) -> Result<Vec<u8>, Fail> {
    let records = read_long_records(alloc, file.as_bytes())?;
    let panel = read_panel(alloc, &records, b"household", kept)?;
    Ok(write_bounds::<S>(alloc, asked, new.as_bytes(), kept, &panel)?)
}

/// A long file and new prices have these rows.
fn check_bounds(
    rt: &impl Abort,
    alloc: Global,
    asked: BoundsAsked,
    header: &str,
    case: &Case,
) -> Result<(), Fail> {
    let (file, new, lines) = *case;
    let found = bounds_of::<AsStated>(alloc, asked, file, new, &[])?;
    let wanted = format!(in alloc; "{header}{lines}")?;
    assert!(rt; found.as_slice() == wanted.as_bytes(), "{file}{new}");
    Ok(())
}

/// Each long file has its rows.
fn check_cases(
    rt: &impl Abort,
    alloc: Global,
    asked: BoundsAsked,
    header: &str,
    cases: &[Case],
) -> Result<(), Fail> {
    for case in cases {
        check_bounds(rt, alloc, asked, header, case)?;
    }
    Ok(())
}

#[test]
fn bounds_on_demand(rt: HostRuntime) -> Result<(), Fail> {
    check_cases(&rt, rt.alloc(), BoundsAsked::Demand, DEMAND_HEADER, DEMANDS)
}

#[test]
fn bounds_on_the_money_metric(rt: HostRuntime) -> Result<(), Fail> {
    check_cases(
        &rt,
        rt.alloc(),
        BoundsAsked::Welfare,
        WELFARE_HEADER,
        WELFARES,
    )
}

/// What is kept is that of a household's first record, in each of its lines.
#[test]
fn kept_columns(rt: HostRuntime) -> Result<(), Fail> {
    let alloc = rt.alloc();
    let file = "household,p_a,q_a,where\nA,3,2,\"north, east\"\n,3,2,west\n";
    let found = bounds_of::<AsStated>(
        alloc,
        BoundsAsked::Demand,
        file,
        "m,p_a\n5,3\n1,3\n",
        &[b"where"],
    )?;
    let wanted = "household,observations,goods,price,good,lower,lower_floor,upper,upper_ceiling,\
        fault,record,column,where\n\
        A,1,1,1,a,5/3,1.666666,5/3,1.666667,,,,\"north, east\"\n\
        A,1,1,2,a,1/3,0.333333,1/3,0.333334,,,,\"north, east\"\n\
        ,,,,,,,,,NoId,2,,\n";
    assert!(&rt; found.as_slice() == wanted.as_bytes());
    Ok(())
}
