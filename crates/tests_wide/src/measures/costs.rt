//! Reports of `cost`.
use std::alloc::Global;
use std::test::Fail;
use tests_support::{filled, prints, refuses};

/// Inputs that cost 4 and 6 where they were used, and an output that the second price values more.
const FIRM: &str = "y,p,w_a,w_b,x_a,x_b\n1,5,1,2,2,1\n2,4,2,1,2,2\n";

/// One output from inputs of which the first cost three times the second.
const WASTE: &str = "y,w_a,w_b,x_a,x_b\n1,1,1,3,3\n1,1,1,1,1\n";

/// A technology, what is asked of it, and what `cost` prints.
type Case = (&'static str, &'static str, &'static str);

const CASES: &[Case] = &[
    (
        FIRM,
        "w_a,w_b,y\n1,1,1\n1,1,3\n",
        "technology records 2 inputs 2 places 0 0\ncost holds\nprofit violated\npair 1 2\n\
        bounds prices 1 1 output 1 lower 2 upper 3 at 1\nlower x 0 4 y 1:1 over 2\n\
        bounds prices 1 1 output 3 lower 10/3 upper none\nlower x 8 2 y 1:1 2:1 over 3\n",
    ),
    // an output below all: nothing has to be spent
    (
        FIRM,
        "y,w_b,obs,w_a\n0,2,low,1\n",
        "technology records 2 inputs 2 places 0 0\ncost holds\nprofit violated\npair 1 2\n\
        bounds prices 1 2 output 0 lower 0 upper 4 at 1\nlower x 0 0 y none over 1\n",
    ),
    (
        WASTE,
        "w_a,w_b,y\n1,1,1\n2,1,2\n",
        "technology records 2 inputs 2 places 0 0\ncost violated\npair 1 2\n\
        bounds prices 1 1 output 1 none\nbounds prices 2 1 output 2 none\n",
    ),
];

/// What `cost` prints over these two files.
fn check_cost(alloc: Global, tech: &str, new: &str, out: &str) -> Result<(), Fail> {
    let files = [("t.csv", tech), ("n.csv", new)];
    prints(alloc, &["rp", "cost", "t.csv", "n.csv"], &files, out)
}

/// What it prints over each two files.
fn check_costs(alloc: Global, cases: &[Case]) -> Result<(), Fail> {
    for (tech, new, out) in cases {
        check_cost(alloc, tech, new, out)?;
    }
    Ok(())
}

#[test]
fn cost_reports_the_axioms_and_bounds(rt: HostRuntime) -> Result<(), Fail> {
    check_costs(rt.alloc(), CASES)
}

/// The line that tells why `cost` does not look at these two files.
fn check_refusal(alloc: Global, tech: &str, new: &str, line: &str) -> Result<(), Fail> {
    let files = [("t.csv", tech), ("n.csv", new)];
    refuses(alloc, &["rp", "cost", "t.csv", "n.csv"], &files, line)
}

/// The line on so many line feeds as a technology, and that on them after one.
fn check_filled(alloc: Global, size: usize, first: &str, second: &str) -> Result<(), Fail> {
    let file = filled(alloc, b'\n', size)?;
    check_refusal(alloc, file.as_str(), file.as_str(), first)?;
    check_refusal(alloc, FIRM, file.as_str(), second)
}

/// Line feeds alone are no record; with a byte past the limit the file is not looked at, and a technology of the most
/// bytes is refused before the file that follows it.
#[test]
fn files_of_the_most_bytes_and_of_one_more(rt: HostRuntime) -> Result<(), Fail> {
    let alloc = rt.alloc();
    check_filled(alloc, 4_194_304, "rp: t.csv: Empty\n", "rp: n.csv: Empty\n")?;
    check_filled(
        alloc,
        4_194_305,
        "rp: t.csv: TooLong\n",
        "rp: n.csv: TooLong\n",
    )
}
