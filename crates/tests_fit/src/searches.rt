//! What searches find.
use crate::verdicts::report_on;
use rp_clauses::input::Input;
use rp_fit::{FitItem, Lack};
use rp_fit_search::{Looks, search_kept, search_levels, search_steps};
use rp_num::NoMemory;
use rp_table::Costs;
use rp_text::read_table;
use std::alloc::Global;
use std::process::Abort;
use std::test::Fail;
use tests_inputs::tables::{ALONE, CONTRADICTION, EQUAL, MORE_AND_LESS, THREE};

/// What is looked for.
#[derive(Clone, Copy)]
pub(crate) enum Search {
    Kept,
    Levels(Lack),
    Steps,
}

/// All searches.
pub(crate) const ALL: [Search; 4] = [
    Search::Kept,
    Search::Levels(Lack::Mean),
    Search::Levels(Lack::Squares),
    Search::Steps,
];

/// What a search finds.
fn found(
    alloc: Global,
    input: &Input<'_>,
    search: Search,
    looks: &mut Looks,
) -> Result<FitItem, NoMemory> {
    match search {
        Search::Kept => Ok(FitItem::Kept(search_kept(alloc, input, looks)?)),
        Search::Levels(lack) => Ok(FitItem::Levels(search_levels(alloc, input, lack, looks)?)),
        Search::Steps => Ok(FitItem::Steps(search_steps(alloc, input, looks)?)),
    }
}

/// The report of what a search finds within so many looks. It is an error if the search looks more often, or if the
/// checker rejects what is found.
pub(crate) fn reported(
    alloc: Global,
    text: &str,
    search: Search,
    limit: u64,
) -> Result<String, Fail> {
    let table = read_table(alloc, text.as_bytes())?;
    let costs = Costs::of(alloc, &table)?;
    let input = Input::new(&table, &costs);
    let mut looks = Looks::at_most(limit);
    let mut items = Vec::new(alloc);
    items.push(found(alloc, &input, search, &mut looks)?)?;
    if looks.made > limit || looks.limit != limit {
        return Err(Fail::new("looks past the limit"));
    }
    report_on(alloc, &input, items.as_slice())
}

/// Asserts that a report begins with these lines.
pub(crate) fn assert_begins(
    rt: &impl Abort,
    alloc: Global,
    report: &str,
    head: &str,
    line: &str,
) -> Result<(), Fail> {
    let mut wanted = String::from_str(alloc, head)?;
    wanted.push_str(line)?;
    wanted.push('\n')?;
    assert!(rt; report.starts_with(wanted.as_str()), "{wanted}: {report}");
    Ok(())
}

/// More looks than any search of these tables takes.
const AMPLE: u64 = 1_000_000;

/// A table, the first line of its report, and the line on each index, in the order of `ALL`.
type Indices = (&'static str, &'static str, [&'static str; 4]);

/// Asserts that the searches find the indices of these tables.
fn assert_found(rt: &impl Abort, alloc: Global, cases: &[Indices]) -> Result<(), Fail> {
    for k in 0..cases.len() {
        let (table, head, lines) = cases[k];
        for i in 0..4 {
            let report = reported(alloc, table, ALL[i], AMPLE)?;
            assert_begins(rt, alloc, report.as_str(), head, lines[i])?;
        }
    }
    Ok(())
}

const TWO: &str = "observations 2 goods 2 places 0 0\n";

/// The lines of two observations on which nothing is to be dropped.
const NONE: [&str; 4] = [
    "kept 2 of 2",
    "levels mean 0 to 0 exact",
    "levels squares 0 to 0 exact",
    "steps 0 to 0 exact",
];

/// Two observations that contradict each other, three that do only together, and two that do not. Then ties: a strict
/// step with an equality back, which costs nothing to take away, equal costs, and one bundle twice. Then one
/// observation.
const SMALL: &[Indices] = &[
    (
        CONTRADICTION,
        TWO,
        [
            "kept 1 of 2",
            "levels mean 219902325555/2199023255552 to 1/10 exact",
            "levels squares 43980465111/2199023255552 to 1/50 exact",
            "steps 1/10 to 1/10 exact",
        ],
    ),
    (
        THREE,
        "observations 3 goods 3 places 0 0\n",
        [
            "kept 2 of 3",
            "levels mean 1/6 to 1/6 exact",
            "levels squares 1/12 to 1/12 exact",
            "steps 1/6 to 1/6 exact",
        ],
    ),
    (MORE_AND_LESS, TWO, NONE),
    (
        "p_a,q_a,p_b,q_b\n1,1,1,1\n2,2,1,0\n",
        TWO,
        [
            "kept 1 of 2",
            "levels mean 0 to 0 exact",
            "levels squares 0 to 0 exact",
            "steps 0 to 0 exact",
        ],
    ),
    (EQUAL, TWO, NONE),
    ("p_a,q_a,p_b,q_b\n1,1,2,2\n2,1,1,2\n", TWO, NONE),
    (
        ALONE,
        "observations 1 goods 1 places 0 0\n",
        [
            "kept 1 of 1",
            "levels mean 0 to 0 exact",
            "levels squares 0 to 0 exact",
            "steps 0 to 0 exact",
        ],
    ),
];

#[test]
fn small_tables(rt: HostRuntime) -> Result<(), Fail> {
    assert_found(&rt, rt.alloc(), SMALL)
}

/// Each observation buys one unit of a good of its own, for 2. Where two contradict each other, each would have paid
/// 1 for the other's good. The first contradicts three others, and each of these contradicts one more. A removal of
/// the one that most contradict takes the first, then three more, and keeps three. Without the three neighbours of
/// the first, four are kept. Each of the six contradictions needs one step away.
const SPIDER: &str = "p_a,q_a,p_b,q_b,p_c,q_c,p_d,q_d,p_e,q_e,p_f,q_f,p_g,q_g\n\
    2,1,1,0,1,0,1,0,3,0,3,0,3,0\n1,0,2,1,3,0,3,0,1,0,3,0,3,0\n1,0,3,0,2,1,3,0,3,0,1,0,3,0\n\
    1,0,3,0,3,0,2,1,3,0,3,0,1,0\n3,0,1,0,3,0,3,0,2,1,3,0,3,0\n3,0,3,0,1,0,3,0,3,0,2,1,3,0\n\
    3,0,3,0,3,0,1,0,3,0,3,0,2,1\n";

/// Eight observations in a ring. Each contradicts its two neighbours and the one across. No three contradict each
/// other two by two. A half of each observation therefore meets every group, so no groups allow fewer than 4. But of
/// each four, two contradict each other, so three are kept. One of each two that contradict each other needs the
/// level 1/2. These are five of eight at least, and walks cannot show more than four. Each of the twelve
/// contradictions needs one step away.
const RING: &str = "p_a,q_a,p_b,q_b,p_c,q_c,p_d,q_d,p_e,q_e,p_f,q_f,p_g,q_g,p_h,q_h\n\
    2,1,1,0,3,0,3,0,1,0,3,0,3,0,1,0\n1,0,2,1,1,0,3,0,3,0,1,0,3,0,3,0\n3,0,1,0,2,1,1,0,3,0,3,0,1,0,3,0\n\
    3,0,3,0,1,0,2,1,1,0,3,0,3,0,1,0\n1,0,3,0,3,0,1,0,2,1,1,0,3,0,3,0\n3,0,1,0,3,0,3,0,1,0,2,1,1,0,3,0\n\
    3,0,3,0,1,0,3,0,3,0,1,0,2,1,1,0\n1,0,3,0,3,0,1,0,3,0,3,0,1,0,2,1\n";

/// Costs 4, 2, 1; 1, 4, 8; 1, 8, 4: the first observation contradicts both others, by steps that cost 2 and 3.
const FORK: &str = "p_a,q_a,p_b,q_b,p_c,q_c\n4,1,2,0,1,0\n1,0,4,1,8,0\n1,0,8,0,4,1\n";

/// Three pairs of observations that contradict each other, by steps that cost 4096 of 4194301, of 4194303 and of
/// 4194302. The three numbers have no common divisor, so the mean has their product as its denominator. The squares of
/// all three pass 128 bits together. Each square is rounded up to units of 2^-40, from 1048577, 1048576 and 1048577.
const COPRIME: &str = "p_a,q_a,p_b,q_b,p_c,q_c,p_d,q_d,p_e,q_e,p_f,q_f\n\
    4194301,1,4190205,0,5000000,0,5000000,0,5000000,0,5000000,0\n\
    4190205,0,4194301,1,5000000,0,5000000,0,5000000,0,5000000,0\n\
    5000000,0,5000000,0,4194303,1,4190207,0,5000000,0,5000000,0\n\
    5000000,0,5000000,0,4190207,0,4194303,1,5000000,0,5000000,0\n\
    5000000,0,5000000,0,5000000,0,5000000,0,4194302,1,4190206,0\n\
    5000000,0,5000000,0,5000000,0,5000000,0,4190206,0,4194302,1\n";

/// A table where greedy removal keeps too few, one where the bounds do not meet, one where two walks load one level,
/// and one where the mean of the squares is too wide for a fraction.
const HARDER: &[Indices] = &[
    (
        SPIDER,
        "observations 7 goods 7 places 0 0\n",
        [
            "kept 4 of 7",
            "levels mean 3/14 to 3/14 exact",
            "levels squares 3/28 to 3/28 exact",
            "steps 3/7 to 3/7 exact",
        ],
    ),
    (
        RING,
        "observations 8 goods 8 places 0 0\n",
        [
            "kept 3 to 4 of 8",
            "levels mean 1/4 to 5/16",
            "levels squares 1/8 to 5/32",
            "steps 3/4 to 3/4 exact",
        ],
    ),
    (
        FORK,
        "observations 3 goods 3 places 0 0\n",
        [
            "kept 2 of 3",
            "levels mean 1/4 to 1/4 exact",
            "levels squares 3/16 to 3/16 exact",
            "steps 5/12 to 5/12 exact",
        ],
    ),
    (
        COPRIME,
        "observations 6 goods 6 places 0 0\n",
        [
            "kept 3 of 6",
            "levels mean 2097153/4294967296 to 54043143988849664/110680306112652115959 exact",
            "levels squares 1572865/3298534883328 to 3145733/6597069766656 exact",
            "steps 1024/2097151 to 1024/2097151 exact",
        ],
    ),
];

#[test]
fn greedy_removal_and_open_bounds(rt: HostRuntime) -> Result<(), Fail> {
    assert_found(&rt, rt.alloc(), HARDER)
}
