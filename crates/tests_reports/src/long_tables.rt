//! Reports on tables of the most observations.
use rp_commands::Status;
use std::alloc::Global;
use std::test::Fail;
use tests_support::{joined, prints, repeated, run_over};

/// A fraction over 512, halved above and below as long as both are even.
fn lowest(part: u32) -> (u32, u32) {
    let mut above = part;
    let mut below = 512;
    for _ in 0..9 {
        if above % 2 == 0 && below % 2 == 0 {
            above = above / 2;
            below = below / 2;
        }
    }
    (above, below)
}

/// A chain of one good: at each observation less is bought than before.
fn chain(alloc: Global) -> Result<String, Fail> {
    let mut file = String::from_str(alloc, "p_a,q_a\n")?;
    for k in 0..512u32 {
        let left = 512 - k;
        file.push_str(format!(in alloc; "1,{left}\n")?.as_str())?;
    }
    Ok(file)
}

/// The numbers from 512 down to 1.
fn amounts_left(alloc: Global) -> Result<String, Fail> {
    let mut text = String::new(alloc);
    for k in 0..512u32 {
        let left = 512 - k;
        text.push_str(format!(in alloc; " {left}")?.as_str())?;
    }
    Ok(text)
}

/// What each observation but the first has lost.
fn amounts_lost(alloc: Global) -> Result<String, Fail> {
    let mut text = String::new(alloc);
    for k in 1..512u32 {
        text.push_str(format!(in alloc; " -{k}")?.as_str())?;
    }
    Ok(text)
}

/// What each observation but the first has of the first, in lowest terms.
fn shares_left(alloc: Global) -> Result<String, Fail> {
    let mut text = String::new(alloc);
    for k in 1..512u32 {
        let (above, below) = lowest(512 - k);
        text.push_str(format!(in alloc; " {above}/{below}")?.as_str())?;
    }
    Ok(text)
}

/// The report of the chain.
fn report_of_chain(alloc: Global) -> Result<String, Fail> {
    let (left, lost, shares) = (
        amounts_left(alloc)?,
        amounts_lost(alloc)?,
        shares_left(alloc)?,
    );
    let ones = repeated(alloc, " 1", 511)?;
    joined(
        alloc,
        &[
            "observations 512 goods 1 places 0 0\ngarp holds\nranks",
            left.as_str(),
            "\nafriat model\nutility 0",
            lost.as_str(),
            "\nlambda 1",
            ones.as_str(),
            "\nefficiency 1 attained yes\nbelow",
            left.as_str(),
            "\nat ranks",
            left.as_str(),
            "\nhomothetic holds\nvalues 1",
            shares.as_str(),
            "\nquasilinear holds\nvalues 0",
            lost.as_str(),
            "\n",
        ],
    )
}

#[test]
fn analyse_of_the_most_observations(rt: HostRuntime) -> Result<(), Fail> {
    let file = chain(rt.alloc())?;
    let wanted = report_of_chain(rt.alloc())?;
    let files = &[("t.csv", file.as_str())];
    prints(
        rt.alloc(),
        &["rp", "analyse", "t.csv"],
        files,
        wanted.as_str(),
    )
}

/// Bundles on a curve in the plane where three quantities sum to 261,632. At each price the own bundle and the next
/// one are equally cheap and all others dearer, by 512 or more; at the last price the first bundle is cheaper, by 511.
/// So each other closed walk of weak steps has no strict one, and each that leaves a bundle out has a positive sum.
fn ring(alloc: Global) -> Result<String, Fail> {
    let mut file = String::from_str(alloc, "p_a,q_a,p_b,q_b,p_c,q_c\n")?;
    for t in 0..512u32 {
        let (first, second) = if t < 511 {
            (262_144 - 256 * (2 * t + 1), 262_400)
        } else {
            (263_167, 262_142)
        };
        let square = t * t;
        let rest = 261_632 - t - square;
        file.push_str(format!(in alloc;
            "{first},{t},{second},{square},262144,{rest}\n"
        )?.as_str())?;
    }
    Ok(file)
}

/// The numbers from 1 to 512.
pub(crate) fn all_numbers(alloc: Global) -> Result<String, Fail> {
    let mut text = String::new(alloc);
    for number in 1..513u32 {
        text.push_str(format!(in alloc; " {number}")?.as_str())?;
    }
    Ok(text)
}

/// The report of the ring up to the start of the homothetic cycle. Below the index each observation but the last
/// reaches itself alone.
fn head_of_ring(alloc: Global) -> Result<String, Fail> {
    let (all, below) = (all_numbers(alloc)?, repeated(alloc, " 1", 511)?);
    let all = all.as_str();
    joined(
        alloc,
        &[
            "observations 512 goods 3 places 0 0\ngarp violated\ncycle",
            all,
            " 1\nafriat none\ncycle",
            all,
            " 1\nefficiency 1 attained no\nbelow",
            below.as_str(),
            " 2\nat cycle",
            all,
            " 1\nhomothetic violated\nstart ",
        ],
    )
}

/// The end of the report of the ring.
fn tail_of_ring(alloc: Global) -> Result<String, Fail> {
    let all = all_numbers(alloc)?;
    joined(
        alloc,
        &["\nquasilinear violated\ncycle 512", all.as_str(), "\n"],
    )
}

#[test]
fn analyse_finds_the_one_violation_that_runs_through_all(rt: HostRuntime) -> Result<(), Fail> {
    let alloc = rt.alloc();
    let (table, head, tail) = (ring(alloc)?, head_of_ring(alloc)?, tail_of_ring(alloc)?);
    let got = run_over(
        alloc,
        &["rp", "analyse", "t.csv"],
        &[("t.csv", table.as_str())],
    )?;
    assert!(rt; got.status == Status::Done && got.err.is_empty());
    assert!(rt; got.out.starts_with(head.as_str()) && got.out.ends_with(tail.as_str()));
    Ok(())
}
