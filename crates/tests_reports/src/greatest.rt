//! Reports on tables of the greatest numbers.
use crate::long_tables::all_numbers;
use rp_commands::Status;
use std::alloc::Global;
use std::process::Abort;
use std::test::Fail;
use tests_support::{joined, prints, repeated, run_over};

/// The header of sixteen goods, each with these columns, and then further ones.
fn header(alloc: Global, columns: &[&str], further: &str) -> Result<String, Fail> {
    let mut text = String::new(alloc);
    for good in 1..17u32 {
        for column in columns {
            let before = if text.is_empty() { "" } else { "," };
            text.push_str(format!(in alloc; "{before}{column}{good}")?.as_str())?;
        }
    }
    text.push_str(further)?;
    Ok(text)
}

/// The most observations of the most goods: the price of each is 1, and one of each is bought.
fn greatest(alloc: Global) -> Result<String, Fail> {
    let names = header(alloc, &["p_g", "q_g"], "")?;
    let rest = repeated(alloc, ",1,1", 15)?;
    let record = joined(alloc, &["1,1", rest.as_str(), "\n"])?;
    let records = repeated(alloc, record.as_str(), 512)?;
    joined(alloc, &[names.as_str(), "\n", records.as_str()])
}

/// What the words print over a table and another file, or tell where they are not done.
fn printed_over(alloc: Global, words: &[&str], table: &str, new: &str) -> Result<String, Fail> {
    let got = run_over(alloc, words, &[("t.csv", table), ("n.csv", new)])?;
    if got.status == Status::Done {
        Ok(got.out)
    } else {
        Ok(got.err)
    }
}

/// What the words print over the greatest table and another file.
fn printed(alloc: Global, words: &[&str], new: &str) -> Result<String, Fail> {
    let table = greatest(alloc)?;
    printed_over(alloc, words, table.as_str(), new)
}

/// The verdict on the axiom after the head: no observation is preferred to another, so each reaches all.
fn verdict(alloc: Global, goods: &str) -> Result<String, Fail> {
    let ranks = repeated(alloc, " 512", 512)?;
    let pieces = &[
        "observations 512 goods ",
        goods,
        " places 0 0\ngarp holds\nranks",
        ranks.as_str(),
        "\n",
    ];
    joined(alloc, pieces)
}

#[test]
fn pairs_of_the_greatest_table(rt: HostRuntime) -> Result<(), Fail> {
    let got = printed(rt.alloc(), &["rp", "pairs", "t.csv"], "")?;
    assert!(rt; got.as_str() == "pair none\n");
    Ok(())
}

/// All verdicts on the greatest table.
fn all_verdicts(alloc: Global) -> Result<String, Fail> {
    let first = verdict(alloc, "16")?;
    let (zeros, ones) = (repeated(alloc, " 0", 512)?, repeated(alloc, " 1", 512)?);
    let ranks = repeated(alloc, " 512", 512)?;
    joined(
        alloc,
        &[
            first.as_str(),
            "afriat model\nutility",
            zeros.as_str(),
            "\nlambda",
            ones.as_str(),
            "\nefficiency 1 attained yes\nbelow",
            ones.as_str(),
            "\nat ranks",
            ranks.as_str(),
            "\nhomothetic holds\nvalues",
            ones.as_str(),
            "\nquasilinear holds\nvalues",
            zeros.as_str(),
            "\n",
        ],
    )
}

#[test]
fn analyse_of_the_greatest_table(rt: HostRuntime) -> Result<(), Fail> {
    let got = printed(rt.alloc(), &["rp", "analyse", "t.csv"], "")?;
    let wanted = all_verdicts(rt.alloc())?;
    assert!(rt; got.as_str() == wanted.as_str());
    Ok(())
}

/// The certificate that the words print over the greatest table and another file is accepted with that line.
fn is_accepted(
    rt: &impl Abort,
    alloc: Global,
    words: &[&str],
    new: &str,
    line: &str,
) -> Result<(), Fail> {
    let certificate = printed(alloc, words, new)?;
    let got = printed(
        alloc,
        &["rp", "check", "t.csv", "n.csv"],
        certificate.as_str(),
    )?;
    assert!(rt; got.as_str() == line, "{got}");
    Ok(())
}

#[test]
fn certificate_of_the_greatest_table(rt: HostRuntime) -> Result<(), Fail> {
    let line = "accepted items 5 withheld 0\n";
    is_accepted(&rt, rt.alloc(), &["rp", "certify", "t.csv"], "", line)
}

/// The bounds of one good of sixteen where 16 is spent at prices of 1: from none of it to all. In the least of the
/// other goods' rows the first column enters, so that all is spent on that good.
fn bounds_of(alloc: Global, good: usize) -> Result<String, Fail> {
    let last = repeated(alloc, " 0", if good < 16 { 15 } else { 14 })?;
    let rest = repeated(alloc, " 0", if good < 16 { 0 } else { 1 })?;
    let before = repeated(alloc, " 0", good.saturating_sub(1))?;
    let after = repeated(alloc, " 0", 16usize.saturating_sub(good))?;
    let name = format!(in alloc; "good {good}")?;
    joined(
        alloc,
        &[
            name.as_str(),
            " lower 0 upper 16\nlower x",
            last.as_str(),
            " 16",
            rest.as_str(),
            " y none over 1\nupper x",
            before.as_str(),
            " 16",
            after.as_str(),
            " y none over 1\n",
        ],
    )
}

/// The bounds of all goods.
fn all_bounds(alloc: Global) -> Result<String, Fail> {
    let mut text = String::new(alloc);
    for good in 1..17usize {
        text.push_str(bounds_of(alloc, good)?.as_str())?;
    }
    Ok(text)
}

/// The report of demand where 16 is spent at prices of 1: each observation is below, and the first one's bundle is
/// demanded.
fn report_of_demand(alloc: Global) -> Result<String, Fail> {
    let (first, bounds) = (verdict(alloc, "16")?, all_bounds(alloc)?);
    let (below, ones) = (all_numbers(alloc)?, repeated(alloc, " 1", 16)?);
    joined(
        alloc,
        &[
            first.as_str(),
            "demand prices",
            ones.as_str(),
            " expenditure 16\nbelow",
            below.as_str(),
            "\nstrict none\ninner",
            ones.as_str(),
            " over 1\n",
            bounds.as_str(),
        ],
    )
}

/// The new prices of 1, at which 16 is spent.
fn new_prices(alloc: Global) -> Result<String, Fail> {
    let (names, prices) = (header(alloc, &["p_g"], ",m")?, repeated(alloc, "1,", 16)?);
    joined(alloc, &[names.as_str(), "\n", prices.as_str(), "16\n"])
}

#[test]
fn demand_on_the_greatest_table(rt: HostRuntime) -> Result<(), Fail> {
    let (new, wanted) = (new_prices(rt.alloc())?, report_of_demand(rt.alloc())?);
    let got = printed(
        rt.alloc(),
        &["rp", "demand", "t.csv", "n.csv"],
        new.as_str(),
    )?;
    assert!(rt; got.as_str() == wanted.as_str());
    Ok(())
}

#[test]
fn certificate_of_demand_on_the_greatest_table(rt: HostRuntime) -> Result<(), Fail> {
    let new = new_prices(rt.alloc())?;
    let words = &["rp", "demand", "t.csv", "n.csv", "--json"];
    is_accepted(
        &rt,
        rt.alloc(),
        words,
        new.as_str(),
        "accepted items 2 withheld 0\n",
    )
}

/// The report of welfare at prices of 1: each bundle costs 4, and no bundle that is as good costs less.
fn report_of_welfare(alloc: Global) -> Result<String, Fail> {
    let mut text = verdict(alloc, "4")?;
    for t in 1..513u32 {
        text.push_str(format!(in alloc;
            "welfare prices 1 1 1 1 observation {t} lower 4 upper 4 at 1\nlower x 0 0 0 4 y 1:1 over 1\n"
        )?.as_str())?;
    }
    Ok(text)
}

/// Of four goods, so that what is printed of all observations stays within what a test takes.
#[test]
fn welfare_on_the_most_observations(rt: HostRuntime) -> Result<(), Fail> {
    let alloc = rt.alloc();
    let (records, wanted) = (
        repeated(alloc, "1,1,1,1,1,1,1,1\n", 512)?,
        report_of_welfare(alloc)?,
    );
    let table = joined(
        alloc,
        &["p_a,q_a,p_b,q_b,p_c,q_c,p_d,q_d\n", records.as_str()],
    )?;
    let files = &[
        ("t.csv", table.as_str()),
        ("n.csv", "p_a,p_b,p_c,p_d\n1,1,1,1\n"),
    ];
    prints(
        alloc,
        &["rp", "welfare", "t.csv", "n.csv"],
        files,
        wanted.as_str(),
    )
}

/// Two bundles, of one and of two of each good.
fn two_bundles(alloc: Global) -> Result<String, Fail> {
    let names = header(alloc, &["q_g"], "")?;
    let (ones, twos) = (repeated(alloc, ",1", 15)?, repeated(alloc, ",2", 15)?);
    joined(
        alloc,
        &[
            names.as_str(),
            "\n1",
            ones.as_str(),
            "\n2",
            twos.as_str(),
            "\n",
        ],
    )
}

#[test]
fn utility_on_the_greatest_table(rt: HostRuntime) -> Result<(), Fail> {
    let (bundles, first) = (two_bundles(rt.alloc())?, verdict(rt.alloc(), "16")?);
    let got = printed(
        rt.alloc(),
        &["rp", "utility", "t.csv", "n.csv"],
        bundles.as_str(),
    )?;
    assert!(rt; got.starts_with(first.as_str()));
    assert!(rt; got.ends_with("at 1 value 0\nat 2 value 16\n"));
    Ok(())
}
