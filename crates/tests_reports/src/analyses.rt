//! Reports of `analyse`.
use std::alloc::Global;
use std::test::Fail;
use tests_inputs::tables::{ALONE, APART, CONTRADICTION, EQUAL, MORE_AND_LESS, NINE_TENTHS, THREE};
use tests_support::{joined, prints, repeated};

/// The words of an analysis.
const ANALYSE: &[&str] = &["rp", "analyse", "t.csv"];

/// The analysis of each table prints its text.
fn each_is_reported(alloc: Global, cases: &[(&str, &str)]) -> Result<(), Fail> {
    for (table, out) in cases {
        prints(alloc, ANALYSE, &[("t.csv", table)], out)?;
    }
    Ok(())
}

const WORKED: &[(&str, &str)] = &[
    (
        CONTRADICTION,
        "observations 2 goods 2 places 0 0\ngarp violated\ncycle 1 2 1\nafriat none\ncycle 1 2 1\nefficiency 4/5 attained yes\nbelow 1 1\nabove 1 2 1\nat ranks 2 2\nhomothetic violated\nstart 1\ncycle 1 2 1\nquasilinear violated\ncycle 1 2 1\n",
    ),
    (
        APART,
        "observations 2 goods 2 places 0 0\ngarp holds\nranks 1 1\nafriat model\nutility 0 0\nlambda 1 1\nefficiency 1 attained yes\nbelow 1 1\nat ranks 1 1\nhomothetic holds\nvalues 1 1\nquasilinear holds\nvalues 0 0\n",
    ),
    (
        MORE_AND_LESS,
        "observations 2 goods 2 places 0 0\ngarp holds\nranks 2 1\nafriat model\nutility 0 -4\nlambda 1 1\nefficiency 1 attained yes\nbelow 2 1\nat ranks 2 1\nhomothetic holds\nvalues 1 1/2\nquasilinear holds\nvalues 0 -4\n",
    ),
    (
        EQUAL,
        "observations 2 goods 2 places 0 0\ngarp holds\nranks 2 2\nafriat model\nutility 0 0\nlambda 1 1\nefficiency 1 attained yes\nbelow 1 1\nat ranks 2 2\nhomothetic holds\nvalues 1 1\nquasilinear holds\nvalues 0 0\n",
    ),
    (
        NINE_TENTHS,
        "observations 2 goods 2 places 0 0\ngarp violated\ncycle 1 2 1\nafriat none\ncycle 1 2 1\nefficiency 9/10 attained no\nbelow 2 1\nabove 1 2 1\nat cycle 2 1 2\nhomothetic violated\nstart 1\ncycle 1 2 1\nquasilinear violated\ncycle 1 2 1\n",
    ),
    (
        THREE,
        "observations 3 goods 3 places 0 0\ngarp violated\ncycle 1 2 3 1\nafriat none\ncycle 1 2 3 1\nefficiency 1/2 attained yes\nbelow 1 1 1\nabove 1 2 3 1\nat ranks 3 3 3\nhomothetic violated\nstart 1\ncycle 1 2 1\nquasilinear violated\ncycle 1 2 3 1\n",
    ),
    (
        ALONE,
        "observations 1 goods 1 places 0 0\ngarp holds\nranks 1\nafriat model\nutility 0\nlambda 1\nefficiency 1 attained yes\nbelow 1\nat ranks 1\nhomothetic holds\nvalues 1\nquasilinear holds\nvalues 0\n",
    ),
    (
        "p_a,q_a,p_b,q_b\n2,3,1,2\n1,0,2,3\n2,1,1,0\n",
        "observations 3 goods 2 places 0 0\ngarp holds\nranks 3 2 1\nafriat model\nutility 0 -5 -30\nlambda 1 5 25\nefficiency 1 attained yes\nbelow 3 2 1\nat ranks 3 2 1\nhomothetic violated\nstart 1\ncycle 1 2 1\nquasilinear violated\ncycle 1 2 1\n",
    ),
    // no closed walk of two steps ends below its start: the walk 4 2 3 1 2 does, and the walk 5 1 2 4 1 2
    (
        "p_a,q_a,p_b,q_b,p_c,q_c\n2,1,2,3,3,0\n3,1,1,0,1,3\n3,0,1,3,2,2\n2,3,2,1,2,3\n",
        "observations 4 goods 3 places 0 0\ngarp holds\nranks 1 3 2 4\nafriat model\nutility -8 -6 -7 0\nlambda 1 1 1 1\nefficiency 1 attained yes\nbelow 1 3 2 4\nat ranks 1 3 2 4\nhomothetic violated\nstart 4/7\ncycle 2 3 1 2\nquasilinear holds\nvalues -8 -6 -7 0\n",
    ),
    (
        "p_a,q_a,p_b,q_b,p_c,q_c\n1,4,1,3,3,2\n2,3,1,4,4,0\n4,1,2,1,3,1\n4,0,2,2,4,0\n2,4,4,3,3,4\n",
        "observations 5 goods 3 places 0 0\ngarp holds\nranks 4 3 2 1 5\nafriat model\nutility -6 -12 -23 -28 0\nlambda 1 1 1 1 1\nefficiency 1 attained yes\nbelow 4 3 2 1 5\nat ranks 4 3 2 1 5\nhomothetic violated\nstart 13/16\ncycle 1 2 4 1\nquasilinear holds\nvalues -6 -12 -23 -28 0\n",
    ),
];

#[test]
fn analyse_reports_the_verdicts_on_worked_tables(rt: HostRuntime) -> Result<(), Fail> {
    each_is_reported(rt.alloc(), WORKED)
}

const WIDE: &[(&str, &str)] = &[
    (
        "p_a,q_a,p_b,q_b\n1048576,1048577,1,1048576\n1,0,1048576,1048577\n1048576,1,1,0\n",
        "observations 3 goods 2 places 0 0\ngarp holds\nranks 3 2 1\nafriat withheld at 3\nefficiency 1 attained yes\nbelow 3 2 1\nat ranks 3 2 1\nhomothetic violated\nstart 1\ncycle 1 2 1\nquasilinear violated\ncycle 1 2 1\n",
    ),
    (
        "p_a,q_a,p_b,q_b\n32767,32768,1,32767\n1,0,32767,32768\n32767,1,1,0\n",
        "observations 3 goods 2 places 0 0\ngarp holds\nranks 3 2 1\nafriat model\nutility 0 -1073709055 -1152851135862702080\nlambda 1 1073709055 1152851134788993025\nefficiency 1 attained yes\nbelow 3 2 1\nat ranks 3 2 1\nhomothetic violated\nstart 1\ncycle 1 2 1\nquasilinear violated\ncycle 1 2 1\n",
    ),
    (
        "p_a,q_a,p_b,q_b\n32768,32769,1,32768\n1,0,32768,32769\n32768,1,1,0\n",
        "observations 3 goods 2 places 0 0\ngarp holds\nranks 3 2 1\nafriat withheld at 3\nefficiency 1 attained yes\nbelow 3 2 1\nat ranks 3 2 1\nhomothetic violated\nstart 1\ncycle 1 2 1\nquasilinear violated\ncycle 1 2 1\n",
    ),
    (
        "p_a,q_a,p_b,q_b\n4194304,2097151,1,4194304\n1,1747627,3145727,2796203\n1,4194304,4194304,2097151\n",
        "observations 3 goods 2 places 0 0\ngarp holds\nranks 3 2 1\nafriat model\nutility 0 -1466011309397 -3665035613524\nlambda 1 1 1\nefficiency 1 attained yes\nbelow 3 2 1\nat ranks 3 2 1\nhomothetic withheld steps 2 from 3 to 1\nquasilinear holds\nvalues 0 -1466011309397 -3665035613524\n",
    ),
    (
        "p_a,q_a,p_b,q_b,p_c,q_c\n81265,44542,3591,94595,81629,59312\n95990,34016,10759,69607,54061,93616\n3408,62757,96001,14179,40182,17583\n13978,72477,34584,37214,74213,37714\n34585,70604,3772,60680,33424,39990\n",
        "observations 5 goods 3 places 0 0\ngarp holds\nranks 2 3 1 2 4\nafriat model\nutility -127608362 560672088 -2554098865 -127608362 0\nlambda 1 1 1 1 1\nefficiency 1 attained yes\nbelow 2 3 1 2 4\nat ranks 2 3 1 2 4\nhomothetic withheld steps 3 from 3 to 1\nquasilinear holds\nvalues -575271912 0 -2790100334 -274212450 -156367785\n",
    ),
    (
        "\u{feff}p_a,q_a,p_b,q_b\r\n1.25,2,2.5,1\r\n2.50, 1 ,1.25,2\r\n",
        "observations 2 goods 2 places 2 0\ngarp holds\nranks 1 1\nafriat model\nutility 0 0\nlambda 1 1\nefficiency 1 attained yes\nbelow 1 1\nat ranks 1 1\nhomothetic holds\nvalues 1 1\nquasilinear holds\nvalues 0 0\n",
    ),
];

#[test]
fn analyse_at_the_width_and_with_decimals(rt: HostRuntime) -> Result<(), Fail> {
    each_is_reported(rt.alloc(), WIDE)
}

/// 25 rounds that alternate between two budgets.
fn rounds(alloc: Global) -> Result<String, Fail> {
    let mut file = String::from_str(alloc, "obs,p_a,p_b,q_a,q_b\n")?;
    for round in 1..26u32 {
        let amounts = if round % 2 == 1 {
            "1.25,2.50,20.2,10.1"
        } else {
            "2.50,1.25,10.1,20.2"
        };
        file.push_str(format!(in alloc; "{round},{amounts}\n")?.as_str())?;
    }
    Ok(file)
}

/// So many entries of a list that alternates.
fn list(alloc: Global, odd: &str, even: &str) -> Result<String, Fail> {
    let mut text = String::new(alloc);
    for round in 1..26u32 {
        text.push_str(if round % 2 == 1 { odd } else { even })?;
    }
    Ok(text)
}

/// The report of the rounds.
fn report_of_rounds(alloc: Global) -> Result<String, Fail> {
    let (ranks, utility) = (list(alloc, " 13", " 12")?, list(alloc, " 0", " 12625")?);
    let (ones, zeros) = (repeated(alloc, " 1", 25)?, repeated(alloc, " 0", 25)?);
    joined(
        alloc,
        &[
            "observations 25 goods 2 places 2 1\ngarp holds\nranks",
            ranks.as_str(),
            "\nafriat model\nutility",
            utility.as_str(),
            "\nlambda",
            ones.as_str(),
            "\nefficiency 1 attained yes\nbelow",
            ones.as_str(),
            "\nat ranks",
            ranks.as_str(),
            "\nhomothetic holds\nvalues",
            ones.as_str(),
            "\nquasilinear holds\nvalues",
            zeros.as_str(),
            "\n",
        ],
    )
}

#[test]
fn analyse_of_rounds_with_decimals(rt: HostRuntime) -> Result<(), Fail> {
    let (table, wanted) = (rounds(rt.alloc())?, report_of_rounds(rt.alloc())?);
    let files = &[("t.csv", table.as_str())];
    prints(rt.alloc(), ANALYSE, files, wanted.as_str())
}
