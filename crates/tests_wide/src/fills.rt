//! Tests of certificates that are filled: what comes of withheld verdicts and bounds, and what stays as it is.
use crate::rounded::{EXPERIMENT, ROUND_COSTS, STEEP};
use rp_check::{Verdict, check};
use rp_evidence::Kind;
use rp_filled::fill_certificate;
use rp_json::read;
use rp_report::report;
use rp_table::Costs;
use rp_text::read_table;
use std::alloc::Global;
use std::process::Abort;
use std::test::Fail;

/// The report of a certificate on the table in a file with what is found for what it withholds; none where the checker
/// does not accept it.
fn filled(alloc: Global, file: &str, certificate: &str) -> Result<Vec<u8>, Fail> {
    let table = read_table(alloc, file.as_bytes())?;
    let costs = Costs::of(alloc, &table)?;
    let stated = read(alloc, certificate.as_bytes(), Kind::Table)?;
    match check(&table, &costs, &stated) {
        Verdict::Accepted => {
            let filled = fill_certificate(alloc, &table, stated)?;
            let text = report(alloc, &filled, &table)?;
            Ok(text)
        }
        Verdict::Rejected { .. } => Ok(Vec::new(alloc)),
    }
}

const WITHHELD_FROM_THIRD: &str =
    "{\"items\":[{\"item\":\"homothetic\",\"withheld\":[2,3,1]}],\"kind\":\"table\",\"version\":1}";

#[test]
fn a_withheld_verdict_is_filled(rt: HostRuntime) -> Result<(), Fail> {
    let alloc = rt.alloc();
    let few = filled(alloc, ROUND_COSTS, WITHHELD_FROM_THIRD)?;
    assert!(rt;
        few.as_slice()
            == "observations 3 goods 2 places 0 0\nhomothetic holds\n\
        values 1 7330081712811/8796093022208 21990241643181/35184372088832\n"
                .as_bytes()
    );
    let many = filled(alloc, EXPERIMENT, WITHHELD_FROM_THIRD)?;
    assert!(rt;
        many.as_slice()
            .starts_with("observations 25 goods 2 places 0 0\nhomothetic holds\n\
        values 33539172242213745/191984472168880369 397675552559674459/1152921504606846976 "
                .as_bytes())
    );
    Ok(())
}

#[test]
fn what_is_not_found_stays_withheld(rt: HostRuntime) -> Result<(), Fail> {
    let certificate =
        "{\"items\":[{\"item\":\"homothetic\",\"withheld\":[1,1,2]}],\"kind\":\"table\",\"version\":1}";
    let text = filled(rt.alloc(), STEEP, certificate)?;
    assert!(rt;
        text.as_slice()
            == "observations 2 goods 2 places 0 0\n\
        homothetic withheld steps 1 from 1 to 2\n"
                .as_bytes()
    );
    Ok(())
}

/// Four goods with four digits. `rp` withholds the greatest of the last good on the budget below.
const FOUR_GOODS: &str = "p_a,q_a,p_b,q_b,p_c,q_c,p_d,q_d\n\
                          4689,3378,4069,4595,3133,5224,2160,6719\n\
                          4504,1777,5827,1985,1491,3884,8071,1809\n\
                          1236,9098,5519,5520,3403,7002,2391,8920\n\
                          5299,4980,8390,5036,8155,5105,3285,8556\n";

/// Its certificate at the prices 5205, 6828, 4834 and 8975 with 200945084.
const FOUR_BOUNDS: &str =
    "{\"items\":[{\"item\":\"garp\",\"ranks\":[2,1,4,3]},{\"below\":[1,2,3,4],\
    \"expenditure\":\"200945084\",\"goods\":[\
    {\"lower\":{\"withheld\":\"0\"},\
    \"upper\":{\"den\":\"20286987\",\"value\":\"515898052444/20286987\",\
    \"x\":[\"515898052444\",\"203766980646\",\"0\",\"0\"],\"y\":[[3,\"35539740\"],[6,\"8439408\"]]}},\
    {\"lower\":{\"withheld\":\"0\"},\"upper\":{\"withheld\":\"0\"}},\
    {\"lower\":{\"withheld\":\"0\"},\"upper\":{\"withheld\":\"0\"}},\
    {\"lower\":{\"withheld\":\"0\"},\"upper\":{\"withheld\":\"5\"}}],\
    \"inner\":{\"den\":\"5205\",\"num\":[\"49349856\",\"28731600\",\"36445410\",\"46428600\"]},\
    \"item\":\"demand\",\"prices\":[\"5205\",\"6828\",\"4834\",\"8975\"],\"strict\":[1,2,3,4]}],\
    \"kind\":\"table\",\"version\":1}";

#[test]
fn withheld_bounds_of_demand_are_filled(rt: HostRuntime) -> Result<(), Fail> {
    let text = filled(rt.alloc(), FOUR_GOODS, FOUR_BOUNDS)?;
    assert!(rt;
        text.as_slice().ends_with("\
        good 1 lower 0 upper 515898052444/20286987\n\
        lower x 0 0 299158471806 263908129496 y none over 18983831\n\
        upper x 515898052444 203766980646 0 0 y 3:35539740 6:8439408 over 20286987\n\
        good 2 lower 0 upper 50236271/1707\n\
        lower x 0 0 299158471806 263908129496 y none over 18983831\n\
        upper x 0 50236271 0 0 y none over 1707\n\
        good 3 lower 0 upper 100472542/2417\n\
        lower x 0 116369016837 0 148215768500 y none over 10574054\n\
        upper x 0 0 100472542 0 y none over 2417\n\
        good 4 lower 0 upper 101099920177306/6681347645\n\
        lower x 0 0 100472542 0 y none over 2417\n\
        upper x 0 135923176941729 78103659152067 303299760531918 \
        y 3:27149518600 4:6180475790 6:9494970690 over 20044042935\n"
            .as_bytes())
    );
    Ok(())
}

#[test]
fn a_withheld_bound_of_welfare_is_filled(rt: HostRuntime) -> Result<(), Fail> {
    // two of each good cost 4 at the prices 1 and 1; at 1 and 2 four of the first good do, and two of each cost 6
    let certificate =
        "{\"items\":[{\"item\":\"garp\",\"ranks\":[1]},{\"at\":1,\"item\":\"welfare\",\
        \"lower\":{\"withheld\":\"0\"},\"observation\":1,\"prices\":[\"1\",\"2\"],\"upper\":\"6\"}],\
        \"kind\":\"table\",\"version\":1}";
    let text = filled(rt.alloc(), "p_a,q_a,p_b,q_b\n1,2,1,2\n", certificate)?;
    assert!(rt;
        text.as_slice()
            == "observations 1 goods 2 places 0 0\ngarp holds\nranks 1\n\
        welfare prices 1 2 observation 1 lower 4 upper 6 at 1\n\
        lower x 4 0 y 1:1 over 1\n"
                .as_bytes()
    );
    Ok(())
}
