//! Certificates with levels.
use rp_commands::Status;
use std::test::Fail;
use tests_inputs::tables::{AT_799, AT_ALL, CONTRADICTION, MORE_AND_LESS_AT_ALL, OF_AT_799};
use tests_support::{CHECK, ends, rejects};

/// The certificate of the table with other levels, or none, is another table's.
const OF_LEVELS: &[(&str, &str, Status, &str)] = &[
    (
        AT_799,
        OF_AT_799,
        Status::Done,
        "accepted items 5 withheld 0\n",
    ),
    (
        CONTRADICTION,
        OF_AT_799,
        Status::Rejected,
        "rejected item 0 Levels place 0\n",
    ),
    (
        "p_a,q_a,p_b,q_b,e\n1,1,2,2,799\n2,2,1,1,999\n",
        OF_AT_799,
        Status::Rejected,
        "rejected item 0 Levels place 2\n",
    ),
    (
        AT_799,
        "{\"items\":[],\"kind\":\"table\",\"version\":1}",
        Status::Rejected,
        "rejected item 0 Levels place 0\n",
    ),
    (
        AT_799,
        "{\"items\":[],\"kind\":\"table\",\"levels\":[799,1000],\"version\":2}",
        Status::Done,
        "accepted items 0 withheld 0\n",
    ),
    (
        AT_799,
        "{\"items\":[],\"kind\":\"table\",\"levels\":[800,999],\"version\":2}",
        Status::Rejected,
        "rejected item 0 Levels place 1\n",
    ),
    (
        AT_799,
        "{\"items\":[],\"kind\":\"table\",\"levels\":[799],\"version\":2}",
        Status::Rejected,
        "rejected item 0 Levels place 0\n",
    ),
    (
        AT_799,
        "{\"items\":[],\"kind\":\"table\",\"levels\":[800,1000,1000],\"version\":2}",
        Status::Rejected,
        "rejected item 0 Levels place 0\n",
    ),
    (
        AT_ALL,
        "{\"items\":[{\"cycle\":[1,2,1],\"item\":\"garp\"}],\"kind\":\"table\",\"version\":1}",
        Status::Rejected,
        "rejected item 0 Levels place 0\n",
    ),
];

#[test]
fn levels_of_a_certificate_are_those_of_the_table(rt: HostRuntime) -> Result<(), Fail> {
    for (table, certificate, status, out) in OF_LEVELS {
        let files = &[("t.csv", *table), ("c.json", *certificate)];
        ends(rt.alloc(), CHECK, files, *status, out, "")?;
    }
    Ok(())
}

/// At 800 and 800 both steps of the cycle are equalities; a model in the scale without levels is none with them. Demand
/// and welfare are not defined there, whatever else is wrong with them.
const FORGED: &[(&str, &str, &str)] = &[
    (
        AT_799,
        "{\"items\":[{\"cycle\":[1,2,1],\"item\":\"garp\"}],\"kind\":\"table\",\"levels\":[799,1000],\"version\":2}",
        "rejected item 1 NotWeak place 1\n",
    ),
    (
        "p_a,q_a,p_b,q_b,e\n1,1,2,2,800\n2,2,1,1,800\n",
        "{\"items\":[{\"cycle\":[1,2,1],\"item\":\"afriat\"}],\"kind\":\"table\",\"levels\":[800,800],\"version\":2}",
        "rejected item 1 NoStrict place 0\n",
    ),
    (
        AT_799,
        "{\"items\":[{\"item\":\"afriat\",\"lambda\":[\"1\",\"1\"],\"utility\":[\"-1\",\"0\"]}],\"kind\":\"table\",\"levels\":[799,1000],\"version\":2}",
        "rejected item 1 Order place 2\n",
    ),
    (
        AT_799,
        "{\"items\":[{\"item\":\"garp\",\"ranks\":[1,1]}],\"kind\":\"table\",\"levels\":[799,1000],\"version\":2}",
        "rejected item 1 Order place 2\n",
    ),
    (
        AT_799,
        "{\"items\":[{\"item\":\"afriat\",\"lambda\":[\"199\",\"1\"],\"utility\":[\"-1000\",\"0\"]}],\"kind\":\"table\",\"levels\":[799,1000],\"version\":2}",
        "rejected item 1 Order place 1\n",
    ),
    (
        MORE_AND_LESS_AT_ALL,
        "{\"items\":[{\"item\":\"afriat\",\"lambda\":[\"1\",\"1\"],\"utility\":[\"0\",\"-4\"]}],\"kind\":\"table\",\"levels\":[1000,1000],\"version\":2}",
        "rejected item 1 Order place 1\n",
    ),
    (
        AT_799,
        "{\"items\":[{\"item\":\"garp\",\"ranks\":[1,2]},{\"cycle\":[],\"expenditure\":\"0\",\"item\":\"demand\",\"prices\":[]}],\"kind\":\"table\",\"levels\":[799,1000],\"version\":2}",
        "rejected item 2 Levels place 0\n",
    ),
    (
        AT_799,
        "{\"items\":[{\"cycle\":[1,2,1],\"expenditure\":\"3\",\"item\":\"demand\",\"prices\":[\"1\",\"1\"]}],\"kind\":\"table\",\"levels\":[799,1000],\"version\":2}",
        "rejected item 1 Levels place 0\n",
    ),
    (
        AT_799,
        "{\"items\":[{\"cycle\":[1,2,1],\"item\":\"welfare\",\"observation\":1,\"prices\":[\"1\",\"1\"]}],\"kind\":\"table\",\"levels\":[799,1000],\"version\":2}",
        "rejected item 1 Levels place 0\n",
    ),
];

#[test]
fn forged_evidence_with_levels(rt: HostRuntime) -> Result<(), Fail> {
    for (table, certificate, out) in FORGED {
        let files = &[("t.csv", *table), ("c.json", *certificate)];
        rejects(rt.alloc(), CHECK, files, out)?;
    }
    Ok(())
}
