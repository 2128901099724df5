//! Tables whose verdicts are known, and the certificate of one.

use std::alloc::Global;
use std::test::Fail;

/// Costs 5, 4; 4, 5: each would have bought the other's bundle for less.
pub const CONTRADICTION: &str = "p_a,q_a,p_b,q_b\n1,1,2,2\n2,2,1,1\n";

/// Costs 4, 5; 5, 4.
pub const APART: &str = "p_a,q_a,p_b,q_b\n1,2,2,1\n2,1,1,2\n";

/// Costs 8, 4; 8, 4.
pub const MORE_AND_LESS: &str = "p_a,q_a,p_b,q_b\n1,4,1,4\n1,2,1,2\n";

/// All costs 4.
pub const EQUAL: &str = "p_a,q_a,p_b,q_b\n1,2,1,2\n1,3,1,1\n";

/// Costs 10, 5; 45, 50: at 9/10 one step is an equality and the other is strict.
pub const NINE_TENTHS: &str = "p_a,q_a,p_b,q_b\n1,1,3,3\n21,2,8,1\n";

/// Costs 2, 1, 3; 3, 2, 1; 1, 3, 2: no two contradict each other, and three do.
pub const THREE: &str = "p_a,q_a,p_b,q_b,p_c,q_c\n2,1,1,0,3,0\n3,0,2,1,1,0\n1,0,3,0,2,1\n";

/// `CONTRADICTION` with levels: at 800 thousandths of 5 the first step is an equality, at 799 there is none.
pub const AT_800: &str = "p_a,q_a,p_b,q_b,e\n1,1,2,2,800\n2,2,1,1,1000\n";

pub const AT_799: &str = "p_a,q_a,p_b,q_b,e\n1,1,2,2,799\n2,2,1,1,1000\n";

/// `CONTRADICTION` with levels that take nothing away.
pub const AT_ALL: &str = "p_a,q_a,p_b,q_b,e\n1,1,2,2,1000\n2,2,1,1,1000\n";

/// `MORE_AND_LESS` with such levels.
pub const MORE_AND_LESS_AT_ALL: &str = "p_a,q_a,p_b,q_b,e\n1,4,1,4,1000\n1,2,1,2,1000\n";

/// One observation of one good.
pub const ALONE: &str = "p_a,q_a\n3,2\n";

/// The certificate of `CONTRADICTION`, 277 bytes.
pub const CERTIFICATE: &str =
    "{\"items\":[{\"cycle\":[1,2,1],\"item\":\"garp\"},{\"cycle\":[1,2,1],\"item\":\"afriat\"},\
    {\"above\":[1,2,1],\"at_ranks\":[2,2],\"below\":[1,1],\"item\":\"efficiency\",\"level\":\"4/5\"},\
    {\"cycle\":[1,2,1],\"item\":\"homothetic\",\"start\":\"1\"},{\"cycle\":[1,2,1],\"item\":\"quasilinear\"}],\
    \"kind\":\"table\",\"version\":1}\n";

/// The certificate of `AT_799`.
pub const OF_AT_799: &str =
    "{\"items\":[{\"item\":\"garp\",\"ranks\":[1,2]},{\"item\":\"afriat\",\"lambda\":[\"200\",\"1\"],\"utility\":[\"-1000\",\"0\"]},{\"above\":[1,2,1],\"at_ranks\":[2,2],\"below\":[1,1],\"item\":\"efficiency\",\"level\":\"4/5\"},{\"cycle\":[1,2,1],\"item\":\"homothetic\",\"start\":\"1\"},{\"cycle\":[1,2,1],\"item\":\"quasilinear\"}],\"kind\":\"table\",\"levels\":[799,1000],\"version\":2}\n";

/// The text of a certificate on a table with these items.
pub fn certificate_of(alloc: Global, items: &str) -> Result<String, Fail> {
    Ok(format!(in alloc; "{{\"items\":[{items}],\"kind\":\"table\",\"version\":1}}\n")?)
}
