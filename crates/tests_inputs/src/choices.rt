//! Budgets and choices whose answers are known, and their certificates.
ghost use Rattle.std.specs.Prelude.{◌≤◌};

use std::alloc::{AllocError, Global};

/// Two budgets, with the prices 1, 2 and 2, 1, and 4 to spend on each.
pub const CROSSED: &str = "p_a,p_b,w\n1,2,4\n2,1,4\n";

/// Choices from both: the first patch of each lies above the other budget, the second below. No more than three
/// quarters of the choices can be made by rational types.
pub const VIOLATION: &str = "budget,q_a,q_b,n\n1,2,1,1\n1,0,2,3\n2,1,2,2\n2,2,0,2\n";

/// Choices from these two budgets that a mixture of rational types makes.
pub const MIXTURE: &str = "budget,q_a,q_b,n\n1,2,1,3\n1,0,2,1\n2,1,2,2\n2,2,0,2\n";

/// One patch on each, chosen so often that the least common multiple is too great a total.
pub const COPRIME: &str = "budget,q_a,q_b,n\n1,2,1,99991\n2,1,2,99989\n";

/// Each choice is affordable below the other, so that no type is rational.
pub const IRRATIONAL: &str = "budget,q_a,q_b,n\n1,0,2,1\n2,2,0,1\n";

pub const ONE_BUDGET: &str = "p_a,w\n3,10\n";

pub const ONE_CHOICE: &str = "budget,q_a,n\n1,2,7\n";

/// Each budget has another good at the double price, so that a patch lies above the budgets of whose good more is
/// bought.
pub const DEAR: &str = "p_a,p_b,p_c,w\n2,1,1,4\n1,2,1,4\n1,1,2,4\n";

/// Three choices on each, once each.
pub const HALVES: &str = "budget,q_a,q_b,q_c,n\n1,0,1,1,1\n1,1,1,1,1\n1,1,0,2,1\n\
    2,1,0,0,1\n2,1,0,1,1\n2,1,1,0,1\n3,1,1,0,1\n3,0,1,0,1\n3,0,0,1,1\n";

/// The certificate of `VIOLATION`.
pub const OF_VIOLATION: &str =
    "{\"items\":[{\"den\":\"1\",\"item\":\"random\",\"parts\":[[[1,4],\"1\"],[[2,3],\"2\"]],\
    \"total\":\"4\",\"weights\":[\"1\",\"0\",\"1\",\"0\"]}],\"kind\":\"random\",\"version\":1}\n";

/// The certificate of `VIOLATION` with 100 units on each budget.
pub const OF_VIOLATION_PER_100: &str =
    "{\"items\":[{\"den\":\"1\",\"item\":\"random\",\"parts\":[[[1,4],\"25\"],[[2,3],\"50\"]],\
    \"total\":\"100\",\"weights\":[\"1\",\"0\",\"1\",\"0\"]}],\"kind\":\"random\",\"version\":1}\n";

/// The certificate of `MIXTURE`.
pub const OF_MIXTURE: &str =
    "{\"items\":[{\"den\":\"1\",\"item\":\"random\",\"parts\":[[[1,3],\"1\"],[[1,4],\"2\"],[[2,3],\"1\"]],\
    \"total\":\"4\"}],\"kind\":\"random\",\"version\":1}\n";

/// The certificate of `COPRIME` with 100 units on each budget.
pub const OF_COPRIME_PER_100: &str =
    "{\"items\":[{\"den\":\"1\",\"item\":\"random\",\"parts\":[[[1,2],\"100\"]],\"total\":\"100\"}],\
    \"kind\":\"random\",\"version\":1}\n";

/// The certificate of `IRRATIONAL`.
pub const OF_IRRATIONAL: &str =
    "{\"items\":[{\"den\":\"1\",\"item\":\"random\",\"parts\":[],\"total\":\"1\",\
    \"weights\":[\"0\",\"0\"]}],\"kind\":\"random\",\"version\":1}\n";

/// The certificate of `ONE_CHOICE`.
pub const OF_ONE_CHOICE: &str =
    "{\"items\":[{\"den\":\"1\",\"item\":\"random\",\"parts\":[[[1],\"7\"]],\"total\":\"7\"}],\
    \"kind\":\"random\",\"version\":1}\n";

/// The certificate of `HALVES`.
pub const OF_HALVES: &str =
    "{\"items\":[{\"den\":\"2\",\"item\":\"random\",\"parts\":[[[1,5,9],\"1\"],[[1,6,8],\"1\"],[[2,4,8],\"1\"],\
    [[2,6,7],\"1\"],[[3,4,7],\"1\"],[[3,5,9],\"1\"]],\"total\":\"3\"}],\"kind\":\"random\",\"version\":1}\n";

/// A certificate of one observation's verdict, which is one on a table.
pub const ON_A_TABLE: &str =
    "{\"items\":[{\"item\":\"garp\",\"ranks\":[1]}],\"kind\":\"table\",\"version\":1}\n";

/// So many budgets with prices (j, n + 1 - j) and income 1.
pub fn fan(alloc: Global, n: u32) -> Result<String, AllocError>
    requires { n ≤ 48 }
{
    let mut text = String::from_str(alloc, "p_a,p_b,w\n")?;
    for j in 0..n {
        let (first, second) = (j + 1, n - j);
        text.push_str(format!(in alloc; "{first},{second},1\n")?.as_str())?;
    }
    Ok(text)
}

/// Choices of each good alone on each of so many budgets: once each, or so that each budget has another number of
/// choices.
pub fn corners(alloc: Global, n: u32, once: bool) -> Result<String, AllocError>
    requires { n ≤ 48 }
{
    let mut text = String::from_str(alloc, "budget,q_a,q_b,n\n")?;
    for j in 1..n + 1 {
        let times = if once { 1 } else { 99_990 - j };
        text.push_str(format!(in alloc; "{j},1,0,1\n{j},0,1,{times}\n")?.as_str())?;
    }
    Ok(text)
}

/// So many pairs of crossed budgets, each with ten times the income of the one before.
pub fn pairs(alloc: Global, n: u32) -> Result<String, AllocError>
    requires { n ≤ 8 }
{
    let mut text = String::from_str(alloc, "p_a,p_b,w\n")?;
    let mut income = String::from_str(alloc, "4")?;
    for _ in 0..n {
        let w = income.as_str();
        text.push_str(format!(in alloc; "1,2,{w}\n2,1,{w}\n")?.as_str())?;
        income.push_str("0")?;
    }
    Ok(text)
}

/// Four choices on each of so many pairs of crossed budgets.
pub fn choices_on_pairs(alloc: Global, n: u32) -> Result<String, AllocError>
    requires { n ≤ 8 }
{
    let mut text = String::from_str(alloc, "budget,q_a,q_b,n\n")?;
    for i in 0..n {
        let (a, b) = (2 * i + 1, 2 * i + 2);
        text.push_str(format!(in alloc; "{a},2,1,1\n{a},0,2,3\n{b},1,2,2\n{b},2,0,2\n")?.as_str())?;
    }
    Ok(text)
}
