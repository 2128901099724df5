//! The clauses of evidence by Afriat's theorem.
ghost use Rattle.std.specs.Prelude.{◌≡◌, ◌+◌, ◌<◌, ◌≤◌, ◌↔◌, ℕ, IsTrue, length};
ghost use Rattle.std.specs.Prelude.{◌+ℤ◌, ◌*ℤ◌, ◌^◌, pos};
ghost use Rattle.std.specs.Int.RustNames.{unsigned_abs};
ghost use Rattle.rp_clauses.specs.AfriatFailure.{AfriatFails, InequalitiesFail, NumbersFail};
ghost use Rattle.rp_clauses.specs.AfriatFailure.{AllowsAt, ModelFails, NumbersFitAt, own_allowed};
ghost use Rattle.rp_evidence.specs.AfriatEvidence.{AreOneEach};
ghost use Rattle.rp_evidence.specs.StandardNumbers.{FitsMultiplier, FitsUtility};
ghost use Rattle.rp_table.specs.Cost.{cost_of};
ghost use Rattle.rp_table.specs.Tables.{records_of};

use crate::input::Input;
use crate::standard::Standard;
use crate::walk::check_violation;
use rp_evidence::{AfriatPart, Failure, MULTIPLIER_WIDTH, Numbers, Reason, UTILITY_WIDTH, fails};

/// A utility and a product of a multiplier, all within their widths: they stay within 128 bits.
fn plus_product(utility: i128, added: i128, multiplier: u64) -> i128
    requires utility { FitsUtility utility }
    requires added { unsigned_abs added ≤ 2 ^ 61 }
    requires multiplier { FitsMultiplier multiplier }
    ensures { result ≡ utility +ℤ (added *ℤ pos multiplier) }
{
    utility + added * i128::from(multiplier)
}

/// What the numbers of `s` allow `t` to have: U_s + λ_s gap(s,t).
fn allowed(input: &Input<'_>, utility: i128, multiplier: u64, s: u32, t: u32) -> i128
    requires utility { FitsUtility utility }
    requires multiplier { FitsMultiplier multiplier }
    requires from { s < records_of input.now.table.now }
    requires to { t < records_of input.now.table.now }
    ensures { result ≡ own_allowed input.now.table.now.levels (cost_of input.now.table.now)
        (λ i. utility) (λ i. multiplier) s t }
{
    plus_product(utility, i128::from(input.gap(s, t)), multiplier)
}

/// Whether the numbers of `s` allow every observation its utility.
fn allows(input: &Input<'_>, utility: &[i128], multiplier: &[u64], s: u32) -> bool
    requires from { s < records_of input.now.table.now }
    requires utilities { length utility.now ≡ records_of input.now.table.now }
    requires multipliers { length multiplier.now ≡ records_of input.now.table.now }
    requires fit { NumbersFitAt (record { u = utility.now; lambda = multiplier.now }) s }
    ensures { IsTrue result ↔ AllowsAt (records_of input.now.table.now)
        input.now.table.now.levels (cost_of input.now.table.now)
        (record { u = utility.now; lambda = multiplier.now }) s }
{
    for t in 0..input.n() {
        if utility[t as usize] > allowed(input, utility[s as usize], multiplier[s as usize], s, t) {
            return false;
        }
    }
    true
}

/// Whether the numbers of `s` are within their widths, and its multiplier is not 0.
fn numbers_fit(utility: i128, multiplier: u64) -> bool
    ensures { IsTrue result
        ↔ ((1 ≤ multiplier) × FitsMultiplier multiplier × FitsUtility utility) }
{
    multiplier > 0
        && multiplier <= MULTIPLIER_WIDTH
        && utility >= -UTILITY_WIDTH
        && utility <= UTILITY_WIDTH
}

/// Checks that the numbers of each observation fit.
fn check_numbers(input: &Input<'_>, numbers: &Numbers) -> Result<(), Failure>
    requires { AreOneEach (records_of input.now.table.now) numbers.now }
    ensures { NumbersFail (records_of input.now.table.now) numbers.now result }
{
    let utility = numbers.u.as_slice();
    let multiplier = numbers.lambda.as_slice();
    for s in 0..input.n() {
        if !numbers_fit(utility[s as usize], multiplier[s as usize]) {
            return fails(Reason::Number, s as usize + 1);
        }
    }
    Ok(())
}

/// Checks the inequalities of a model.
fn check_inequalities(input: &Input<'_>, numbers: &Numbers) -> Result<(), Failure>
    requires one_each { AreOneEach (records_of input.now.table.now) numbers.now }
    requires fit { (s : ℕ) → s < records_of input.now.table.now → NumbersFitAt numbers.now s }
    ensures { InequalitiesFail (records_of input.now.table.now) input.now.table.now.levels
        (cost_of input.now.table.now) numbers.now result }
{
    let utility = numbers.u.as_slice();
    let multiplier = numbers.lambda.as_slice();
    for s in 0..input.n() {
        if !allows(input, utility, multiplier, s) {
            return fails(Reason::Order, s as usize + 1);
        }
    }
    Ok(())
}

/// Checks the numbers of an Afriat model.
fn check_model(input: &Input<'_>, numbers: &Numbers) -> Result<(), Failure>
    ensures { ModelFails (records_of input.now.table.now) input.now.table.now.levels
        (cost_of input.now.table.now) numbers.now result }
{
    let n = input.n() as usize;
    if numbers.u.as_slice().len() != n || numbers.lambda.as_slice().len() != n {
        return fails(Reason::Shape, 0);
    }
    check_numbers(input, numbers)?;
    check_inequalities(input, numbers)
}

/// Checks evidence by Afriat's theorem (Afriat 1967).
pub fn check_afriat(input: &Input<'_>, evidence: &AfriatPart) -> Result<(), Failure>
    ensures { AfriatFails (records_of input.now.table.now) input.now.table.now.levels
        (cost_of input.now.table.now) evidence.now result }
{
    match evidence {
        AfriatPart::Model(numbers) => check_model(input, numbers),
        AfriatPart::NoModel(walk) => check_violation(input, Standard::Own, walk.as_slice()),
        AfriatPart::Wide { .. } => Ok(()),
    }
}
