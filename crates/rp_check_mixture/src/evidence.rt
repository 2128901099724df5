//! Mixtures of kinds, and weights of cells that show that there is none.
ghost use Rattle.std.specs.Prelude.{◌≡◌, ◌*◌, ◌<◌, ◌≤◌, ◌↔◌, ℕ, All, IsTrue, List, [], ◌∷◌};
ghost use Rattle.std.specs.Prelude.{length};
ghost use Rattle.rp_evidence.specs.Clauses.{FirstUnless, InOrder, Unless};
ghost use Rattle.rp_farkas.specs.Limits.{FitsEvidence};
ghost use Rattle.rp_patch.specs.KindFailure.{EvidenceFailsOf, HasFitNumbers, MixtureFailsOf};
ghost use Rattle.rp_patch.specs.KindFailure.{PartFailsOf, PartsFailOf, ViolationFailsOf};
ghost use Rattle.rp_patch.specs.Kinds.{all_units_weight, cells_weight, weight_of, weight_using};

use crate::choosers::Choosers;
use crate::shares::{check_numbers, comes_in_order};
use rp_evidence::{Failure, RandomPart, Reason, Share, fails};
use rp_patch::{weight_of_shares, weight_of_units};

/// Checks share `k`: a list as a kind is written, some weight, a kind, and in order.
fn check_share<C: Choosers>(choosers: &C, shares: &[Share], k: usize) -> Result<(), Failure>
    requires { k < length shares.now }
    ensures { PartFailsOf (C.kinds choosers.now) shares.now k result }
{
    let share = &shares[k];
    if !choosers.is_formed(share.patches.as_slice()) {
        return fails(Reason::Shape, k + 1);
    }
    if share.weight == 0 {
        return fails(Reason::Number, k + 1);
    }
    if !choosers.is_kind(share.patches.as_slice()) {
        return fails(Reason::Irrational, k + 1);
    }
    if !comes_in_order(shares, k) {
        return fails(Reason::Order, k + 1);
    }
    Ok(())
}

/// Checks the shares, each in turn.
fn check_shares<C: Choosers>(choosers: &C, shares: &[Share]) -> Result<(), Failure>
    ensures { PartsFailOf (C.kinds choosers.now) shares.now result }
{
    for k in 0..shares.len() {
        check_share(choosers, shares, k)?;
    }
    Ok(())
}

/// How much there is of the kinds that use a cell.
fn weight_on<C: Choosers>(choosers: &C, shares: &[Share], cell: u32) -> u128
    requires cell { cell < (C.kinds choosers.now).cells }
    requires fit { All (λ share. FitsEvidence share.weight) shares.now }
    ensures { result ≡ weight_using (C.kinds choosers.now) shares.now cell }
{
    let mut weight = 0;
    for share in shares {
        if choosers.uses(share.patches.as_slice(), cell) {
            weight += u128::from(share.weight);
        }
    }
    weight
}

/// Checks that each cell gets just its units.
fn check_exact_units<C: Choosers>(choosers: &C, den: u64, shares: &[Share]) -> Result<(), Failure>
    requires { All (λ share. FitsEvidence share.weight) shares.now }
    ensures { FirstUnless (C.kinds choosers.now).cells
        (λ i. weight_using (C.kinds choosers.now) shares.now i
        ≡ den * (C.kinds choosers.now).units i) Reason.Units result }
{
    for i in 0..choosers.cells() {
        if weight_on(choosers, shares, i) != u128::from(den) * u128::from(choosers.units(i)) {
            return fails(Reason::Units, i as usize + 1);
        }
    }
    Ok(())
}

/// Checks that no cell gets more than its units.
fn check_within_units<C: Choosers>(choosers: &C, den: u64, shares: &[Share]) -> Result<(), Failure>
    requires { All (λ share. FitsEvidence share.weight) shares.now }
    ensures { FirstUnless (C.kinds choosers.now).cells
        (λ i. weight_using (C.kinds choosers.now) shares.now i
        ≤ den * (C.kinds choosers.now).units i) Reason.Units result }
{
    for i in 0..choosers.cells() {
        if weight_on(choosers, shares, i) > u128::from(den) * u128::from(choosers.units(i)) {
            return fails(Reason::Units, i as usize + 1);
        }
    }
    Ok(())
}

/// Checks a mixture.
fn check_mixture<C: Choosers>(choosers: &C, den: u64, shares: &[Share]) -> Result<(), Failure>
    ensures { MixtureFailsOf (C.kinds choosers.now) den shares.now result }
{
    check_numbers(den, shares, &[])?;
    check_shares(choosers, shares)?;
    check_exact_units(choosers, den, shares)
}

/// Checks kinds of which no cell gets more than its units, and that there is a weight of each cell.
pub fn check_partial_mixture<C: Choosers>(
    choosers: &C,
    den: u64,
    shares: &[Share],
    weights: &[u64],
) -> Result<(), Failure>
    ensures { InOrder (
        Unless (HasFitNumbers den shares.now weights.now) Reason.Number 0
        ∷ PartsFailOf (C.kinds choosers.now) shares.now
        ∷ Unless (length weights.now ≡ (C.kinds choosers.now).cells) Reason.Shape 0
        ∷ FirstUnless (C.kinds choosers.now).cells
        (λ i. weight_using (C.kinds choosers.now) shares.now i
        ≤ den * (C.kinds choosers.now).units i) Reason.Units
        ∷ []) result }
{
    check_numbers(den, shares, weights)?;
    check_shares(choosers, shares)?;
    if weights.len() != choosers.cells() as usize {
        return fails(Reason::Shape, 0);
    }
    check_within_units(choosers, den, shares)
}

/// Checks that weights of the cells bound every mixture by less than the total: each kind weighs the denominator, as
/// was found out before; the shares have as much as the units weigh; and that is less than the total.
pub fn check_weights<C: Choosers>(
    choosers: &C,
    den: u64,
    shares: &[Share],
    weights: &[u64],
    all_weigh: bool,
) -> Result<(), Failure>
    requires shares { All (λ share. FitsEvidence share.weight) shares.now }
    requires one_each { length weights.now ≡ (C.kinds choosers.now).cells }
    requires weighed { IsTrue all_weigh ↔ ((kind : List ℕ) → (C.kinds choosers.now).IsKind kind
        → den ≤ cells_weight weights.now ((C.kinds choosers.now).used kind)) }
    ensures { InOrder (
        Unless ((kind : List ℕ) → (C.kinds choosers.now).IsKind kind
        → den ≤ cells_weight weights.now ((C.kinds choosers.now).used kind)) Reason.Dual 0
        ∷ Unless (weight_of shares.now ≡ all_units_weight (C.kinds choosers.now) weights.now)
        Reason.Least 0
        ∷ Unless (weight_of shares.now < den * (C.kinds choosers.now).total)
        Reason.NotLess 0
        ∷ []) result }
{
    if !all_weigh {
        return fails(Reason::Dual, 0);
    }
    let weight = weight_of_shares(shares);
    if weight != weight_of_units(choosers, weights) {
        return fails(Reason::Least, 0);
    }
    if weight >= u128::from(den) * u128::from(choosers.total()) {
        return fails(Reason::NotLess, 0);
    }
    Ok(())
}

/// Checks a partial mixture with weights of the cells that show that none has a greater share.
fn check_no_mixture<C: Choosers>(
    choosers: &C,
    den: u64,
    shares: &[Share],
    weights: &[u64],
) -> Result<(), Failure>
    ensures { ViolationFailsOf (C.kinds choosers.now) den shares.now weights.now result }
{
    check_partial_mixture(choosers, den, shares, weights)?;
    check_weights(
        choosers,
        den,
        shares,
        weights,
        choosers.all_weigh(den, weights),
    )
}

/// Checks evidence on a mixture of the kinds. What is withheld claims nothing and is passed over.
pub fn check_evidence<C: Choosers>(choosers: &C, evidence: &RandomPart) -> Result<(), Failure>
    ensures { EvidenceFailsOf (C.kinds choosers.now) evidence.now result }
{
    match evidence {
        RandomPart::Mixture { den, parts } => check_mixture(choosers, *den, parts.as_slice()),
        RandomPart::Violated {
            den,
            parts,
            weights,
        } => check_no_mixture(choosers, *den, parts.as_slice(), weights.as_slice()),
        RandomPart::Wide { .. } => Ok(()),
    }
}
