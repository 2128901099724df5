//! The search for a rational type that weighs less than it should, depth first over the budgets. A partial type with a
//! violation is left, and so is one whose patches weigh enough with the lightest patches of the budgets to come.
ghost use Rattle.std.specs.Prelude.{◌≡◌, ◌<◌, ◌≤◌, ◌↔◌, ◌+◌, ◌*◌, ◌^◌, ℕ, Some, true, false, List};
ghost use Rattle.std.specs.Prelude.{IfNone, IfSome, IsSomeAnd, IsTrue, length, slice_index};
ghost use Rattle.rp_patch.specs.Kinds.{cells_weight};
ghost use Rattle.rp_patch.specs.Patches.{budget_at};
ghost use Rattle.rp_patch.specs.Types.{IsRationalType};
ghost use Rattle.rp_check_mixture.specs.InnerSearch.{AreLeastToCome, IsLeastOn};
ghost use Rattle.rp_check_mixture.specs.LightFronts.{PassesLimit};
ghost use Rattle.rp_limits.specs.declared.table.TheConstants.{BUDGETS};

use rp_limits::table::BUDGETS;
use rp_patch::Patches;
use rp_patch::partial_type::PartialType;

/// What these patches weigh together.
fn weight_of_type(weights: &[u64], numbers: &[u32]) -> u128
    requires few { length numbers.now ≤ BUDGETS }
    requires weighed { (j : ℕ) → j < length numbers.now
        → slice_index numbers.now j < length weights.now }
    ensures exact { result ≡ cells_weight weights.now numbers.now }
    ensures small { result ≤ BUDGETS * 2 ^ 64 }
{
    let mut weight = 0;
    for i in numbers {
        weight += u128::from(weights[*i as usize]);
    }
    weight
}

/// Whether patch `i` is of budget `j` and weighs less than `least`.
fn is_lighter(patches: &Patches, weights: &[u64], i: u32, j: u32, least: u64) -> bool
    requires one_each { length weights.now ≡ length patches.now.patches }
    requires patch { i < length patches.now.patches }
    ensures lighter { result ≡ true
        → (budget_at patches.now i ≡ j) × (slice_index weights.now i < least) }
    ensures no_lighter { result ≡ false
        → budget_at patches.now i ≡ j → least ≤ slice_index weights.now i }
{
    patches.budget_of(i) == j && weights[i as usize] < least
}

/// What the lightest patch of budget `j` weighs.
fn least_on(patches: &Patches, weights: &[u64], j: u32) -> u64
    requires one_each { length weights.now ≡ length patches.now.patches }
    requires budget { j < patches.now.budgets }
    ensures { IsLeastOn patches.now weights.now j result }
{
    prove!(j < patches.budgets());
    let mut least = u64::MAX;
    for i in 0..patches.count() {
        if is_lighter(patches, weights, i, j, least) {
            least = weights[i as usize];
        }
    }
    least
}

/// Writes at each budget what the lightest patches of the budgets weigh together that come after it.
fn write_to_come(patches: &Patches, weights: &[u64], to_come: &mut [u128])
    requires one_each { length weights.now ≡ length patches.now.patches }
    requires room { length to_come.old ≡ BUDGETS }
    ensures room { length to_come.new ≡ BUDGETS }
    ensures least { AreLeastToCome patches.now weights.now to_come.new }
    ensures small { (d : ℕ) → d < patches.now.budgets
        → slice_index to_come.new d ≤ BUDGETS * 2 ^ 64 }
{
    prove!(patches.budgets() <= BUDGETS);
    let mut least = 0;
    for k in 0..patches.budgets() {
        let d = patches.budgets() - 1 - k;
        to_come[d as usize] = least;
        least += u128::from(least_on(patches, weights, d));
    }
}

/// One more than were counted, or none where a limit allows no more. Without a limit none is counted.
fn one_more(limit: Option<u64>, counted: u64) -> Option<u64>
    ensures more { IfSome result (λ more. IfSome limit (λ steps.
        (more ≡ counted + 1) × (more ≤ steps))) }
    ensures reached { IfNone result (IsSomeAnd limit (λ steps. steps ≤ counted)) }
{
    match limit {
        Some(steps) => {
            if counted < steps {
                Some(counted + 1)
            } else {
                None
            }
        }
        None => Some(counted),
    }
}

/// Whether every rational type weighs at least `least`; none where there are more light fronts than a limit allows.
/// `to_come` has at each budget what patches weigh at least on those that come after it. `partials` is room for the
/// partial types on the way: the one at place d has a patch of each of the first d budgets.
fn all_weigh_by(
    patches: &Patches,
    least: u64,
    weights: &[u64],
    to_come: &[u128],
    limit: Option<u64>,
    partials: &mut [PartialType],
) -> Option<bool>
    requires one_each { length weights.now ≡ length patches.now.patches }
    requires to_come { length to_come.now ≡ BUDGETS }
    requires at_least { AreLeastToCome patches.now weights.now to_come.now }
    requires small { (d : ℕ) → d < patches.now.budgets
        → slice_index to_come.now d ≤ BUDGETS * 2 ^ 64 }
    requires room { length partials.old ≡ BUDGETS }
    ensures decided { IfSome result (λ all. IsTrue all ↔ ((type : List ℕ)
        → IsRationalType patches.now type → least ≤ cells_weight weights.now type)) }
    ensures given_up { IfNone result (PassesLimit patches.now weights.now least limit) }
    ensures within { IfSome result (λ all. ¬ PassesLimit patches.now weights.now least limit) }
{
    prove!(patches.budgets() <= BUDGETS);
    let mut counted = 0;
    let mut depth = 0;
    let mut i = 0;
    partials[0] = PartialType::new(patches);
    'types: loop {
        if i == patches.count() {
            if depth == 0 {
                return Some(true);
            }
            i = partials[depth].patches()[depth - 1] + 1;
            depth -= 1;
        } else {
            match partials[depth].with(patches, i) {
                Some(longer) => {
                    let at_least = weight_of_type(weights, longer.patches()) + to_come[depth];
                    if at_least >= u128::from(least) {
                        i += 1;
                    } else if longer.taken == patches.budgets() {
                        return Some(false);
                    } else {
                        match one_more(limit, counted) {
                            None => return None,
                            Some(more) => {
                                counted = more;
                                depth += 1;
                                partials[depth] = longer;
                                i = 0;
                            }
                        }
                    }
                }
                None => i += 1,
            }
        }
    }
}

/// Whether every rational type weighs at least `least`; none just where there are more light fronts than a limit
/// allows: these are the partial types that the search goes through.
pub fn all_weigh_within(
    patches: &Patches,
    least: u64,
    weights: &[u64],
    limit: Option<u64>,
) -> Option<bool>
    requires { length weights.now ≡ length patches.now.patches }
    ensures decided { IfSome result (λ all. IsTrue all ↔ ((type : List ℕ)
        → IsRationalType patches.now type → least ≤ cells_weight weights.now type)) }
    ensures given_up { IfNone result (PassesLimit patches.now weights.now least limit) }
    ensures within { IfSome result (λ all. ¬ PassesLimit patches.now weights.now least limit) }
{
    let mut to_come = [0; BUDGETS as usize];
    write_to_come(patches, weights, &mut to_come);
    let mut partials = [PartialType::new(patches); BUDGETS as usize];
    all_weigh_by(patches, least, weights, &to_come, limit, &mut partials)
}

/// Whether every rational type weighs at least `least`.
pub fn all_weigh(patches: &Patches, least: u64, weights: &[u64]) -> bool
    requires { length weights.now ≡ length patches.now.patches }
    ensures { IsTrue result ↔ ((type : List ℕ) → IsRationalType patches.now type
        → least ≤ cells_weight weights.now type) }
{
    match all_weigh_within(patches, least, weights, None) {
        Some(all) => all,
        None => unreachable!(),
    }
}
