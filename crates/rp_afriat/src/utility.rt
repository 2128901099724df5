//! The utility that Afriat numbers give to a bundle.
ghost use Rattle.std.specs.Prelude.{◌≡◌, ◌<◌, ◌*◌, [], All, length};
ghost use Rattle.rp_evidence.specs.Afriat.{IsOwnUtility, IsUtility, allowed_for_by};
ghost use Rattle.rp_evidence.specs.AfriatEvidence.{AreOneEach, multiplier_in, utility_in};
ghost use Rattle.rp_evidence.specs.StandardNumbers.{AllFit};
ghost use Rattle.rp_table.specs.Cost.{IsCostsOf, cost_at, own_of, scale_of};
ghost use Rattle.rp_table.specs.Limits.{IsQuantity};
ghost use Rattle.rp_table.specs.Tables.{goods_of};
ghost use Rattle.rp_afriat.specs.Bundle.{bundle_cost};

use crate::bounds::bound;
use rp_evidence::Numbers;
use rp_table::{Costs, Table, cost_of_bundle};

/// The utility of a bundle of whole numbers, scaled as the table's quantities, under the numbers of an Afriat model:
/// the least of the bounds that the observations set. No memory is taken.
pub fn utility_at(table: &Table, costs: &Costs, numbers: &Numbers, bundle: &[u32]) -> i128
    requires of_table { IsCostsOf costs.now table.now }
    requires each { AreOneEach costs.now.n numbers.now }
    requires fit { AllFit costs.now.n (utility_in numbers.now) (multiplier_in numbers.now) }
    requires goods { length bundle.now ≡ goods_of table.now }
    requires limits { All IsQuantity bundle.now }
    ensures own { IsOwnUtility costs.now.n costs.now.levels (cost_at costs.now)
        (utility_in numbers.now) (multiplier_in numbers.now)
        1 (bundle_cost table.now bundle.now) result }
    ensures without_levels { costs.now.levels ≡ [] → IsUtility costs.now.n (cost_at costs.now)
        (utility_in numbers.now) (multiplier_in numbers.now)
        1 (bundle_cost table.now bundle.now) result }
{
    let n = costs.n();
    let mut least = bound_at(table, costs, numbers, bundle, 0);
    for s in 1..n {
        least = least.min(bound_at(table, costs, numbers, bundle, s));
    }
    least
}

/// What the numbers of observation `s` allow the bundle.
fn bound_at(table: &Table, costs: &Costs, numbers: &Numbers, bundle: &[u32], s: u32) -> i128
    requires of_table { IsCostsOf costs.now table.now }
    requires each { AreOneEach costs.now.n numbers.now }
    requires fit { AllFit costs.now.n (utility_in numbers.now) (multiplier_in numbers.now) }
    requires goods { length bundle.now ≡ goods_of table.now }
    requires limits { All IsQuantity bundle.now }
    requires observed { s < costs.now.n }
    ensures { result ≡ allowed_for_by (own_of costs.now) (utility_in numbers.now)
        (multiplier_in numbers.now)
        1 (λ i. scale_of costs.now * bundle_cost table.now bundle.now i) s }
{
    let u = numbers.u.as_slice()[s as usize];
    let lambda = numbers.lambda.as_slice()[s as usize];
    prove!(table.goods() > 0);
    let cost = costs.scale() * cost_of_bundle(table.prices(s), bundle);
    bound(u, lambda, cost, costs.own(s))
}
