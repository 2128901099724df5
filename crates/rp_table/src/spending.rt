//! What a bundle costs at prices.
ghost use Rattle.std.specs.Prelude.{◌≡◌, ◌<◌, ◌≤◌, ◌^◌, All, length, slice_index};
ghost use Rattle.rp_table.specs.Limits.{IsPrice, IsQuantity};
ghost use Rattle.rp_table.specs.Spending.{spending};
ghost use Rattle.rp_table.specs.Sums.{sum_below};
ghost use Rattle.rp_limits.specs.declared.table.TheConstants.{GOODS};

/// What a bundle costs at prices, scaled by both scales.
pub fn cost_of_bundle(prices: &[u32], bundle: &[u32]) -> u64
    requires few { length prices.now ≤ GOODS }
    requires prices { All IsPrice prices.now }
    requires goods { length bundle.now ≡ length prices.now }
    requires bundle { All IsQuantity bundle.now }
    ensures exact { result ≡ spending (length prices.now) (slice_index prices.now)
        (slice_index bundle.now) }
    ensures at_least { sum_below (length bundle.now) (slice_index bundle.now) ≤ result }
    ensures below { result < 2 ^ 51 }
{
    let mut total = 0;
    for g in 0..prices.len() {
        total += u64::from(prices[g]) * u64::from(bundle[g]);
    }
    total
}

/// What numerators of a bundle in fractions cost at prices, over the bundle's denominator.
pub fn cost_of_numerators(prices: &[u32], numerators: &[u64]) -> u128
    requires few { length prices.now ≤ GOODS }
    requires prices { All IsPrice prices.now }
    requires goods { length numerators.now ≡ length prices.now }
    ensures exact { result ≡ spending (length prices.now) (slice_index prices.now)
        (slice_index numerators.now) }
    ensures below { result < 2 ^ 92 }
{
    let mut total = 0;
    for g in 0..numerators.len() {
        total += u128::from(prices[g]) * u128::from(numerators[g]);
    }
    total
}
