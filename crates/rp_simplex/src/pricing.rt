//! Which column enters: a column is priced when it is looked at, by the objective's multipliers that are not 0.
ghost use Rattle.std.specs.Prelude.{◌≡◌, suc, ◌<◌, ◌≤◌, length, MatchOption};
ghost use Rattle.rp_farkas.specs.Limits.{largest_entry, most_rows};
ghost use Rattle.rp_simplex.specs.Choice.{IsEntering, IsOptimal};
ghost use Rattle.rp_simplex.specs.InnerCombined.{AreSmall, ElementsFit, IsGathered, dot};
ghost use Rattle.rp_simplex.specs.InnerStage.{exact};

use crate::dot::plus_product;
use crate::stage::Stage;

/// The most multipliers that a row has: one more than a program has rows.
const MOST_MULTIPLIERS: usize = 65;

/// Notes the places of the multipliers that are not 0, in order, and gives how many there are.
fn gather(multipliers: &[i64], places: &mut [usize]) -> usize
    requires room { length multipliers.now ≤ length places.old }
    requires fit { ElementsFit multipliers.now }
    ensures { IsGathered (length multipliers.now) multipliers.now places.new result }
{
    let mut count = 0;
    for s in 0..multipliers.len() {
        if multipliers[s] != 0 {
            places[count] = s;
            count += 1;
        }
    }
    count
}

/// The sum of the products of multipliers and the elements of a column of tableau 0, over the places alone.
fn gathered_product(multipliers: &[i64], places: &[usize], count: usize, column: &[i64]) -> i128
    requires gathered { IsGathered (length multipliers.now) multipliers.now places.now count }
    requires same { length column.now ≡ length multipliers.now }
    requires few { length multipliers.now ≤ suc most_rows }
    requires fit { ElementsFit multipliers.now }
    requires small { AreSmall largest_entry column.now }
    ensures { result ≡ dot (length multipliers.now) multipliers.now column.now }
{
    let mut sum: i128 = 0;
    for k in 0..count {
        let s = places[k];
        sum = plus_product(sum, multipliers[s], column[s]);
    }
    sum
}

/// The column that enters, with room for the places of the multipliers.
fn first_negative(t: &Stage, places: &mut [usize]) -> Option<usize>
    requires { suc t.now.rows ≤ length places.old }
    ensures { MatchOption result (IsOptimal t.now.rows t.now.width (exact t.now))
        (λ c. IsEntering t.now.rows t.now.width (exact t.now) c) }
{
    let multipliers = t.multipliers.row(t.rows as u32);
    let count = gather(multipliers, places);
    for j in 1..t.width {
        let column = t.columns.row(j as u32);
        if gathered_product(multipliers, places, count, column) < 0 {
            return Some(j);
        }
    }
    None
}

/// The column that enters, or none where no objective entry is negative.
pub fn entering_column(t: &Stage) -> Option<usize>
    ensures { MatchOption result (IsOptimal t.now.rows t.now.width (exact t.now))
        (λ c. IsEntering t.now.rows t.now.width (exact t.now) c) }
{
    let mut places = [0; MOST_MULTIPLIERS];
    first_negative(t, &mut places)
}
