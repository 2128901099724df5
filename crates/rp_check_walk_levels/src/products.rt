//! Products over the steps of a walk, in many words.
ghost use Rattle.std.specs.Prelude.{◌≡◌, ◌*◌, ◌^◌, ◌≤◌};
ghost use Rattle.rp_check_walk_levels.specs.InnerSums.{IsShort};
ghost use Rattle.rp_evidence.specs.Homothetic.{next_product, spent_product};
ghost use Rattle.rp_fit.specs.HomotheticLevel.{step_count};
ghost use Rattle.rp_many_words.specs.ManyWords.{value_of_words};
ghost use Rattle.rp_table.specs.Cost.{cost_of};
ghost use Rattle.rp_table.specs.Tables.{records_of};

use rp_clauses::input::Input;
use rp_limits::table::RECORDS;
use rp_many_words::multiply;

/// The parts of 1 in which the level's bounds are given.
pub(crate) const PARTS: u64 = 1 << 40;

/// Room for the products over a walk that has as many steps as a table may have observations: each step multiplies by
/// less than 2^91.
const WORDS: usize = 729;

const _: () = prove!(91 * (RECORDS as usize) < 64 * WORDS);

/// The product of what the next bundles cost, times 2^40 for each step.
pub(crate) fn next_words(input: &Input<'_>, walk: &[u32]) -> [u64; WORDS]
    requires { IsShort (records_of input.now.table.now) walk.now }
    ensures { value_of_words result ≡ (2 ^ 40) ^ step_count walk.now
        * next_product (cost_of input.now.table.now) walk.now }
{
    let n = input.n();
    prove!(n <= RECORDS);
    let mut words = one();
    for k in 0..walk.len() - 1 {
        multiply(&mut words, PARTS);
        multiply(&mut words, input.cost(walk[k], walk[k + 1]));
    }
    words
}

/// The product of what was spent, times `high` for each step.
pub(crate) fn spent_words(input: &Input<'_>, high: u64, walk: &[u32]) -> [u64; WORDS]
    requires short { IsShort (records_of input.now.table.now) walk.now }
    requires high { high ≤ 2 ^ 40 }
    ensures { value_of_words result ≡ high ^ step_count walk.now
        * spent_product (cost_of input.now.table.now) walk.now }
{
    let n = input.n();
    prove!(n <= RECORDS);
    let mut words = one();
    for k in 0..walk.len() - 1 {
        multiply(&mut words, high);
        multiply(&mut words, input.cost(walk[k], walk[k]));
    }
    words
}

/// The number 1.
fn one() -> [u64; WORDS]
    ensures { value_of_words result ≡ 1 }
{
    let mut words = [0; WORDS];
    words[0] = 1;
    words
}
