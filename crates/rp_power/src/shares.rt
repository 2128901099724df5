//! The shares of expenditure that words draw.
ghost use Rattle.std.specs.Prelude.{◌≡◌, ◌+◌, ◌*◌, ◌<◌, ◌≤◌, All, OnOk, length, slice_index};
ghost use Rattle.rp_num.specs.Below.{listed};
ghost use Rattle.rp_power.specs.DrawnTable.{budget_share_of};
ghost use Rattle.rp_power.specs.PowerCount.{words_of};
ghost use Rattle.rp_power.specs.DrawnNumbers.{not_all_zero};
ghost use Rattle.rp_table.specs.Sums.{sum_below};
ghost use Rattle.rp_table.specs.Tables.{goods_of, records_of};
ghost use Rattle.rp_limits.specs.declared.table.TheConstants.{GOODS, LARGEST};

use rp_num::NoMemory;
use rp_table::Table;

/// Fills `shares` with the share of each good at observation `t` by the words, one for each observation and then good:
/// 0 to 99, not all 0.
pub(crate) fn draw_shares(
    table: &Table,
    words: &[u32],
    t: u32,
    shares: &mut Vec<u32>,
) -> Result<(), NoMemory>
    requires words { length words.now ≡ words_of table.now }
    requires observed { t < records_of table.now }
    ensures drawn { OnOk result (shares.new.items
        ≡ listed (goods_of table.now) (budget_share_of table.now words.now t)) }
    ensures within { OnOk result (All (λ share. share < 100) shares.new.items) }
{
    let goods = table.goods();
    shares.clear();
    for g in 0..goods {
        let word = words[t as usize * goods as usize + g as usize];
        shares.push(word % 100)?;
    }
    leave_not_all_zero(shares);
    Ok(())
}

/// Makes the first number 1 where all of them are 0.
pub fn leave_not_all_zero(numbers: &mut Vec<u32>)
    requires some { 1 ≤ length numbers.old.items }
    requires few { length numbers.old.items ≤ GOODS }
    requires within { All (λ number. number ≤ LARGEST) numbers.old.items }
    ensures { numbers.new.items ≡ listed (length numbers.old.items)
        (not_all_zero (length numbers.old.items) (slice_index numbers.old.items)) }
{
    if total(numbers.as_slice()) == 0 {
        numbers[0] = 1;
    }
}

/// The sum of numbers.
pub(crate) fn total(numbers: &[u32]) -> u64
    requires few { length numbers.now ≤ GOODS }
    requires within { All (λ number. number ≤ LARGEST) numbers.now }
    ensures exact { result ≡ sum_below (length numbers.now) (slice_index numbers.now) }
    ensures few { result ≤ GOODS * LARGEST }
{
    let mut total = 0;
    for g in 0..numbers.len() {
        total += u64::from(numbers[g]);
    }
    total
}
