//! The clauses of new prices and of what is spent at them.
ghost use Rattle.rp_clauses.specs.PricesFailure.{ExpenditureFails, PricesFail};
ghost use Rattle.rp_table.specs.Tables.{goods_of};

use crate::input::Input;
use rp_evidence::{Failure, Reason, fails};
use rp_limits::table::{LARGEST, LARGEST_EXPENDITURE};

/// Checks that there is a price for each good, within its limit.
pub fn check_prices(input: &Input<'_>, prices: &[u32]) -> Result<(), Failure>
    ensures { PricesFail (goods_of input.now.table.now) prices.now result }
{
    let goods = input.table.goods();
    if prices.len() != goods as usize {
        return fails(Reason::Shape, 0);
    }
    for g in 0..goods {
        let price = prices[g as usize];
        if price == 0 || price > LARGEST {
            return fails(Reason::Number, g as usize + 1);
        }
    }
    Ok(())
}

/// Checks that the expenditure is within its limit.
pub fn check_expenditure(m: u64) -> Result<(), Failure>
    ensures { ExpenditureFails m result }
{
    if m == 0 || m > LARGEST_EXPENDITURE {
        return fails(Reason::Number, 0);
    }
    Ok(())
}
