//! The table that the words of a seed draw.
ghost use Rattle.std.specs.Prelude.{◌≡◌, ◌≤◌, IfOk, OnOk};
ghost use Rattle.rp_num.specs.Below.{listed};
ghost use Rattle.rp_limits.specs.declared.table.TheConstants.{RECORDS, GOODS};
ghost use Rattle.rp_answers.specs.TrialTable.{good_name, trial_of, trial_price};
ghost use Rattle.rp_power.specs.Words.{after_words, word_after};
ghost use Rattle.rp_power.specs.DrawnNumbers.{drawn_numbers};

use rand_pcg::Lcg64Xsh32;
use rp_num::{NoMemory, print_u128};
use rp_power::{draw, generator, leave_not_all_zero};
use rp_table::{Name, Table};
use std::alloc::Global;

/// The table that the words of a seed give: of each record first the prices, 1 to 99, and then the
/// quantities, 0 to 99, with 1 of the first good where all of them are 0. Its goods are g1, g2 and so on.
pub fn trial_table(alloc: Global, seed: u64, rows: u32, goods: u32) -> Result<Table, NoMemory>
    requires some_rows { 1 ≤ rows }
    requires few_rows { rows ≤ RECORDS }
    requires some_goods { 1 ≤ goods }
    requires few_goods { goods ≤ GOODS }
    ensures { IfOk result (λ table. table ≡ trial_of seed rows goods) }
{
    let mut generator = generator(seed);
    let mut prices = Vec::new(alloc);
    let mut quantities = Vec::new(alloc);
    for _ in 0..rows {
        let priced = draw_prices(alloc, &mut generator, goods)?;
        prices.extend_from_slice(priced.as_slice())?;
        let bought = draw_quantities(alloc, &mut generator, goods)?;
        quantities.extend_from_slice(bought.as_slice())?;
    }
    let names = good_names(alloc, goods)?;
    Ok(Table::make(names, prices, quantities, 0, 0, None))
}

/// The prices of a record.
fn draw_prices(alloc: Global, generator: &mut Lcg64Xsh32, goods: u32) -> Result<Vec<u32>, NoMemory>
    ensures drawn { IfOk result (λ row. row.items ≡ listed goods (trial_price generator.old)) }
    ensures moved { OnOk result (generator.new ≡ after_words generator.old goods) }
{
    let mut row = Vec::new(alloc);
    for _ in 0..goods {
        row.push(1 + draw(generator) % 99)?;
    }
    Ok(row)
}

/// The quantities of a record, of which one is not 0.
fn draw_quantities(
    alloc: Global,
    generator: &mut Lcg64Xsh32,
    goods: u32,
) -> Result<Vec<u32>, NoMemory>
    requires some_goods { 1 ≤ goods }
    requires few_goods { goods ≤ GOODS }
    ensures drawn { IfOk result (λ row. row.items
        ≡ listed goods (drawn_numbers goods (word_after generator.old))) }
    ensures moved { OnOk result (generator.new ≡ after_words generator.old goods) }
{
    let mut row = Vec::new(alloc);
    for _ in 0..goods {
        row.push(draw(generator) % 100)?;
    }
    leave_not_all_zero(&mut row);
    Ok(row)
}

/// The names of so many goods.
fn good_names(alloc: Global, goods: u32) -> Result<Vec<Name>, NoMemory>
    requires { goods ≤ GOODS }
    ensures { IfOk result (λ names. names.items ≡ listed goods good_name) }
{
    let mut names = Vec::new(alloc);
    for g in 0..goods {
        let mut bytes = Vec::from_slice(alloc, b"g")?;
        print_u128(alloc, &mut bytes, u128::from(g) + 1)?;
        names.push(Name::new(bytes))?;
    }
    Ok(names)
}
