//! What the readers find in files that are written out, and tables of it. The readers are called by functions with no
//! clause, so that no proof works out what such a file denotes.
use rp_forms::Form;
use rp_sheet::{Records, read_names, read_sheet};
use rp_table::{Budgets, Bundles, Choices, Name, Prices, Table};
use rp_text::{TableFault, read_budgets, read_bundles, read_choices, read_prices, read_table};
use std::alloc::{AllocError, Global};
use std::process::Abort;
use std::test::Fail;
use tests_inputs::tables::CONTRADICTION;

/// A reader, with what is read before the file.
#[derive(Clone, Copy)]
pub(crate) enum Reader {
    /// Tables with their levels.
    Levels,
    /// New prices with an expenditure, for two goods with whole quantities.
    OverWhole,
    /// New prices with an expenditure, for two goods with quantities of two places.
    OverFine,
    /// New prices alone, for whole quantities.
    WithoutM,
    /// Bundles for whole quantities.
    WholeBundles,
    /// Bundles for quantities of two places.
    FineBundles,
    Budgets,
    /// Choices from one budget over one good.
    ChoicesFromOne,
    /// Choices from two budgets over two goods.
    Choices,
    Technologies,
    /// Asked files for a technology of two inputs.
    Asked,
    Menus,
}

/// Two goods, with quantities of two places.
const FINE: &str = "p_a,q_a,p_b,q_b\n1,0.5,2,2.25\n2,2,1,1\n";

/// The numbers of a file, record by record, or its fault.
type Read = Result<Vec<u64>, TableFault>;

/// Puts the numbers of a row at the end.
fn push_row(numbers: &mut Vec<u64>, row: &[u32]) -> Result<(), AllocError> {
    for number in row {
        numbers.push(u64::from(*number))?;
    }
    Ok(())
}

/// How many observations and goods, whether there are levels, and the level of each observation.
fn level_numbers(alloc: Global, table: &Table) -> Result<Vec<u64>, AllocError> {
    let mut numbers = Vec::new(alloc);
    let levelled = u32::from(table.levelled());
    push_row(&mut numbers, &[table.n(), table.goods(), levelled])?;
    for i in 0..table.n() {
        numbers.push(u64::from(table.level(i)))?;
    }
    Ok(numbers)
}

/// New prices, each record with its expenditure.
fn price_numbers(alloc: Global, prices: &Prices) -> Result<Vec<u64>, AllocError> {
    let mut numbers = Vec::new(alloc);
    for i in 0..prices.count() {
        push_row(&mut numbers, prices.row(i))?;
        numbers.push(prices.m(i))?;
    }
    Ok(numbers)
}

fn bundle_numbers(alloc: Global, bundles: &Bundles) -> Result<Vec<u64>, AllocError> {
    let mut numbers = Vec::new(alloc);
    for i in 0..bundles.count() {
        push_row(&mut numbers, bundles.row(i))?;
    }
    Ok(numbers)
}

/// Budgets, each with its income.
fn budget_numbers(alloc: Global, budgets: &Budgets) -> Result<Vec<u64>, AllocError> {
    let mut numbers = Vec::new(alloc);
    for j in 0..budgets.count() {
        push_row(&mut numbers, budgets.row(j))?;
        numbers.push(budgets.w(j))?;
    }
    Ok(numbers)
}

/// The budget, numbered from 0, the bundle and the count of each choice.
fn choice_numbers(alloc: Global, choices: &Choices) -> Result<Vec<u64>, AllocError> {
    let mut numbers = Vec::new(alloc);
    for i in 0..choices.count() {
        numbers.push(u64::from(choices.budget(i)))?;
        push_row(&mut numbers, choices.row(i))?;
        numbers.push(u64::from(choices.times(i)))?;
    }
    Ok(numbers)
}

fn read_levels(alloc: Global, file: &str) -> Read {
    let table = read_table(alloc, file.as_bytes())?;
    Ok(level_numbers(alloc, &table)?)
}

fn read_new_prices(alloc: Global, over: &str, file: &str, with_m: bool) -> Read {
    let table = read_table(alloc, over.as_bytes())?;
    let prices = read_prices(alloc, file.as_bytes(), &table, with_m)?;
    Ok(price_numbers(alloc, &prices)?)
}

fn read_new_bundles(alloc: Global, over: &str, file: &str) -> Read {
    let table = read_table(alloc, over.as_bytes())?;
    let bundles = read_bundles(alloc, file.as_bytes(), &table)?;
    Ok(bundle_numbers(alloc, &bundles)?)
}

fn read_incomes(alloc: Global, file: &str) -> Read {
    let budgets = read_budgets(alloc, file.as_bytes())?;
    Ok(budget_numbers(alloc, &budgets)?)
}

fn read_counts(alloc: Global, from: &str, file: &str) -> Read {
    let budgets = read_budgets(alloc, from.as_bytes())?;
    let choices = read_choices(alloc, file.as_bytes(), &budgets)?;
    Ok(choice_numbers(alloc, &choices)?)
}

/// The scaled numbers of a file of that kind, record by record and in the order of its columns.
fn sheet_numbers(alloc: Global, form: &Form, goods: &[Name], file: &str) -> Read {
    let records = Records::of(alloc, file.as_bytes(), form.most as usize + 2)?;
    let sheet = read_sheet(alloc, form, goods, &records)?;
    let mut numbers = Vec::new(alloc);
    for row in &sheet.sizes {
        numbers.extend_from_slice(row.as_slice())?;
    }
    Ok(numbers)
}

/// Two inputs.
fn two_inputs(alloc: Global) -> Result<Vec<Name>, TableFault> {
    let file = "y,w_a,x_a,w_b,x_b\n1,1,1,1,1\n";
    let records = Records::of(alloc, file.as_bytes(), 3)?;
    let sheet = read_sheet(alloc, &Form::technology(), &[], &records)?;
    Ok(read_names(alloc, &sheet.columns)?)
}

fn read_asked(alloc: Global, file: &str) -> Read {
    let inputs = two_inputs(alloc)?;
    sheet_numbers(alloc, &Form::asked(1), &inputs, file)
}

/// What a reader finds in a file.
fn read(alloc: Global, reader: Reader, file: &str) -> Read {
    match reader {
        Reader::Levels => read_levels(alloc, file),
        Reader::OverWhole => read_new_prices(alloc, CONTRADICTION, file, true),
        Reader::OverFine => read_new_prices(alloc, FINE, file, true),
        Reader::WithoutM => read_new_prices(alloc, CONTRADICTION, file, false),
        Reader::WholeBundles => read_new_bundles(alloc, CONTRADICTION, file),
        Reader::FineBundles => read_new_bundles(alloc, FINE, file),
        Reader::Budgets => read_incomes(alloc, file),
        Reader::ChoicesFromOne => read_counts(alloc, "p_a,w\n1,10\n", file),
        Reader::Choices => read_counts(alloc, "p_a,p_b,w\n1,2,10\n2,1,10\n", file),
        Reader::Technologies => sheet_numbers(alloc, &Form::technology(), &[], file),
        Reader::Asked => read_asked(alloc, file),
        Reader::Menus => sheet_numbers(alloc, &Form::menus(), &[], file),
    }
}

/// What a reader finds in a file whose lines each end in a bar.
fn told(alloc: Global, reader: Reader, lines: &str) -> Result<String, AllocError> {
    let file = lines.replace(alloc, '|', "\n")?;
    let got = read(alloc, reader, file.as_str());
    format!(in alloc; "{got:?}")
}

/// Asserts what a reader finds in a file whose lines each end in a bar.
pub(crate) fn assert_told(
    rt: &impl Abort,
    alloc: Global,
    reader: Reader,
    lines: &str,
    wanted: &str,
) -> Result<(), Fail> {
    let got = told(alloc, reader, lines)?;
    assert!(rt; got.as_str() == wanted, "{lines} => {got}");
    Ok(())
}

/// Asserts what a reader finds in each file. A line has the lines of a file, each with a bar at its end, an arrow, and
/// the numbers that are read or the fault.
pub(crate) fn assert_read(
    rt: &impl Abort,
    alloc: Global,
    reader: Reader,
    cases: &str,
) -> Result<(), Fail> {
    for case in cases.lines() {
        let (lines, wanted) = case.split_once(" => ").unwrap_or((case, ""));
        assert_told(rt, alloc, reader, lines, wanted)?;
    }
    Ok(())
}
