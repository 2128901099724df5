//! What is told of the budgets that were offered.
ghost use Rattle.std.specs.Prelude.{◌≡◌, ◌++◌, ◌<◌, IfOk, IfSome, Err, Ok, length, map, max};
ghost use Rattle.std.specs.Fmt.{decimal};
ghost use Rattle.rp_long.specs.Panels.{household_at};
ghost use Rattle.rp_offered.specs.Offered.{AreFew};
ghost use Rattle.rp_panel.specs.OfferedText.{columns_after, offered_columns, places_asked};
ghost use Rattle.rp_panel.specs.OfferedText.{places_below, places_in, told_texts, with_offered};
ghost use Rattle.rp_rows.specs.Floors.{digit_of, places_text};
ghost use Rattle.rp_rows.specs.RowText.{three_empty};
ghost use Rattle.rp_sheet.specs.declared.fault.TableFault.{TableFault};

use rp_long::Households;
use rp_num::{NoMemory, Seq, print_u128};
use rp_offered::{Offered, Places, offered_of};
use rp_sheet::TableFault;
use rp_table::Table;
use std::alloc::Global;

/// The names of the columns after the fault's: those that are kept, and those of what was offered, where it is asked.
pub(crate) fn columns_after<'a>(
    alloc: Global,
    offered: bool,
    kept: &[&'a [u8]],
) -> Result<Vec<&'a [u8]>, NoMemory>
    ensures { IfOk result (λ names. map (λ name. name.now) names.items
        ≡ columns_after offered (map (λ name. name.now) kept.now)) }
{
    let names = Vec::from_slice(alloc, kept)?;
    if !offered {
        return Ok(names);
    }
    let more = with_offered_columns(names)?;
    Ok(more)
}

/// Appends the names of the columns of what was offered.
fn with_offered_columns<'a>(mut names: Vec<&'a [u8]>) -> Result<Vec<&'a [u8]>, NoMemory>
    ensures { IfOk result (λ more. map (λ name. name.now) more.items
        ≡ map (λ name. name.now) names.entry.items ++ offered_columns) }
{
    names.push(b"offered_least")?;
    names.push(b"below_line")?;
    names.push(b"over_line")?;
    Ok(names)
}

/// How many decimal places the prices and the quantities of all households have, where it is asked what was offered.
pub(crate) fn places_asked(
    alloc: Global,
    offered: bool,
    panel: &Households<'_>,
) -> Result<Option<Places>, NoMemory>
    ensures exact { IfOk result (λ places. places ≡ places_asked offered panel.now.households) }
    ensures few { IfOk result (λ places. IfSome places AreFew) }
{
    if !offered {
        return Ok(None);
    }
    let places = most_places(alloc, panel)?;
    Ok(Some(places))
}

/// How many decimal places the prices and the quantities of all households have.
fn most_places(alloc: Global, panel: &Households<'_>) -> Result<Places, NoMemory>
    ensures exact { IfOk result (λ places. places
        ≡ places_below panel.now.households (length panel.now.households)) }
    ensures few { IfOk result AreFew }
{
    let mut places = Places {
        prices: 0,
        quantities: 0,
    };
    for h in 0..panel.len() {
        let here = places_at(alloc, panel, h)?;
        places = greater(places, here);
    }
    Ok(places)
}

/// How many decimal places the prices and the quantities of a household have, or none where it has no table.
fn places_at(alloc: Global, panel: &Households<'_>, h: usize) -> Result<Places, NoMemory>
    requires { h < length panel.now.households }
    ensures exact { IfOk result (λ places. places ≡ places_in (household_at panel.now h).table) }
    ensures few { IfOk result AreFew }
{
    match panel.table(alloc, h) {
        Ok(table) => Ok(places_of(&table)),
        Err(TableFault::NoMemory) => Err(NoMemory),
        Err(_) => Ok(Places {
            prices: 0,
            quantities: 0,
        }),
    }
}

/// How many decimal places the prices and the quantities of a table have.
fn places_of(table: &Table) -> Places
    ensures exact { result ≡ places_in (Ok table.now) }
    ensures few { AreFew result }
{
    prove!(table.n() >= 1);
    Places {
        prices: table.price_places(),
        quantities: table.quantity_places(),
    }
}

/// The greater of each number of places.
fn greater(one: Places, other: Places) -> Places
    requires one_is_few { AreFew one }
    requires other_is_few { AreFew other }
    ensures prices { result.prices ≡ max one.prices other.prices }
    ensures quantities { result.quantities ≡ max one.quantities other.quantities }
    ensures few { AreFew result }
{
    Places {
        prices: one.prices.max(other.prices),
        quantities: one.quantities.max(other.quantities),
    }
}

/// Appends what is told of the budgets that were offered to a household with this table, where it is asked.
pub(crate) fn push_offered(
    alloc: Global,
    texts: Seq<Seq<u8>>,
    offered: Option<Places>,
    table: &Table,
) -> Result<Seq<Seq<u8>>, NoMemory>
    requires { IfSome offered AreFew }
    ensures { IfOk result (λ after. after ≡ with_offered texts offered (Ok table.now)) }
{
    match offered {
        None => Ok(texts),
        Some(places) if table.goods() == 2 => push_told(alloc, texts, offered_of(places, table)),
        Some(_) => push_three_empty(alloc, texts),
    }
}

/// Appends three empty texts for a household without a table, where it is asked what was offered.
pub(crate) fn push_none_offered(
    alloc: Global,
    texts: Seq<Seq<u8>>,
    offered: Option<Places>,
) -> Result<Seq<Seq<u8>>, NoMemory>
    ensures { (fault : TableFault)
        → IfOk result (λ after. after ≡ with_offered texts offered (Err fault)) }
{
    match offered {
        None => Ok(texts),
        Some(_) => push_three_empty(alloc, texts),
    }
}

/// Appends the least share and both counts.
fn push_told(alloc: Global, texts: Seq<Seq<u8>>, offered: Offered) -> Result<Seq<Seq<u8>>, NoMemory>
    ensures { IfOk result (λ after. after ≡ texts ++ told_texts offered) }
{
    let least = share_text(alloc, offered.least)?;
    let below = count_text(alloc, offered.below)?;
    let over = count_text(alloc, offered.over)?;
    let mut after = texts.into_vec();
    after.push(Seq::from_vec(least))?;
    after.push(Seq::from_vec(below))?;
    after.push(Seq::from_vec(over))?;
    Ok(Seq::from_vec(after))
}

/// Appends three empty texts.
fn push_three_empty(alloc: Global, texts: Seq<Seq<u8>>) -> Result<Seq<Seq<u8>>, NoMemory>
    ensures { IfOk result (λ after. after ≡ texts ++ three_empty) }
{
    let mut after = texts.into_vec();
    after.push(Seq::from_vec(Vec::new(alloc)))?;
    after.push(Seq::from_vec(Vec::new(alloc)))?;
    after.push(Seq::from_vec(Vec::new(alloc)))?;
    Ok(Seq::from_vec(after))
}

/// A count as a text.
fn count_text(alloc: Global, count: u32) -> Result<Vec<u8>, NoMemory>
    ensures { IfOk result (λ text. text.items ≡ decimal count) }
{
    let mut text = Vec::new(alloc);
    print_u128(alloc, &mut text, u128::from(count))?;
    Ok(text)
}

/// So many millionths as a number with six places.
fn share_text(alloc: Global, millionths: u128) -> Result<Vec<u8>, NoMemory>
    ensures { IfOk result (λ text. text.items ≡ places_text millionths) }
{
    let mut text = Vec::new(alloc);
    print_u128(alloc, &mut text, millionths / 1_000_000)?;
    text.push(b'.')?;
    text.push(digit_of(millionths / 100_000))?;
    text.push(digit_of(millionths / 10_000))?;
    text.push(digit_of(millionths / 1_000))?;
    text.push(digit_of(millionths / 100))?;
    text.push(digit_of(millionths / 10))?;
    text.push(digit_of(millionths))?;
    Ok(text)
}

/// The last digit of a number.
fn digit_of(n: u128) -> u8
    ensures { result ≡ digit_of n }
{
    b'0' + (n % 10) as u8
}
