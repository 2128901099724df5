//! What is read off the last tableau.
ghost use Prim.Native.Nat.{◌∣◌};
ghost use Rattle.std.specs.Prelude.{◌≡◌, ◌≤◌, ◌*◌, IfNone, IfOk, IfSome, pos};
ghost use Rattle.std.specs.Int.RustNames.{unsigned_abs};
ghost use Rattle.rp_whole_tableau.specs.InnerReadOff.{ArePricesIn, DividesPrices};
ghost use Rattle.rp_whole_tableau.specs.Programs.{IsTooWide, PricePasses, objective_of};

use crate::tableau::Tableau;
use rp_farkas::{EVIDENCE_WIDTH, Entry, Pair};
use rp_num::{NoMemory, Seq, gcd};
use std::alloc::Global;

/// A number divided by the common divisor, where it is not negative and within the width of evidence.
pub fn reduced(n: i128, common: u128) -> Option<u64>
    ensures wide { 1 ≤ common → IfNone result (IsTooWide n) }
    ensures exact { IfSome result (λ part.
        common ∣ unsigned_abs n → pos (part * common) ≡ n) }
{
    if n < 0 || common == 0 {
        return None;
    }
    let part = n.unsigned_abs() / common;
    if part <= u128::from(EVIDENCE_WIDTH) {
        Some(part as u64)
    } else {
        None
    }
}

/// The right side of the row whose basic column this is, or 0.
fn side_of(t: &Tableau, column: usize) -> i128 {
    for i in 0..t.basis.len() {
        if t.basis[i] == column {
            return t.entry(i, 0);
        }
    }
    0
}

/// The greatest common divisor of the denominator, the prices and the point.
fn common_divisor(t: &Tableau) -> u128 {
    let objective = t.basis.len();
    let mut common = t.den;
    for j in 1..t.width() {
        let number = if j <= objective {
            t.entry(objective, j)
        } else {
            side_of(t, j)
        };
        common = gcd(common, number.unsigned_abs());
    }
    common
}

/// The prices: the slack entries of the objective row.
pub fn prices(alloc: Global, t: &Tableau, common: u128) -> Result<Option<Vec<u64>>, NoMemory>
    ensures wide { 1 ≤ common → IfOk result (λ found. IfNone found (PricePasses t.now)) }
    ensures exact { IfOk result (λ found. IfSome found (λ prices.
        DividesPrices t.now (objective_of t.now) common
        → ArePricesIn t.now common prices.items)) }
{
    let objective = t.basis.len();
    let mut prices = Vec::new(alloc);
    for s in 0..objective {
        match reduced(t.entry(objective, s + 1), common) {
            Some(price) => prices.push(price)?,
            None => return Ok(None),
        }
    }
    Ok(Some(prices))
}

/// The point: the right sides of the program's own basic columns, those that are positive.
fn point(
    alloc: Global,
    t: &Tableau,
    common: u128,
    cols: u32,
) -> Result<Option<Vec<Entry>>, NoMemory> {
    let mut point = Vec::new(alloc);
    for at in 0..cols {
        match reduced(side_of(t, 1 + t.basis.len() + at as usize), common) {
            Some(0) => {}
            Some(value) => point.push(Entry { at, value })?,
            None => return Ok(None),
        }
    }
    Ok(Some(point))
}

/// The pair that the last tableau shows, in lowest terms; none where a number passes the width of evidence.
pub fn pair_of(alloc: Global, t: &Tableau, cols: u32) -> Result<Option<Pair>, NoMemory> {
    let common = common_divisor(t);
    if common == 0 || t.den / common > u128::from(EVIDENCE_WIDTH) {
        return Ok(None);
    }
    let den = (t.den / common) as u64;
    let Some(x) = prices(alloc, t, common)? else {
        return Ok(None);
    };
    let Some(y) = point(alloc, t, common, cols)? else {
        return Ok(None);
    };
    Ok(Some(Pair {
        den,
        y: Seq::from_vec(y),
        x: Seq::from_vec(x),
    }))
}
