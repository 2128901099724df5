//! What is read off the last tableau.
ghost use Rattle.std.specs.Prelude.{◌≡◌, ◌≢◌, ℕ, suc, ◌+◌, ◌<◌, ◌≤◌, pos, neg_ℤ, ◌≤ℤ◌, MatchOption};
ghost use Rattle.std.specs.Prelude.{length, vec_capacity, vec_len, slice_index};
ghost use Rattle.rp_farkas.specs.Limits.{FitsEvidence, most_columns};
ghost use Rattle.rp_farkas.specs.Listing.{IsListing, numerator_at};
ghost use Rattle.rp_simplex.specs.InnerTableau.{HasDistinctBasis, HasRoom};
ghost use Rattle.rp_simplex.specs.Readout.{IsReadAt};
ghost use Rattle.rp_simplex.specs.InnerStage.{exact};

use crate::stage::Stage;
use rp_farkas::Entry;
use rp_num::Seq;

/// The row whose basic column this is, or none.
fn row_of(t: &Stage, column: usize) -> Option<usize>
    ensures { MatchOption result
        ((i : ℕ) → i < t.now.rows → (exact t.now).basis i ≢ column)
        (λ i. (i < t.now.rows) × ((exact t.now).basis i ≡ column)) }
{
    for i in 0..t.rows {
        if t.basis[i] == column {
            return Some(i);
        }
    }
    None
}

/// The numerator of the point at a column of the tableau: the right side of the row where it is basic, and else 0.
fn point_at(t: &Stage, column: usize) -> u64
    requires wide { 0 < t.now.width }
    requires distinct { HasDistinctBasis t.now.rows (exact t.now) }
    requires sides { (i : ℕ) → i < t.now.rows → pos 0 ≤ℤ (exact t.now).at i 0 }
    ensures basic { (i : ℕ) → i < t.now.rows → (exact t.now).basis i ≡ column → pos result
        ≡ (exact t.now).at i 0 }
    ensures others { ((i : ℕ) → i < t.now.rows → (exact t.now).basis i ≢ column) → result ≡ 0 }
    ensures fits { FitsEvidence result }
{
    match row_of(t, column) {
        Some(i) => t.entry(i, 0) as u64,
        None => 0,
    }
}

/// The numerator of the ray at a column of the tableau, where column c enters.
fn ray_at(t: &Stage, c: usize, column: usize) -> u64
    requires enters { c < t.now.width }
    requires distinct { HasDistinctBasis t.now.rows (exact t.now) }
    requires fresh { (i : ℕ) → i < t.now.rows → (exact t.now).basis i ≢ c }
    requires falls { (i : ℕ) → i < t.now.rows → (exact t.now).at i c ≤ℤ pos 0 }
    ensures basic { (i : ℕ) → i < t.now.rows → (exact t.now).basis i ≡ column
        → pos result ≡ neg_ℤ ((exact t.now).at i c) }
    ensures entering { c ≡ column → pos result ≡ pos t.now.den }
    ensures others { ((i : ℕ) → i < t.now.rows → (exact t.now).basis i ≢ column) → c ≢ column
        → result ≡ 0 }
    ensures fits { FitsEvidence result }
{
    if column == c {
        return t.den;
    }
    match row_of(t, column) {
        Some(i) => -t.entry(i, c) as u64,
        None => 0,
    }
}

/// Notes the numerator of a column after those before it, where it is positive. The entry has its room.
fn note(entries: &mut Vec<Entry>, column: usize, value: u64)
    requires short { column < most_columns }
    requires fits { FitsEvidence value }
    requires listed { IsListing column entries.old.items }
    requires room { vec_len entries.old < vec_capacity entries.old }
    ensures listed { IsListing (column + 1) entries.new.items }
    ensures value { numerator_at entries.new.items column ≡ value }
    ensures before { (k : ℕ) → k < column
        → numerator_at entries.new.items k ≡ numerator_at entries.old.items k }
    ensures few { vec_len entries.new ≤ vec_len entries.old + 1 }
    ensures capacity { vec_capacity entries.old ≤ vec_capacity entries.new }
{
    if value > 0 {
        let at = column as u32;
        entries.push(Entry { at, value }).unwrap();
    }
}

/// The point that the tableau shows, listed in the room that is there for it.
pub fn point(t: &Stage, room: Vec<Entry>, cols: usize) -> Seq<Entry>
    requires cols_are { t.now.width ≡ 1 + t.now.rows + cols }
    requires few { cols ≤ most_columns }
    requires distinct { HasDistinctBasis t.now.rows (exact t.now) }
    requires sides { (i : ℕ) → i < t.now.rows → pos 0 ≤ℤ (exact t.now).at i 0 }
    requires room { HasRoom room cols }
    ensures listed { IsListing cols result }
    ensures read { IsReadAt t.now.rows cols (exact t.now)
        (λ i. (exact t.now).at i 0) 0 (pos 0) (numerator_at result) }
{
    let mut entries = room;
    for j in 0..cols {
        note(&mut entries, j, point_at(t, 1 + t.rows + j));
    }
    Seq::from_vec(entries)
}

/// The ray that the tableau shows where column c enters, listed in the room that is there for it.
pub fn ray(t: &Stage, room: Vec<Entry>, c: usize, cols: usize) -> Seq<Entry>
    requires cols_are { t.now.width ≡ 1 + t.now.rows + cols }
    requires few { cols ≤ most_columns }
    requires enters { c < t.now.width }
    requires distinct { HasDistinctBasis t.now.rows (exact t.now) }
    requires fresh { (i : ℕ) → i < t.now.rows → (exact t.now).basis i ≢ c }
    requires falls { (i : ℕ) → i < t.now.rows → (exact t.now).at i c ≤ℤ pos 0 }
    requires room { HasRoom room cols }
    ensures listed { IsListing cols result }
    ensures read { IsReadAt t.now.rows cols (exact t.now)
        (λ i. neg_ℤ ((exact t.now).at i c)) c (pos t.now.den) (numerator_at result) }
{
    let mut entries = room;
    for j in 0..cols {
        note(&mut entries, j, ray_at(t, c, 1 + t.rows + j));
    }
    Seq::from_vec(entries)
}

/// The prices that the tableau shows, in the room that is there for them: the slack entries of its objective row.
pub fn prices(t: &Stage, room: Vec<u64>) -> Seq<u64>
    requires wide { t.now.rows < t.now.width }
    requires not_negative { (s : ℕ) → s < t.now.rows
        → pos 0 ≤ℤ (exact t.now).at t.now.rows (suc s) }
    requires room { HasRoom room t.now.rows }
    ensures length { length result ≡ t.now.rows }
    ensures read { (s : ℕ) → s < t.now.rows
        → pos (slice_index result s) ≡ (exact t.now).at t.now.rows (suc s) }
{
    let mut prices = room;
    for s in 0..t.rows {
        prices.push(t.entry(t.rows, s + 1) as u64).unwrap();
    }
    Seq::from_vec(prices)
}
