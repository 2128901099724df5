//! Which observations of a table reach which by walks of weak steps, found once for all items.
ghost use Rattle.std.specs.Prelude.{◌≡◌, ◌<◌, ◌≤◌, ◌&&◌, ◌||◌, ◌↔◌, ◌⊎◌, ℕ, IsTrue, length};
ghost use Rattle.rp_clauses.specs.InnerBits.{has_bit};
ghost use Rattle.rp_clauses.specs.ReachedMarks.{IsReachedFromMarked};
ghost use Rattle.rp_evidence.specs.Marks.{AreMarked, IsMarked};
ghost use Rattle.rp_evidence.specs.Input.{TableInput, input_of_table};
ghost use Rattle.rp_evidence.specs.Preference.{IsWeak};
ghost use Rattle.rp_evidence.specs.Welfare.{EqualsOrReaches};
ghost use Rattle.rp_evidence.specs.Bits.{bit_in};
ghost use Rattle.rp_evidence.specs.Reached.{IsWeakClosureOf, reaches_in};
ghost use Rattle.rp_evidence.specs.Through.{ReachesThrough};
ghost use Rattle.rp_table.specs.Cost.{cost_of};
ghost use Rattle.rp_table.specs.Tables.{records_of};
ghost use Rattle.rp_limits.specs.declared.table.TheConstants.{RECORDS};

use crate::bits::{WORDS, is_set, set, take_in};
use crate::input::Input;
use crate::reach::ROOM;
use crate::standard::WHOLE;
use std::marker::Model;

/// Which observations reach which by walks of one or more weak steps: a row of bits for each, in an array. No memory is
/// taken.
#[derive(Drop)]
pub struct Reachability {
    n: u32,
    rows: [[u64; WORDS]; ROOM],
}

impl Model for Reachability {
    ghost use Rattle.std.specs.Prelude.{◌≤◌};
    ghost use Rattle.rp_clauses.specs.InnerBits.{has_bit};
    ghost use Rattle.rp_evidence.specs.Reached.{Reached, reached_by};
    ghost use Rattle.rp_limits.specs.declared.table.TheConstants.{RECORDS};

    ghost Value = { Reached };

    ghost view = { λ c. reached_by c.n (has_bit c.rows) };

    ghost invariant = { λ c. c.n ≤ RECORDS };
}

impl Reachability {
    /// The closure of the weak steps of a table.
    pub fn of(input: &Input<'_>) -> Reachability
        ensures { IsWeakClosureOf result (input_of_table input.now.table.now) }
    {
        let n = input.n();
        let mut rows = [[0; WORDS]; ROOM];
        note_steps(input, &mut rows);
        close(n, &mut rows);
        Reachability { n, rows }
    }

    /// Whether `s` is `t`, or some walk with at least one step leads from it to `t`.
    pub fn equals_or_reaches(&self, s: u32, t: u32) -> bool
        requires from { s < RECORDS }
        requires to { t < RECORDS }
        ensures { (input : TableInput) → IsWeakClosureOf self.now input → s < input.n → t < input.n
            → IsTrue result ↔ EqualsOrReaches input s t }
    {
        s == t || is_set(&self.rows[s as usize], t)
    }

    /// The row of what the marked observations reach.
    pub fn reached_from(&self, marks: &[bool]) -> [u64; WORDS]
        requires { self.now.n ≤ length marks.now }
        ensures { (t : ℕ) → t < self.now.n → IsTrue (bit_in result t)
            ↔ ((s : ℕ) × (s < self.now.n) × IsMarked marks.now s
            × IsTrue (reaches_in self.now s t)) }
    {
        united(self.n, &self.rows, marks)
    }
}

/// The union of the rows of the marked ones of the first `n` observations.
fn united(n: u32, rows: &[[u64; WORDS]; ROOM], marks: &[bool]) -> [u64; WORDS]
    requires few { n ≤ RECORDS }
    requires marks { n ≤ length marks.now }
    ensures { (t : ℕ) → IsTrue (bit_in result t)
        ↔ ((s : ℕ) × (s < n) × IsMarked marks.now s × IsTrue (has_bit rows.now s t)) }
{
    let mut row = [0; WORDS];
    for s in 0..n {
        if marks[s as usize] {
            take_in(&mut row, &rows[s as usize]);
        }
    }
    row
}

/// Notes the weak steps from each observation in its row.
fn note_steps(input: &Input<'_>, rows: &mut [[u64; WORDS]; ROOM])
    ensures { (s t : ℕ) → s < records_of input.now.table.now → t < records_of input.now.table.now
        → IsTrue (has_bit rows.new s t) ↔ IsWeak (cost_of input.now.table.now) s t }
{
    for s in 0..input.n() {
        rows[s as usize] = steps_from(input, s);
    }
}

/// The row of the weak steps from `s`.
fn steps_from(input: &Input<'_>, s: u32) -> [u64; WORDS]
    requires { s < records_of input.now.table.now }
    ensures { (t : ℕ) → t < records_of input.now.table.now
        → IsTrue (bit_in result t) ↔ IsWeak (cost_of input.now.table.now) s t }
{
    let mut row = [0; WORDS];
    for t in 0..input.n() {
        if input.is_weak(WHOLE, s, t) {
            set(&mut row, t);
        }
    }
    row
}

/// From the steps to what they reach: after round `k` a row has what a walk through observations below `k` leads to.
fn close(n: u32, rows: &mut [[u64; WORDS]; ROOM])
    requires { n ≤ RECORDS }
    ensures { (s t : ℕ) → s < n → IsTrue (has_bit rows.new s t)
        ↔ ReachesThrough n (λ a b. IsTrue (has_bit rows.old a b)) s t }
{
    for k in 0..n {
        go_through(n, rows, k);
    }
}

/// Each row with bit `k` takes in row `k`.
fn go_through(n: u32, rows: &mut [[u64; WORDS]; ROOM], k: u32)
    requires few { n ≤ RECORDS }
    requires within { k < n }
    ensures { (s t : ℕ) → s < n → has_bit rows.new s t
        ≡ (has_bit rows.old s t || (has_bit rows.old s k && has_bit rows.old k t)) }
{
    let from = rows[k as usize];
    for s in 0..n {
        if is_set(&rows[s as usize], k) {
            take_in(&mut rows[s as usize], &from);
        }
    }
}

/// Marks each observation that weak steps, or none, lead to from one that is marked.
pub fn spread(input: &Input<'_>, closure: &Reachability, marks: &mut [bool])
    requires closure { IsWeakClosureOf closure.now (input_of_table input.now.table.now) }
    requires room { records_of input.now.table.now ≤ length marks.old }
    ensures { AreMarked (records_of input.now.table.now)
        (IsReachedFromMarked (records_of input.now.table.now)
        (IsWeak (cost_of input.now.table.now))
        marks.old) marks.new }
{
    let n = input.n();
    let reached = closure.reached_from(marks);
    mark_bits(n, &reached, marks);
}

/// Marks each of the first `n` observations that has its bit.
fn mark_bits(n: u32, row: &[u64; WORDS], marks: &mut [bool])
    requires few { n ≤ RECORDS }
    requires room { n ≤ length marks.old }
    ensures { (t : ℕ) → t < n → IsMarked marks.new t
        ↔ (IsMarked marks.old t ⊎ IsTrue (bit_in row.now t)) }
{
    for t in 0..n {
        if is_set(row, t) {
            marks[t as usize] = true;
        }
    }
}
