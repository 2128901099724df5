//! Rows of bits, one for each observation, and what they reach by the steps that are noted in them.
ghost use Rattle.std.specs.Prelude.{◌≡◌, ◌≢◌, ◌<◌, ◌≤◌, ◌+◌, ◌*◌, ◌/◌, ◌↔◌, ◌&&◌, ◌||◌, ℕ, IsTrue};
ghost use Rattle.std.specs.Prelude.{count_by, length};
ghost use Rattle.std.specs.List.{range_with_len};
ghost use Rattle.rp_evidence.specs.Bits.{bit_in};
ghost use Rattle.rp_evidence.specs.Through.{ReachesThrough};
ghost use Rattle.rp_pref.specs.InnerBits.{bit_of, has_bit};

use rp_grid::Grid;

/// How many words have a bit for each of `n` observations.
pub fn words_for(n: u32) -> u32
    requires { n ≤ 1024 }
    ensures enough { n ≤ result * 64 }
    ensures few { result * 64 < n + 64 }
{
    n.div_ceil(64)
}

/// Whether bit `t` of row `s` is set.
pub fn is_set(bits: &Grid<u64>, s: u32, t: u32) -> bool
    requires row { s < length bits.now.rows }
    requires bit { t < bits.now.cols * 64 }
    ensures { result ≡ has_bit bits.now s t }
{
    (bits.row(s)[(t / 64) as usize] >> (t % 64)) & 1 == 1
}

/// Writes word `place` of row `s`.
pub fn set_word(bits: &mut Grid<u64>, s: u32, place: u32, word: u64)
    requires row { s < length bits.old.rows }
    requires place { place < bits.old.cols }
    ensures count { length bits.new.rows ≡ length bits.old.rows }
    ensures cols { bits.new.cols ≡ bits.old.cols }
    ensures word { (t : ℕ) → t / 64 ≡ place → has_bit bits.new s t ≡ bit_of word t }
    ensures row { (t : ℕ) → t / 64 ≢ place → has_bit bits.new s t ≡ has_bit bits.old s t }
    ensures others { (a t : ℕ) → a ≢ s → has_bit bits.new a t ≡ has_bit bits.old a t }
{
    bits.row_mut(s)[place as usize] = word;
}

/// Row `s` takes in row `k`, a word at a time.
pub fn take_in(bits: &mut Grid<u64>, s: u32, k: u32)
    requires into { s < length bits.old.rows }
    requires from { k < length bits.old.rows }
    requires apart { s ≢ k }
    ensures count { length bits.new.rows ≡ length bits.old.rows }
    ensures cols { bits.new.cols ≡ bits.old.cols }
    ensures row { (t : ℕ) → has_bit bits.new s t ≡ (has_bit bits.old s t || has_bit bits.old k t) }
    ensures others { (a t : ℕ) → a ≢ s → has_bit bits.new a t ≡ has_bit bits.old a t }
{
    let words = bits.cols();
    let mut rows = bits.two(s, k);
    for word in 0..words {
        rows.set(word, rows.into_at(word) | rows.from_at(word));
    }
}

/// Each row with bit `k` takes in row `k`.
pub fn go_through(bits: &mut Grid<u64>, k: u32)
    requires row { k < length bits.old.rows }
    requires bit { k < bits.old.cols * 64 }
    ensures count { length bits.new.rows ≡ length bits.old.rows }
    ensures cols { bits.new.cols ≡ bits.old.cols }
    ensures rows { (s t : ℕ) → s < length bits.old.rows
        → has_bit bits.new s t ≡ (has_bit bits.old s t ||
        (has_bit bits.old s k && has_bit bits.old k t)) }
{
    for s in 0..bits.rows() {
        if s != k && is_set(bits, s, k) {
            take_in(bits, s, k);
        }
    }
}

/// From the steps to what they reach: after round `k` a row has what a walk through observations below `k` leads to.
pub fn close(bits: &mut Grid<u64>)
    requires { length bits.old.rows ≤ bits.old.cols * 64 }
    ensures count { length bits.new.rows ≡ length bits.old.rows }
    ensures cols { bits.new.cols ≡ bits.old.cols }
    ensures rows { (s t : ℕ) → s < length bits.old.rows
        → IsTrue (has_bit bits.new s t) ↔ ReachesThrough (length bits.old.rows) (λ a b. IsTrue
        (has_bit bits.old a b)) s t }
{
    for k in 0..bits.rows() {
        go_through(bits, k);
    }
}

/// How many bits of the words are set.
pub fn count_set(words: &[u64]) -> u32
    requires { length words.now ≤ 1024 }
    ensures exact { result ≡ count_by (bit_in words.now)
        (range_with_len 0 (length words.now * 64)) }
    ensures few { result ≤ length words.now * 64 }
{
    let mut total = 0;
    for word in words {
        total += word.count_ones();
    }
    total
}
