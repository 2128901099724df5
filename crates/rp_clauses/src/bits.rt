//! Rows of bits: one bit for each observation that a table may have.
ghost use Rattle.std.specs.Prelude.{◌≡◌, ◌<◌, ◌||◌, ◌==◌, ℕ};
ghost use Rattle.rp_evidence.specs.Bits.{bit_in};
ghost use Rattle.rp_limits.specs.declared.table.TheConstants.{RECORDS};

use crate::reach::ROOM;

/// How many words of 64 bits a row has.
pub const WORDS: usize = 8;

const _: () = prove!(WORDS * 64 == ROOM);

/// Whether bit `t` of the row is set.
pub fn is_set(row: &[u64; WORDS], t: u32) -> bool
    requires { t < RECORDS }
    ensures { result ≡ bit_in row.now t }
{
    (row[(t / 64) as usize] >> (t % 64)) & 1 == 1
}

/// Sets bit `t` of the row.
pub fn set(row: &mut [u64; WORDS], t: u32)
    requires { t < RECORDS }
    ensures { (b : ℕ) → bit_in row.new b ≡ (bit_in row.old b || (b == t)) }
{
    let word = row[(t / 64) as usize];
    row[(t / 64) as usize] = word | 1 << (t % 64);
}

/// The row takes in another, a word at a time.
pub fn take_in(row: &mut [u64; WORDS], from: &[u64; WORDS])
    ensures { (t : ℕ) → bit_in row.new t ≡ (bit_in row.old t || bit_in from.now t) }
{
    for word in 0..WORDS {
        row[word] |= from[word];
    }
}
