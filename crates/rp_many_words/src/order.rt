//! The order of two numbers of many words.
ghost use Rattle.std.specs.Prelude.{◌≡◌, ◌<◌, ◌≤◌, ◌↔◌, ◌⊎◌, IsTrue, length};
ghost use Rattle.rp_many_words.specs.ManyWords.{value_of_words};

/// Whether a number is at most another that has as many words: the highest words that differ decide.
pub fn is_at_most(a: &[u64], b: &[u64]) -> bool
    requires { length a.now ≡ length b.now }
    ensures { IsTrue result ↔ (value_of_words a.now ≤ value_of_words b.now) }
{
    let mut at_most = true;
    for k in 0..a.len() {
        at_most = with_word(at_most, a[k], b[k]);
    }
    at_most
}

/// Whether the words so far and these two above them are at most the others.
fn with_word(at_most: bool, a: u64, b: u64) -> bool
    ensures { IsTrue result ↔ ((a < b) ⊎ ((a ≡ b) × IsTrue at_most)) }
{
    if a == b { at_most } else { a < b }
}
