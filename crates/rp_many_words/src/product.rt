//! Products of many words by one.
ghost use Rattle.std.specs.Prelude.{◌≡◌, ◌+◌, ◌*◌, ◌^◌, ◌<◌, length};
ghost use Rattle.rp_many_words.specs.ManyWords.{value_of_words};

/// Multiplies a number in its place by one word. The product must have no more words than the number has room for.
pub fn multiply(words: &mut [u64], by: u64)
    requires fits { value_of_words words.old * by < (2 ^ 64) ^ length words.old }
    ensures product { value_of_words words.new ≡ value_of_words words.old * by }
{
    let mut carry = 0;
    for k in 0..words.len() {
        let (low, high) = word_product(words[k], by, carry);
        words[k] = low;
        carry = high;
    }
}

/// The product of two words, and a third word added: the low word and the high one.
fn word_product(word: u64, by: u64, carry: u64) -> (u64, u64)
    ensures { result.0 + 2 ^ 64 * result.1 ≡ word * by + carry }
{
    word.carrying_mul(by, carry)
}
