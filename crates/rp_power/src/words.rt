//! The generator of a seed and its words.
ghost use Rattle.std.specs.Prelude.{◌≡◌};
ghost use Rattle.rp_power.specs.Words.{after_words, generator_of, word_after};

use rand_core::utils::NextWord;
use rand_pcg::Lcg64Xsh32;

/// The generator of a seed, stream 1, with which every draw of the suite begins.
pub fn generator(seed: u64) -> Lcg64Xsh32
    ensures { result ≡ generator_of seed }
{
    Lcg64Xsh32::new(seed, 1)
}

/// The next word of a generator, 0 to 2^32 - 1 (PCG XSH RR 64/32, O'Neill 2014).
pub fn draw(generator: &mut Lcg64Xsh32) -> u32
    ensures word { result ≡ word_after generator.old 0 }
    ensures moved { generator.new ≡ after_words generator.old 1 }
{
    generator.next_word()
}
