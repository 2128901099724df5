//! The texts of fields.
ghost use Rattle.std.specs.Prelude.{◌≡◌};
ghost use Rattle.rp_forms.specs.Texts.{trimmed, after_blanks, before_blanks, number_of};
ghost use Rattle.rp_forms.specs.Texts as Texts;

/// A text without the spaces and tabs round it.
pub fn trimmed(text: &[u8]) -> &[u8]
    ensures { result.now ≡ trimmed text.now }
{
    before_blanks(after_blanks(text))
}

fn after_blanks(text: &[u8]) -> &[u8]
    ensures { result.now ≡ after_blanks text.now }
{
    let mut start = 0;
    while start < text.len() && is_blank(text[start]) {
        start += 1;
    }
    &text[start..]
}

fn before_blanks(text: &[u8]) -> &[u8]
    ensures { result.now ≡ before_blanks text.now }
{
    let mut end = text.len();
    while end > 0 && is_blank(text[end - 1]) {
        end -= 1;
    }
    &text[..end]
}

fn is_blank(byte: u8) -> bool
    ensures { result ≡ Texts.is_blank byte }
{
    byte == b' ' || byte == b'\t'
}

/// The number by which a fault tells of the k-th record or column, from 0.
pub fn number_of(k: usize) -> u32
    ensures { result ≡ number_of k }
{
    if k < u32::MAX as usize {
        k as u32 + 1
    } else {
        u32::MAX
    }
}
