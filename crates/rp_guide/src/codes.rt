//! The codes by which hints are found: a word of a line that reports an error, or of a checker's verdict.
ghost use Rattle.std.specs.Prelude.{◌≡◌, ◌≤◌, length, true};
ghost use Rattle.rp_guide.specs.Codes as codes;

/// The code of a line that reports an error, as `rp: t.csv: BadNumber record 2 column 5`: the word after its last colon
/// and blank, or its first word where it has none.
pub fn code_of_line<'a>(line: &'a [u8]) -> &'a [u8]
    ensures { result.now ≡ codes.code_of_line line.now }
{
    first_word(last_part(line))
}

/// The code of a checker's verdict, `accepted items N ..` or `rejected item I REASON ..`: the reason where it rejects,
/// and nothing for other texts.
pub fn check_code<'a>(text: &'a [u8]) -> &'a [u8]
    ensures { result.now ≡ codes.check_code text.now }
{
    code_by_word(first_word(text), text)
}

/// The code of the note beside a checker's verdict: whether the items of an accepted certificate prove something, or it
/// has none. Rejections and other texts have no note.
pub fn note_code(text: &[u8]) -> &'static [u8]
    ensures { result.now ≡ codes.note_code text.now }
{
    noted(check_code(text))
}

/// The code of a text with this first word.
fn code_by_word<'a>(word: &[u8], text: &'a [u8]) -> &'a [u8]
    ensures { result.now ≡ codes.code_by_word word.now text.now }
{
    if word == b"accepted".as_slice() {
        accepted_code(third_word(text))
    } else if word == b"rejected".as_slice() {
        fourth_word(text)
    } else {
        b""
    }
}

/// Of these codes those that are noted.
fn noted(code: &[u8]) -> &'static [u8]
    ensures { result.now ≡ codes.noted code.now }
{
    if code == b"Nothing".as_slice() {
        b"Nothing"
    } else if code == b"Accepted".as_slice() {
        b"Accepted"
    } else {
        b""
    }
}

/// The third word of a text.
fn third_word<'a>(text: &'a [u8]) -> &'a [u8]
    ensures { result.now ≡ codes.third_word text.now }
{
    first_word(after_blank(after_blank(text)))
}

/// The fourth word of a text.
fn fourth_word<'a>(text: &'a [u8]) -> &'a [u8]
    ensures { result.now ≡ codes.fourth_word text.now }
{
    first_word(after_blank(after_blank(after_blank(text))))
}

/// The code of an accepted certificate, by its number of items.
fn accepted_code(number: &[u8]) -> &'static [u8]
    ensures { result.now ≡ codes.accepted_code number.now }
{
    if number == b"0".as_slice() {
        b"Nothing"
    } else {
        b"Accepted"
    }
}

/// What follows the last colon and blank of a text, or all of it.
fn last_part<'a>(text: &'a [u8]) -> &'a [u8]
    ensures { result.now ≡ codes.last_part text.now text.now }
{
    let mut found = text;
    let mut left = text;
    while let [_, rest @ ..] = left {
        if is_colon(left) {
            found = &left[2..];
        }
        left = rest;
    }
    found
}

/// Whether a text begins with a colon and a blank.
fn is_colon(text: &[u8]) -> bool
    ensures value { result ≡ codes.is_colon text.now }
    ensures long { result ≡ true → 2 ≤ length text.now }
{
    match text {
        [first, second, ..] => *first == b':' && *second == b' ',
        _ => false,
    }
}

/// The word with which a text begins, up to a blank or the end of the line.
fn first_word<'a>(text: &'a [u8]) -> &'a [u8]
    ensures { result.now ≡ codes.first_word text.now }
{
    &text[..word_length(text)]
}

/// How long that word is.
fn word_length(text: &[u8]) -> usize
    ensures value { result ≡ length (codes.first_word text.now) }
    ensures within { result ≤ length text.now }
{
    let mut count = 0;
    let mut left = text;
    while let [byte, rest @ ..] = left {
        if *byte == b' ' || *byte == b'\n' {
            return count;
        }
        count += 1;
        left = rest;
    }
    count
}

/// What follows the first blank of a text.
fn after_blank<'a>(text: &'a [u8]) -> &'a [u8]
    ensures { result.now ≡ codes.after_blank text.now }
{
    let mut left = text;
    while let [byte, rest @ ..] = left {
        left = rest;
        if *byte == b' ' {
            return left;
        }
    }
    left
}
