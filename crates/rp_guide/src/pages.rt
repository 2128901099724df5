//! Help pages and the version: which words ask for them.
ghost use Rattle.std.specs.Prelude.{◌≡◌, ◌<◌, [], length, map, option_map, slice_index_or, string_bytes};
ghost use Rattle.rp_guide.specs.Pages as Pages;

use crate::texts::{PANEL_PAGES, PANEL_VERSION, Page, WIDE_PAGES, WIDE_VERSION};

/// The text that answers the words of `rp-wide` where they are `--help`, `--version` or `COMMAND --help`, after the
/// program's name.
#[tactic(auto, unfolding(crate::specs::Pages::wide_page))]
pub fn wide_page(words: &[String]) -> Option<&'static [u8]>
    ensures { option_map (λ text. text.now) result
        ≡ Pages.wide_page (map string_bytes words.now) }
{
    page_of(&WIDE_PAGES, WIDE_VERSION, words)
}

/// The text that answers the words of `rp-panel` where they are `--help` or `--version`.
#[tactic(auto, unfolding(crate::specs::Pages::panel_page))]
pub fn panel_page(words: &[String]) -> Option<&'static [u8]>
    ensures { option_map (λ text. text.now) result
        ≡ Pages.panel_page (map string_bytes words.now) }
{
    page_of(&PANEL_PAGES, PANEL_VERSION, words)
}

/// The text that answers words by these pages.
fn page_of(pages: &[Page], version: &'static [u8], words: &[String]) -> Option<&'static [u8]>
    ensures { option_map (λ text. text.now) result
        ≡ Pages.page_of (map (λ p. (p.0.now, p.1.now)) pages.now)
        version.now (map string_bytes words.now) }
{
    if words.len() == 2 {
        return page_of_word(pages, version, word_at(words, 1));
    }
    if words.len() == 3 {
        return page_of_command(pages, word_at(words, 1), word_at(words, 2));
    }
    None
}

/// A word, by its place.
fn word_at<'a>(words: &'a [String], place: usize) -> &'a [u8]
    requires { place < length words.now }
    ensures { result.now ≡ slice_index_or (map string_bytes words.now) place [] }
{
    words[place].as_bytes()
}

/// What one word asks for.
fn page_of_word(pages: &[Page], version: &'static [u8], word: &[u8]) -> Option<&'static [u8]>
    ensures { option_map (λ text. text.now) result
        ≡ Pages.page_of_word (map (λ p. (p.0.now, p.1.now)) pages.now) version.now word.now }
{
    if word == b"--help".as_slice() {
        return page_named(pages, b"");
    }
    if word == b"--version".as_slice() {
        return Some(version);
    }
    None
}

/// What a command and a word ask for.
fn page_of_command(pages: &[Page], command: &[u8], word: &[u8]) -> Option<&'static [u8]>
    ensures { option_map (λ text. text.now) result
        ≡ Pages.page_of_command (map (λ p. (p.0.now, p.1.now)) pages.now)
        command.now word.now }
{
    if word == b"--help".as_slice() {
        return page_named(pages, command);
    }
    None
}

/// The page of that name.
fn page_named(mut pages: &[Page], name: &[u8]) -> Option<&'static [u8]>
    ensures { option_map (λ text. text.now) result
        ≡ Pages.page_named (map (λ p. (p.0.now, p.1.now)) pages.entry.now) name.now }
{
    while let [page, rest @ ..] = pages {
        if page.0 == name {
            return Some(page.1);
        }
        pages = rest;
    }
    None
}
