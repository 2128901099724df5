//! Which words are those of `fit` or `checkfit`, or of `random` with a limit of steps, and the files that they name.
ghost use Rattle.std.specs.Prelude.{◌≡◌, IfOk, map, option_map, string_bytes};
ghost use Rattle.rp_fit_answers.specs.Questions.{asked_in, files_of, question_of};
ghost use Rattle.rp_fit_call.specs.FitWords.{asks_fit, has_steps};

use rp_fit_answers::{Asked, asked_by};
use rp_num::NoMemory;
use std::alloc::Global;

/// Whether the words of a frame are for `answer_fit` and `name_fit_files`: the first is `fit` or `checkfit`, or it is
/// `random`, and one of the others is `--steps`.
pub fn asks_fit(words: &[u8]) -> bool
    ensures { result ≡ asks_fit words.now }
{
    words.starts_with(b"fit\0")
        || words.starts_with(b"checkfit\0")
        || (words.starts_with(b"random\0") && has_steps(words))
}

/// Whether one of the words behind the first is `--steps`.
fn has_steps(mut words: &[u8]) -> bool
    ensures { result ≡ has_steps words.entry.now }
{
    while let [_, rest @ ..] = words {
        if words.starts_with(b"\0--steps\0") {
            return true;
        }
        words = rest;
    }
    false
}

/// The names of the files that words ask for, in their order, or nothing where the words are none that the program takes.
pub(crate) fn files_of_words<'a>(
    alloc: Global,
    words: &'a [String],
) -> Result<Option<Vec<&'a str>>, NoMemory>
    ensures { IfOk result (λ found. option_map (λ names. map (λ name. name.now) names.items) found
        ≡ option_map files_of (asked_in (map string_bytes words.now))) }
{
    match asked_by(words) {
        Some(asked) => {
            let names = names_of(alloc, &asked)?;
            Ok(Some(names))
        }
        None => Ok(None),
    }
}

/// The names of the files of what is asked.
fn names_of<'a>(alloc: Global, asked: &Asked<'a>) -> Result<Vec<&'a str>, NoMemory>
    ensures { IfOk result (λ names.
        map (λ name. name.now) names.items ≡ files_of (question_of asked.now)) }
{
    match asked {
        Asked::Fit { table, .. } => Ok(vec![in alloc; *table]?),
        Asked::CheckFit { table, certificate } => Ok(vec![in alloc; *table, *certificate]?),
        Asked::RandomWithin { own } => Ok(vec![in alloc; own.budgets(), own.choices()]?),
    }
}
