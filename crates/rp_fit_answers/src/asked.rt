//! What the words of the commands ask.
ghost use Rattle.std.specs.Prelude.{◌≡◌, map, option_map, string_bytes};
ghost use Rattle.rp_fit_answers.specs.Questions.{RandomWithin, asked_in, check_of, fit_in, json_of};
ghost use Rattle.rp_fit_answers.specs.Questions.{question_of, report_of};
ghost use Rattle.rp_fit_answers.specs.RandomWords.{asking_in};

use crate::asking::RandomAsked;
use crate::random_words::{is_file_name, random_asked};

/// What words ask, with the names of files. A certificate is written where `json` is asked, and else a report.
#[derive(Drop)]
pub enum Asked<'w> {
    /// The indices of goodness of fit of a table, with their evidence.
    Fit {
        table: &'w str,
        json: bool,
    },
    /// The checker's verdict on a certificate on goodness of fit of a table.
    CheckFit {
        table: &'w str,
        certificate: &'w str,
    },
    /// The verdict on random choices within a limit of steps.
    RandomWithin {
        own: RandomAsked<'w>,
    },
}

/// What words ask, the program's name first.
pub fn asked_by<'w>(words: &'w [String]) -> Option<Asked<'w>>
    ensures { option_map question_of result ≡ asked_in (map string_bytes words.now) }
{
    match words {
        [_, command, rest @ ..] => {
            if command.as_str() == "random" {
                random_by(rest)
            } else {
                fit_by(command.as_str(), rest)
            }
        }
        _ => None,
    }
}

/// What the words after `random` ask.
fn random_by<'w>(words: &'w [String]) -> Option<Asked<'w>>
    ensures { option_map question_of result
        ≡ option_map RandomWithin (asking_in (map string_bytes words.now)) }
{
    match random_asked(words) {
        Some(own) => Some(Asked::RandomWithin { own }),
        None => None,
    }
}

/// What the words after `fit` or `checkfit` ask.
fn fit_by<'w>(command: &str, words: &'w [String]) -> Option<Asked<'w>>
    ensures { option_map question_of result ≡ fit_in command.now (map string_bytes words.now) }
{
    match words {
        [table] => {
            if command == "fit" {
                report_of(table.as_str())
            } else {
                None
            }
        }
        [first, second] => {
            if command == "fit" {
                json_of(first.as_str(), second.as_str())
            } else if command == "checkfit" {
                check_of(first.as_str(), second.as_str())
            } else {
                None
            }
        }
        _ => None,
    }
}

/// The report of a table.
fn report_of<'w>(table: &'w str) -> Option<Asked<'w>>
    ensures { option_map question_of result ≡ report_of table.now }
{
    if !is_file_name(table.as_bytes()) {
        return None;
    }
    Some(Asked::Fit { table, json: false })
}

/// The certificate of a table as JSON, by a name and an option in either order.
fn json_of<'w>(first: &'w str, second: &'w str) -> Option<Asked<'w>>
    ensures { option_map question_of result ≡ json_of first.now second.now }
{
    if is_file_name(first.as_bytes()) && second == "--json" {
        return Some(Asked::Fit {
            table: first,
            json: true,
        });
    }
    if is_file_name(second.as_bytes()) && first == "--json" {
        return Some(Asked::Fit {
            table: second,
            json: true,
        });
    }
    None
}

/// The check of a certificate on a table.
fn check_of<'w>(table: &'w str, certificate: &'w str) -> Option<Asked<'w>>
    ensures { option_map question_of result ≡ check_of table.now certificate.now }
{
    if is_file_name(table.as_bytes()) && is_file_name(certificate.as_bytes()) {
        return Some(Asked::CheckFit { table, certificate });
    }
    None
}
