//! What the words of a call ask.
ghost use Rattle.std.specs.Prelude.{◌≡◌, IfOk, map, option_map, string_bytes};
ghost use Rattle.rp_panel_run.specs.Questions.{asking_in, files_of};

use crate::question::Question;
use rp_num::NoMemory;
use std::alloc::Global;

/// What the words ask, of which the first is the program's name, or nothing where they are none that it takes.
pub(crate) fn read_words<'a>(
    alloc: Global,
    words: &'a [String],
) -> Result<Option<Question<'a>>, NoMemory>
    ensures { IfOk result (λ asked. asked ≡ asking_in (map string_bytes words.now)) }
{
    let mut question = Question::new(alloc);
    for i in 1..words.len() {
        let taken = question.take(words[i].as_str())?;
        if !taken {
            return Ok(None);
        }
    }
    if question.is_whole() {
        Ok(Some(question))
    } else {
        Ok(None)
    }
}

/// The names of the files that words ask for, in their order, or nothing where the words are none that the program takes.
pub fn files_of_words<'a>(
    alloc: Global,
    words: &'a [String],
) -> Result<Option<Vec<&'a str>>, NoMemory>
    ensures { IfOk result (λ found. option_map (λ names. map (λ name. name.now) names.items) found
        ≡ option_map files_of (asking_in (map string_bytes words.now))) }
{
    match read_words(alloc, words)? {
        Some(question) => {
            let names = question.files(alloc)?;
            Ok(Some(names))
        }
        None => Ok(None),
    }
}
