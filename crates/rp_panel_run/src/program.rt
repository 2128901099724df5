//! The program of panels, as a front has it.
ghost use Rattle.std.specs.Prelude.{◌≡◌};
ghost use Rattle.rp_panel_run.specs.Front.{panels};

use crate::answer::answer_files;
use crate::question::Question;
use crate::running::USAGE;
use crate::words::read_words;
use rp_front::{Answer, Cause, Program};
use rp_num::NoMemory;
use rp_outside::Desk;
use std::alloc::Global;

/// The program of panels.
pub(crate) struct Panels;

impl<'w> Program<'w> for Panels {
    ghost use Rattle.rp_panel_run.specs.Laws.{answers_accepted, answers_end};
    ghost use Rattle.rp_panel_run.specs.Laws.{begins_unrefused, never_both};

    type Asked = Question<'w>;

    ghost meaning = { panels };

    ghost view = { λ question. question };

    fn name() -> &'static [u8]
        ensures { result.now ≡ panels.name }
    {
        b"rp-panel"
    }

    fn usage() -> &'static [u8]
        ensures { result.now ≡ panels.usage }
    {
        USAGE
    }

    fn read(alloc: Global, words: &'w [String]) -> Result<Option<Question<'w>>, NoMemory> {
        read_words(alloc, words)
    }

    fn answer<'a, D: Desk>(
        alloc: Global,
        desk: &mut D,
        asked: &'a Question<'w>,
    ) -> Result<Answer, Cause<'a>> {
        answer_files(alloc, desk, asked)
    }

    ghost begins_unrefused = { begins_unrefused };

    ghost answers_end = { answers_end };

    ghost answers_accepted = { answers_accepted };

    ghost never_both = { never_both };
}
