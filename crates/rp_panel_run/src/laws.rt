//! Laws of answers and refusals, also over files of which nothing is known. Each function is empty: its contract is the
//! law.
ghost use Rattle.std.specs.Prelude.{◌≡◌, ℕ, List, [], ◌∷◌, None, Some, false};
ghost use Rattle.rp_bound_rows.specs.declared.asked.BoundsAsked.{BoundsAsked};
ghost use Rattle.rp_bounds_panel.specs.BoundsAlike.{AreSameButWithheld as AreSameBoundsButWithheld};
ghost use Rattle.rp_panel.specs.OfferedText.{columns_after};
ghost use Rattle.rp_panel_run.specs.Alike.{AreSameButWithheld};
ghost use Rattle.rp_panel_run.specs.Endings.{AnswersWith, Contents, Files, IsRefusal, IsTextOf};
ghost use Rattle.rp_panel_run.specs.Endings.{RefusesWith};
ghost use Rattle.rp_panel_run.specs.Questions.{Asking};

/// Not every text answers a question and not every line refuses it, whatever is known of its files: no empty text is an
/// answer, nothing is told beside an answer but whole lines that begin with `r`, and no line that refuses is empty.
pub fn not_everything_answers_or_refuses()
    ensures no_empty_text { (a : Asking) (files : Files) (told : List ℕ)
        → ¬ AnswersWith a files [] told }
    ensures no_other_telling { (a : Asking) (files : Files) (text told : List ℕ) (byte : ℕ)
        → ¬ (byte ≡ 114) → ¬ AnswersWith a files text (byte ∷ told) }
    ensures no_empty_line { (a : Asking) (files : Files) → ¬ RefusesWith a files [] }
{}

/// The bytes of the files decide whether a question is answered or refused, what is told beside an answer, and the line
/// of a refusal.
pub fn bytes_decide_what_is_told()
    ensures never_both { (a : Asking) (held : Contents) (text told line : List ℕ)
        → IsTextOf a held text told → ¬ IsRefusal a held line }
    ensures one_telling { (a : Asking) (held : Contents) (text told other_text other : List ℕ)
        → IsTextOf a held text told → IsTextOf a held other_text other → told ≡ other }
    ensures one_line { (a : Asking) (held : Contents) (line other : List ℕ)
        → IsRefusal a held line → IsRefusal a held other → line ≡ other }
{}

/// The bytes of a long file decide the table of verdicts: there is one text of it. Where other evidence is looked for than
/// the stated one, two texts tell the same of each household and of each record that is refused, but that one may withhold
/// the homothetic verdict which the other tells: how often such evidence is found is not fixed.
pub fn bytes_decide_the_verdicts()
    ensures one_text { (a : Asking) (held : Contents) (text told other_text other : List ℕ)
        → a.bounds ≡ None → a.wide ≡ false → IsTextOf a held text told
        → IsTextOf a held other_text other → text ≡ other_text }
    ensures one_verdict { (a : Asking) (held : Contents) (text told other_text other : List ℕ)
        → a.bounds ≡ None → IsTextOf a held text told → IsTextOf a held other_text other
        → AreSameButWithheld (columns_after a.offered a.kept) text other_text }
{}

/// The bytes of a long file and of a file of new prices decide the text of bounds: there is one text of the stated bounds.
/// Where other evidence is looked for than the stated one, two texts tell the same of each bound of each household and of
/// each record that is refused, but that one may withhold an amount which the other gives: how often such evidence is found
/// is not fixed. Violations, faults and upper bounds on the money metric are the same in both.
pub fn bytes_decide_the_bounds()
    ensures one_text { (a : Asking) (held : Contents) (asked : BoundsAsked)
        (text told other_text other : List ℕ)
        → a.bounds ≡ Some asked → a.wide ≡ false → IsTextOf a held text told
        → IsTextOf a held other_text other → text ≡ other_text }
    ensures one_bound { (a : Asking) (held : Contents) (asked : BoundsAsked)
        (text told other_text other : List ℕ)
        → a.bounds ≡ Some asked → IsTextOf a held text told → IsTextOf a held other_text other
        → AreSameBoundsButWithheld asked a.kept text other_text }
{}
