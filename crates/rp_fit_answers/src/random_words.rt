//! What the words after `random` ask where they set a limit of steps.
ghost use Rattle.std.specs.Prelude.{◌≡◌, ◌≤◌, ◌==◌, None, Some, IfSome, if◌then◌else◌, length};
ghost use Rattle.std.specs.Prelude.{map, option_map, string_bytes};
ghost use Rattle.rp_command_line.specs.Ranges.{IsUnit};
ghost use Rattle.rp_fit_answers.specs.RandomWords.{asking_in, asking_of, awaiting, file_taken};
ghost use Rattle.rp_fit_answers.specs.RandomWords.{is_file_name, is_whole, next_taken};
ghost use Rattle.rp_generated.specs.declared.generated_verdict.TheConstants.{SEARCH_STEPS};
ghost use Rattle.rp_fit_answers.specs.RandomWords.{nothing_read, number_taken, option_taken, taken};
ghost use Rattle.rp_fit_answers.specs.RandomWords.{units_of, with_json, with_most, with_per};
ghost use Rattle.rp_limits.specs.declared.patch.TheConstants.{UNITS};

use crate::asking::{Awaited, RandomAsked};
use rp_front::number_in;
use rp_generated::SEARCH_STEPS;
use rp_limits::patch::UNITS;

impl<'w> RandomAsked<'w> {
    /// Nothing is asked yet.
    fn new() -> RandomAsked<'w>
        ensures { asking_of result ≡ nothing_read }
    {
        RandomAsked {
            budgets: "",
            choices: "",
            per: 0,
            most: 0,
            json: false,
            awaited: Awaited::Next,
        }
    }

    /// Takes one word more, where it is one that may stand there.
    #[tactic(auto, unfolding(crate::specs::RandomWords::taken_as))]
    fn take(&mut self, word: &'w str) -> bool
        ensures { taken (asking_of self.old) word.now
            ≡ (if result then Some (asking_of self.new) else None) }
    {
        match self.awaited {
            Awaited::Next => self.take_next(word),
            Awaited::Units => self.take_units(number_in(u64::from(UNITS), word.as_bytes())),
            Awaited::Steps => self.take_steps(number_in(SEARCH_STEPS, word.as_bytes())),
        }
    }

    /// Takes the name of a file, or an option.
    fn take_next(&mut self, word: &'w str) -> bool
        ensures { (if result then Some (asking_of self.new) else None)
            ≡ next_taken (asking_of self.old) word.now }
    {
        if is_file_name(word.as_bytes()) {
            self.take_file(word)
        } else {
            self.take_option(word)
        }
    }

    /// Takes the name of the first file that is not named yet.
    fn take_file(&mut self, word: &'w str) -> bool
        ensures { (if result then Some (asking_of self.new) else None)
            ≡ file_taken (asking_of self.old) word.now }
    {
        if self.budgets.len() == 0 {
            self.budgets = word;
        } else if self.choices.len() == 0 {
            self.choices = word;
        } else {
            return false;
        }
        self.awaited = Awaited::Next;
        true
    }

    /// Takes an option.
    fn take_option(&mut self, word: &str) -> bool
        ensures { (if result then Some (asking_of self.new) else None)
            ≡ option_taken (asking_of self.old) word.now }
    {
        if word == "--json" {
            return self.take_json();
        }
        if word == "--per" {
            return self.await_units();
        }
        if word == "--steps" {
            return self.await_steps();
        }
        false
    }

    /// Takes that the answer is to be JSON.
    fn take_json(&mut self) -> bool
        ensures { (if result then Some (asking_of self.new) else None)
            ≡ (if self.old.json then None else Some (with_json (asking_of self.old))) }
    {
        if self.json {
            return false;
        }
        self.json = true;
        self.awaited = Awaited::Next;
        true
    }

    /// Awaits how many units there are to be on each budget.
    fn await_units(&mut self) -> bool
        ensures { (if result then Some (asking_of self.new) else None)
            ≡ (if self.old.per == 0 then Some (awaiting Awaited.Units (asking_of self.old)) else None) }
    {
        if self.per > 0 {
            return false;
        }
        self.awaited = Awaited::Units;
        true
    }

    /// Awaits the most steps of searches.
    fn await_steps(&mut self) -> bool
        ensures { (if result then Some (asking_of self.new) else None)
            ≡ (if self.old.most == 0 then Some (awaiting Awaited.Steps (asking_of self.old)) else None) }
    {
        if self.most > 0 {
            return false;
        }
        self.awaited = Awaited::Steps;
        true
    }

    /// Takes how many units there are to be on each budget.
    fn take_units(&mut self, units: Option<u64>) -> bool
        requires { IfSome units (λ n. n ≤ UNITS) }
        ensures { (if result then Some (asking_of self.new) else None)
            ≡ number_taken (with_per (asking_of self.old)) units }
    {
        match units {
            Some(units) if units > 0 => {
                self.per = units as u32;
                self.awaited = Awaited::Next;
                true
            }
            _ => false,
        }
    }

    /// Takes the most steps of searches.
    fn take_steps(&mut self, most: Option<u64>) -> bool
        requires { IfSome most (λ n. n ≤ SEARCH_STEPS) }
        ensures { (if result then Some (asking_of self.new) else None)
            ≡ number_taken (with_most (asking_of self.old)) most }
    {
        match most {
            Some(most) if most > 0 => {
                self.most = most;
                self.awaited = Awaited::Next;
                true
            }
            _ => false,
        }
    }

    /// Whether both files are named, a limit is set, and no word is missing.
    fn is_whole(&self) -> bool
        ensures { result ≡ is_whole (asking_of self.now) }
    {
        match self.awaited {
            Awaited::Next => { self.budgets.len() > 0 && self.choices.len() > 0 && self.most > 0 }
            _ => false,
        }
    }

    /// The name of the file of budgets.
    pub fn budgets(&self) -> &'w str
        ensures { result.now ≡ (asking_of self.now).budgets }
    {
        self.budgets
    }

    /// The name of the file of choices.
    pub fn choices(&self) -> &'w str
        ensures { result.now ≡ (asking_of self.now).choices }
    {
        self.choices
    }

    /// How many units there are to be on each budget, where that is asked for.
    pub(crate) fn units(&self) -> Option<u32>
        ensures exact { result ≡ units_of (asking_of self.now) }
        ensures within { IsUnit result }
    {
        if self.per > 0 { Some(self.per) } else { None }
    }
}

/// What these words ask, which follow `random`.
#[tactic(auto, unfolding(crate::specs::RandomWords::asking_in))]
pub(crate) fn random_asked<'w>(words: &'w [String]) -> Option<RandomAsked<'w>>
    ensures { option_map asking_of result ≡ asking_in (map string_bytes words.now) }
{
    let mut asked = RandomAsked::new();
    let mut left = words;
    while let [word, rest @ ..] = left {
        if !asked.take(word.as_str()) {
            return None;
        }
        left = rest;
    }
    if asked.is_whole() { Some(asked) } else { None }
}

/// Whether a word may be a file's name: not empty, and not begun as an option is.
pub(crate) fn is_file_name(word: &[u8]) -> bool
    ensures { result ≡ is_file_name word.now }
{
    match word {
        [] => false,
        [first, ..] => *first != b'-',
    }
}
