//! What the words ask, word by word.
ghost use Rattle.std.specs.Prelude.{◌≡◌, ◌≤◌, ◌==◌, Some, None, IfOk, IfSome, if◌then◌else◌, length, map};
ghost use Rattle.std.specs.Prelude.{is_some, option_map};
ghost use Rattle.rp_limits.specs.declared.command_line.TheConstants.{MOST_DRAWS};
ghost use Rattle.rp_panel_run.specs.Questions as Questions;
ghost use Rattle.rp_panel_run.specs.Questions.{draws_taken, files_of, go_together, id_name};
ghost use Rattle.rp_panel_run.specs.Questions.{is_file_name, is_whole};
ghost use Rattle.rp_panel_run.specs.Questions.{more_asked, named_option, next_taken, nothing_read};
ghost use Rattle.rp_panel_run.specs.Questions.{option_taken, taken};

use rp_bound_rows::BoundsAsked;
use rp_front::number_in;
use rp_limits::command_line::MOST_DRAWS;
use rp_num::NoMemory;
use rp_rows::{Asked, Draws};
use std::alloc::Global;
use std::marker::Model;

/// What the next word is.
#[derive(Clone, Copy, Debug, PartialEq, Eq)]
pub enum Awaited {
    /// An option, or the name of the long file where none was taken yet.
    Next,
    /// The name of the column of ids.
    Id,
    /// The name of a column whose texts are kept.
    Kept,
    /// How many random behaviours are drawn.
    Draws,
    /// The seed by which they are drawn.
    Seed,
    /// The name of the file of new prices, at which these bounds are asked.
    NewPrices(BoundsAsked),
}

/// An option, or what is none.
#[derive(Clone, Copy, Debug, PartialEq, Eq)]
pub enum Named {
    Pump,
    Intercepts,
    Wide,
    Id,
    Keep,
    Power,
    Bounds(BoundsAsked),
    Other,
}

/// What is asked by the words that are read so far, and what the next one is.
#[derive(Drop)]
pub(crate) struct Question<'a> {
    file: &'a str,
    id: &'a str,
    kept: Vec<&'a [u8]>,
    pump: bool,
    offered: bool,
    wide: bool,
    draws: u32,
    seed: u64,
    bounds: Option<BoundsAsked>,
    new_prices: &'a str,
    awaited: Awaited,
}

impl<'a> Model for Question<'a> {
    ghost use Rattle.std.specs.Prelude.{map};
    ghost use Rattle.rp_panel_run.specs.Questions.{Asking};

    ghost Value = { Asking };

    ghost view = { λ q. record {
      file = q.file.now;
      id = q.id.now;
      kept = map (λ name. name.now) q.kept.items;
      pump = q.pump;
      offered = q.offered;
      wide = q.wide;
      draws = q.draws;
      seed = q.seed;
      bounds = q.bounds;
      new_prices = q.new_prices.now;
      awaited = q.awaited;
    } };
}

impl<'a> Question<'a> {
    /// Nothing is asked yet.
    pub(crate) fn new(alloc: Global) -> Question<'a>
        ensures { result ≡ nothing_read }
    {
        Question {
            file: "",
            id: "",
            kept: Vec::new(alloc),
            pump: false,
            offered: false,
            wide: false,
            draws: 0,
            seed: 0,
            bounds: None,
            new_prices: "",
            awaited: Awaited::Next,
        }
    }

    /// Takes one word more, where it is one that may stand there.
    #[tactic(auto, unfolding(crate::specs::Questions::taken_as))]
    pub(crate) fn take(&mut self, word: &'a str) -> Result<bool, NoMemory>
        ensures { IfOk result (λ yes. taken self.old word.now
            ≡ (if yes then Some self.new else None)) }
    {
        match self.awaited {
            Awaited::Next => Ok(self.take_next(word)),
            Awaited::Id => Ok(self.take_id(word)),
            Awaited::Kept => {
                self.kept.push(word.as_bytes())?;
                self.awaited = Awaited::Next;
                Ok(true)
            }
            Awaited::Draws => Ok(self.take_draws(number_in(MOST_DRAWS, word.as_bytes()))),
            Awaited::Seed => Ok(self.take_seed(number_in(u64::MAX, word.as_bytes()))),
            Awaited::NewPrices(asked) => Ok(self.take_new_prices(asked, word)),
        }
    }

    /// Takes the name of the file, or an option.
    #[tactic(auto, unfolding(crate::specs::Questions::next_taken))]
    fn take_next(&mut self, word: &'a str) -> bool
        ensures { (if result then Some self.new else None) ≡ next_taken self.old word.now }
    {
        if is_file_name(word.as_bytes()) {
            self.take_file(word)
        } else {
            self.take_option(named_option(word))
        }
    }

    /// Takes the name of the file, where there is none yet.
    fn take_file(&mut self, word: &'a str) -> bool
        ensures { (if result then Some self.new else None) ≡ (if length self.old.file == 0
            then Some (Questions.with_file self.old word.now) else None) }
    {
        if self.file.len() > 0 {
            return false;
        }
        self.file = word;
        self.awaited = Awaited::Next;
        true
    }

    /// Takes an option.
    #[tactic(auto, unfolding(crate::specs::Questions::option_taken))]
    fn take_option(&mut self, option: Named) -> bool
        ensures { (if result then Some self.new else None) ≡ option_taken self.old option }
    {
        match option {
            Named::Pump => self.take_pump(),
            Named::Intercepts => self.take_intercepts(),
            Named::Wide => self.take_wide(),
            Named::Id => self.await_id(),
            Named::Keep => {
                self.awaited = Awaited::Kept;
                true
            }
            Named::Power => self.await_draws(),
            Named::Bounds(asked) => self.await_new_prices(asked),
            Named::Other => false,
        }
    }

    /// Takes that the pump is asked.
    fn take_pump(&mut self) -> bool
        ensures { (if result then Some self.new else None)
            ≡ (if self.old.pump then None else Some (Questions.with_pump self.old)) }
    {
        if self.pump {
            return false;
        }
        self.pump = true;
        self.awaited = Awaited::Next;
        true
    }

    /// Takes that prices are exchanged intercepts, and that it is asked what choices spent of the offered budgets.
    fn take_intercepts(&mut self) -> bool
        ensures { (if result then Some self.new else None)
            ≡ (if self.old.offered then None else Some (Questions.with_intercepts self.old)) }
    {
        if self.offered {
            return false;
        }
        self.offered = true;
        self.awaited = Awaited::Next;
        true
    }

    /// Takes that more is to be found where the homothetic test or a bound is withheld.
    fn take_wide(&mut self) -> bool
        ensures { (if result then Some self.new else None)
            ≡ (if self.old.wide then None else Some (Questions.with_wide self.old)) }
    {
        if self.wide {
            return false;
        }
        self.wide = true;
        self.awaited = Awaited::Next;
        true
    }

    /// Awaits the name of the column of ids.
    fn await_id(&mut self) -> bool
        ensures { (if result then Some self.new else None) ≡ (if length self.old.id == 0
            then Some (Questions.awaiting Awaited.Id self.old) else None) }
    {
        if self.id.len() > 0 {
            return false;
        }
        self.awaited = Awaited::Id;
        true
    }

    /// Awaits how many behaviours are drawn.
    fn await_draws(&mut self) -> bool
        ensures { (if result then Some self.new else None) ≡ (if self.old.draws == 0
            then Some (Questions.awaiting Awaited.Draws self.old) else None) }
    {
        if self.draws > 0 {
            return false;
        }
        self.awaited = Awaited::Draws;
        true
    }

    /// Awaits the name of the file of new prices.
    fn await_new_prices(&mut self, asked: BoundsAsked) -> bool
        ensures { (if result then Some self.new else None) ≡ (if is_some self.old.bounds
            then None else Some (Questions.awaiting (Awaited.NewPrices asked) self.old)) }
    {
        if self.bounds.is_some() {
            return false;
        }
        self.awaited = Awaited::NewPrices(asked);
        true
    }

    /// Takes the name of the file of new prices.
    fn take_new_prices(&mut self, asked: BoundsAsked, word: &'a str) -> bool
        ensures { (if result then Some self.new else None) ≡ (if is_file_name word.now
            then Some (Questions.with_bounds self.old asked word.now) else None) }
    {
        if !is_file_name(word.as_bytes()) {
            return false;
        }
        self.bounds = Some(asked);
        self.new_prices = word;
        self.awaited = Awaited::Next;
        true
    }

    /// Takes the name of the column of ids.
    fn take_id(&mut self, word: &'a str) -> bool
        ensures { (if result then Some self.new else None)
            ≡ (if length word.now == 0 then None else Some (Questions.with_id self.old word.now)) }
    {
        if word.len() == 0 {
            return false;
        }
        self.id = word;
        self.awaited = Awaited::Next;
        true
    }

    /// Takes how many behaviours are drawn.
    #[tactic(auto, unfolding(crate::specs::Questions::draws_taken))]
    fn take_draws(&mut self, draws: Option<u64>) -> bool
        requires { IfSome draws (λ n. n ≤ MOST_DRAWS) }
        ensures { (if result then Some self.new else None) ≡ draws_taken self.old draws }
    {
        match draws {
            Some(draws) if draws > 0 => {
                self.draws = draws as u32;
                self.awaited = Awaited::Seed;
                true
            }
            _ => false,
        }
    }

    /// Takes the seed.
    fn take_seed(&mut self, seed: Option<u64>) -> bool
        ensures { (if result then Some self.new else None)
            ≡ option_map (Questions.with_seed self.old) seed }
    {
        match seed {
            Some(seed) => {
                self.seed = seed;
                self.awaited = Awaited::Next;
                true
            }
            None => false,
        }
    }

    /// Whether no word is missing, and those that there are go together.
    pub(crate) fn is_whole(&self) -> bool
        ensures { result ≡ is_whole self.now }
    {
        match self.awaited {
            Awaited::Next => self.file.len() > 0 && self.go_together(),
            _ => false,
        }
    }

    /// Whether nothing more is asked of the verdicts beside bounds.
    fn go_together(&self) -> bool
        ensures { result ≡ go_together self.now }
    {
        if self.bounds.is_none() {
            return true;
        }
        !self.pump && !self.offered && self.draws == 0
    }

    /// The name of the long file.
    pub(crate) fn file(&self) -> &'a str
        ensures { result.now ≡ self.now.file }
    {
        self.file
    }

    /// Which bounds are asked, where any are.
    pub(crate) fn bounds(&self) -> Option<BoundsAsked>
        ensures { result ≡ self.now.bounds }
    {
        self.bounds
    }

    /// The name of the file of new prices, where bounds are asked.
    pub(crate) fn new_file(&self) -> &'a str
        ensures { result.now ≡ self.now.new_prices }
    {
        self.new_prices
    }

    /// The names of the files that are asked for: the long file, and that of new prices where bounds are asked.
    pub(crate) fn files(&self, alloc: Global) -> Result<Vec<&'a str>, NoMemory>
        ensures { IfOk result (λ names. map (λ name. name.now) names.items ≡ files_of self.now) }
    {
        let mut names = Vec::new(alloc);
        names.push(self.file)?;
        if self.bounds.is_some() {
            names.push(self.new_prices)?;
        }
        Ok(names)
    }

    /// The name of the column of ids.
    pub(crate) fn id_name(&self) -> &[u8]
        ensures { result.now ≡ id_name self.now }
    {
        if self.id.len() == 0 {
            b"household"
        } else {
            self.id.as_bytes()
        }
    }

    /// The names of the columns whose texts are kept.
    pub(crate) fn kept(&self) -> &[&'a [u8]]
        ensures { map (λ name. name.now) result.now ≡ self.now.kept }
    {
        self.kept.as_slice()
    }

    /// Whether more is to be found where the homothetic test or a bound is withheld.
    pub(crate) fn is_wide(&self) -> bool
        ensures { result ≡ self.now.wide }
    {
        self.wide
    }

    /// Whether it is asked what choices spent of the budgets that were offered.
    pub(crate) fn is_offered(&self) -> bool
        ensures { result ≡ self.now.offered }
    {
        self.offered
    }

    /// What is asked of each household beside the verdicts.
    pub(crate) fn more_asked(&self) -> Asked
        ensures { result ≡ more_asked self.now }
    {
        Asked {
            pump: self.pump,
            power: self.power(),
        }
    }

    /// What is drawn for each household.
    fn power(&self) -> Option<Draws>
        ensures { result ≡ (more_asked self.now).power }
    {
        if self.draws == 0 {
            return None;
        }
        Some(Draws {
            draws: self.draws,
            seed: self.seed,
        })
    }
}

/// The option that a word is.
fn named_option(word: &str) -> Named
    ensures { result ≡ named_option word.now }
{
    if word == "--pump" {
        return Named::Pump;
    }
    if word == "--intercepts" {
        return Named::Intercepts;
    }
    if word == "--wide" {
        return Named::Wide;
    }
    if word == "--id" {
        return Named::Id;
    }
    if word == "--keep" {
        return Named::Keep;
    }
    if word == "--power" {
        return Named::Power;
    }
    if word == "--demand" {
        return Named::Bounds(BoundsAsked::Demand);
    }
    if word == "--welfare" {
        return Named::Bounds(BoundsAsked::Welfare);
    }
    Named::Other
}

/// Whether a text may be a file's name: not empty, and not begun as an option is.
fn is_file_name(text: &[u8]) -> bool
    ensures { result ≡ is_file_name text.now }
{
    match text {
        [] => false,
        [first, ..] => *first != b'-',
    }
}
