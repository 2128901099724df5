//! The closure of steps over rows of bits.
ghost use Rattle.std.specs.Prelude.{◌≡◌, ◌≢◌, ◌<◌, ◌≤◌, ◌*◌, ◌↔◌, ℕ, false, IsTrue, IfOk};
ghost use Rattle.std.specs.Prelude.{length};
ghost use Rattle.rp_evidence.specs.Count.{IsCount};
ghost use Rattle.rp_evidence.specs.Input.{TableInput};
ghost use Rattle.rp_evidence.specs.Preference.{IsLevel};
ghost use Rattle.rp_evidence.specs.Welfare.{EqualsOrReaches};
ghost use Rattle.rp_table.specs.Cost.{CostTable, cost_at};
ghost use Rattle.rp_pref.specs.InnerBits.{IsWordOf, has_bit};
ghost use Rattle.rp_pref.specs.Closure.{AreCounted, EqualsOrReachesIn, IsClosureOf, IsCountIn};
ghost use Rattle.rp_pref.specs.Closure.{IsWeakClosureOf, Reached, reaches_in};
ghost use Rattle.rp_pref.specs.Steps.{IsStep, OwnStrict, OwnWeak, StepOf};
ghost use Rattle.rp_pref.specs.declared.steps.Steps.{Steps};

use crate::bits::{close, count_set, is_set, set_word, words_for};
use crate::revealed::{AtLevel, OwnLevels, Revealed};
use crate::steps::Steps;
use rp_evidence::{Level, Relation};
use rp_grid::Grid;
use rp_num::{NoMemory, Seq};
use rp_table::Costs;
use std::alloc::Global;
use std::marker::Model;

/// Which observations reach which by walks of one or more steps: a row of bits for each.
#[derive(Drop)]
pub struct Closure {
    n: u32,
    bits: Grid<u64>,
}

impl Model for Closure {
    ghost use Rattle.rp_pref.specs.InnerBits.{HoldsBits, has_bit};
    ghost use Rattle.rp_pref.specs.Closure.{Reached, reached_by};

    ghost Value = { Reached };

    ghost view = { λ c. reached_by c.n (has_bit c.bits) };

    ghost invariant = { λ c. HoldsBits c.n c.bits };
}

impl Closure {
    /// The closure of the chosen steps at the level.
    pub fn of(alloc: Global, costs: &Costs, level: Level, steps: Steps) -> Result<Closure, NoMemory>
        requires { IsLevel level.num level.den }
        ensures { IfOk result (λ closure.
            IsClosureOf closure costs.now.n (IsStep steps (cost_at costs.now)
            level.num level.den)) }
    {
        Closure::over(alloc, &AtLevel { costs, level }, steps)
    }

    /// The closure of the weak steps, each observation held to its own level.
    pub fn own(alloc: Global, costs: &Costs) -> Result<Closure, NoMemory>
        ensures { IfOk result (λ closure. IsClosureOf closure costs.now.n (OwnWeak costs.now)) }
    {
        Closure::over(alloc, &OwnLevels { costs }, Steps::Weak)
    }

    /// The closure of the chosen steps of a preference.
    pub fn over<P: Revealed>(
        alloc: Global,
        preference: &P,
        steps: Steps,
    ) -> Result<Closure, NoMemory>
        ensures { IfOk result (λ closure. IsClosureOf closure (P.count preference.now)
            (StepOf steps (P.weak preference.now) (P.strict preference.now))) }
    {
        let n = preference.n();
        let mut bits = Grid::new(alloc, n, words_for(n), 0u64)?;
        note_steps(&mut bits, preference, steps);
        close(&mut bits);
        Ok(Closure { n, bits })
    }

    /// Whether some walk with at least one step leads from `s` to `t`.
    pub fn reaches(&self, s: u32, t: u32) -> bool
        requires from { s < self.now.n }
        requires to { t < self.now.n }
        ensures { result ≡ reaches_in self.now s t }
    {
        is_set(&self.bits, s, t)
    }

    /// Whether `s` is `t`, or some walk with at least one step leads from it to `t`.
    pub fn equals_or_reaches(&self, s: u32, t: u32) -> bool
        requires from { s < self.now.n }
        requires to { t < self.now.n }
        ensures exact { IsTrue result ↔ EqualsOrReachesIn self.now s t }
        ensures by_weak_steps { (input : TableInput) → IsWeakClosureOf self.now input
            → IsTrue result ↔ EqualsOrReaches input s t }
    {
        s == t || self.reaches(s, t)
    }

    /// How many observations there are.
    fn n(&self) -> u32
        ensures { result ≡ self.now.n }
    {
        self.n
    }

    /// How many observations each observation is or reaches.
    pub fn counts(&self, alloc: Global) -> Result<Seq<u32>, NoMemory>
        ensures { IfOk result (AreCounted self.now) }
    {
        let mut counts = Vec::new(alloc);
        for s in 0..self.n() {
            counts.push(self.count(s))?;
        }
        Ok(Seq::from_vec(counts))
    }

    /// How many observations are reached from `s`, with `s` itself among them.
    pub fn count(&self, s: u32) -> u32
        requires { s < self.now.n }
        ensures { IsCountIn self.now s result }
    {
        count_set(self.bits.row(s)) + u32::from(!is_set(&self.bits, s, s))
    }
}

/// How many observations a closure reaches from `s`, with `s` itself among them, is the count of `s`, over every relation.
/// So it is over the steps of either kind that costs reveal, at a level or where each observation is held to its own.
pub fn closures_count<R: Relation>()
    ensures of_a_relation { (reached : Reached) (n s k : ℕ) → IsClosureOf reached n R.step → s < n
        → IsCountIn reached s k → IsCount n R.step s k }
    ensures at_a_level { (reached : Reached) (costs : CostTable) (steps : Steps) (num den s k : ℕ)
        → IsClosureOf reached costs.n (IsStep steps (cost_at costs) num den) → s < costs.n
        → IsCountIn reached s k → IsCount costs.n (IsStep steps (cost_at costs) num den) s k }
    ensures by_own_levels { (reached : Reached) (costs : CostTable) (steps : Steps) (s k : ℕ)
        → IsClosureOf reached costs.n (StepOf steps (OwnWeak costs) (OwnStrict costs)) → s < costs.n
        → IsCountIn reached s k
        → IsCount costs.n (StepOf steps (OwnWeak costs) (OwnStrict costs)) s k }
{}

/// Notes the chosen steps from every observation.
fn note_steps<P: Revealed>(bits: &mut Grid<u64>, preference: &P, steps: Steps)
    requires rows { length bits.old.rows ≡ P.count preference.now }
    requires enough { P.count preference.now ≤ bits.old.cols * 64 }
    requires clear { (s t : ℕ) → has_bit bits.old s t ≡ false }
    ensures count { length bits.new.rows ≡ length bits.old.rows }
    ensures cols { bits.new.cols ≡ bits.old.cols }
    ensures exact { (s t : ℕ) → s < P.count preference.now → IsTrue (has_bit bits.new s t)
        ↔ ((t < P.count preference.now)
        × StepOf steps (P.weak preference.now) (P.strict preference.now) s t) }
{
    for s in 0..preference.n() {
        note_steps_from(bits, preference, steps, s);
    }
}

/// Notes the chosen steps from `s`, a word at a time.
fn note_steps_from<P: Revealed>(bits: &mut Grid<u64>, preference: &P, steps: Steps, s: u32)
    requires rows { length bits.old.rows ≡ P.count preference.now }
    requires enough { P.count preference.now ≤ bits.old.cols * 64 }
    requires from { s < P.count preference.now }
    requires clear { (t : ℕ) → has_bit bits.old s t ≡ false }
    ensures count { length bits.new.rows ≡ length bits.old.rows }
    ensures cols { bits.new.cols ≡ bits.old.cols }
    ensures row { (t : ℕ) → IsTrue (has_bit bits.new s t)
        ↔ ((t < P.count preference.now)
        × StepOf steps (P.weak preference.now) (P.strict preference.now) s t) }
    ensures others { (a t : ℕ) → a ≢ s → has_bit bits.new a t ≡ has_bit bits.old a t }
{
    for place in 0..words_for(preference.n()) {
        let word = steps_in_word(preference, steps, s, place);
        set_word(bits, s, place, word);
    }
}

/// The chosen steps from `s` to the observations whose bits are in word `place`.
fn steps_in_word<P: Revealed>(preference: &P, steps: Steps, s: u32, place: u32) -> u64
    requires from { s < P.count preference.now }
    requires place { place * 64 < P.count preference.now }
    ensures { IsWordOf place (P.count preference.now)
        (StepOf steps (P.weak preference.now) (P.strict preference.now) s) result }
{
    match steps {
        Steps::Weak => weak_in_word(preference, s, place),
        Steps::Strict => strict_in_word(preference, s, place),
    }
}

/// The weak ones.
fn weak_in_word<P: Revealed>(preference: &P, s: u32, place: u32) -> u64
    requires from { s < P.count preference.now }
    requires place { place * 64 < P.count preference.now }
    ensures { IsWordOf place (P.count preference.now) (P.weak preference.now s) result }
{
    let n = preference.n();
    let start = place * 64;
    let end = n.min(start + 64);
    let mut word = 0;
    for t in start..end {
        word |= u64::from(preference.is_weak(s, t)) << (t % 64);
    }
    word
}

/// The strict ones.
fn strict_in_word<P: Revealed>(preference: &P, s: u32, place: u32) -> u64
    requires from { s < P.count preference.now }
    requires place { place * 64 < P.count preference.now }
    ensures { IsWordOf place (P.count preference.now) (P.strict preference.now s) result }
{
    let n = preference.n();
    let start = place * 64;
    let end = n.min(start + 64);
    let mut word = 0;
    for t in start..end {
        word |= u64::from(preference.is_strict(s, t)) << (t % 64);
    }
    word
}
