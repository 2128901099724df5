//! A search by halving for the first place at which a condition holds.
ghost use Rattle.std.specs.Prelude.{◌≡◌, ◌<◌, ◌≤◌, ◌↔◌, ◌+◌, ◌-◌, ◌*◌, ◌^◌, ℕ, IsTrue, IfOk};
ghost use Rattle.rp_effic.specs.Monotone.{IsFirstTrue, IsMonotone};

use rp_num::NoMemory;
use std::alloc::Global;

/// Questions at places in order: from the first place on where a condition holds, it holds at every later one. Each
/// ask is counted.
pub trait Ask {
    /// At which places the condition holds.
    ghost holds: { Self → ℕ → Type 0 };

    /// How many places there are.
    ghost places: { Self → ℕ };

    /// How often was asked.
    ghost asks: { Self → ℕ };

    /// How many places there are.
    fn size(&self) -> u32
        ensures places { result ≡ places self.now }
        ensures monotone { IsMonotone (places self.now) (holds self.now) };

    /// Whether the condition holds at place `i`.
    fn ask(&mut self, alloc: Global, i: u32) -> Result<bool, NoMemory>
        requires place { i < places self.old }
        requires countable { asks self.old < 2 ^ 64 - 1 }
        ensures value { IfOk result (λ answer. IsTrue answer ↔ holds self.old i) }
        ensures holds_stays { (j : ℕ) → holds self.new j ↔ holds self.old j }
        ensures places_stay { places self.new ≡ places self.old }
        ensures counted { asks self.new ≡ asks self.old + 1 };
}

/// The least place at which the condition holds, or the count of places where it holds at none, by halving.
pub fn first_true<A: Ask>(alloc: Global, asker: &mut A) -> Result<u32, NoMemory>
    requires { A.asks asker.old < 2 ^ 63 }
    ensures first { IfOk result (IsFirstTrue (A.places asker.old) (A.holds asker.old)) }
    ensures holds_stays { (j : ℕ) → A.holds asker.new j ↔ A.holds asker.old j }
    ensures places_stay { A.places asker.new ≡ A.places asker.old }
    ensures asks_rise { A.asks asker.old ≤ A.asks asker.new }
    ensures few_asks { 2 ^ (A.asks asker.new - A.asks asker.old)
        ≤ 2 * A.places asker.old + 1 }
{
    let mut low = 0;
    let mut high = asker.size();
    while low < high {
        let middle = low + (high - low) / 2;
        if asker.ask(alloc, middle)? {
            high = middle;
        } else {
            low = middle + 1;
        }
    }
    Ok(low)
}
