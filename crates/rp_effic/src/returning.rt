//! The first observation that returns to itself.
ghost use Rattle.std.specs.Prelude.{◌≡◌, IsTrue};
ghost use Rattle.rp_evidence.specs.First.{IsFirstOf};
ghost use Rattle.rp_pref.specs.Closure.{reaches_in};

use rp_pref::Closure;
use rp_table::Costs;

/// The first observation that returns to itself.
pub fn first_return(costs: &Costs, closure: &Closure) -> Option<u32>
    requires { closure.now.n ≡ costs.now.n }
    ensures { IsFirstOf costs.now.n (λ s. IsTrue (reaches_in closure.now s s)) result }
{
    for s in 0..costs.n() {
        if closure.reaches(s, s) {
            return Some(s);
        }
    }
    None
}
