//! The search for the greatest money pump ratio.
ghost use Rattle.std.specs.Prelude.{◌≡◌, ◌↔◌, ◌<◌, ◌∷◌, [], IfOk};
ghost use Rattle.rp_evidence.specs.Efficiency.{FailsGarp};
ghost use Rattle.rp_num.specs.Fraction.{IsCoprime};
ghost use Rattle.rp_fit.specs.MoneyPump.{IsPumpIndex};
ghost use Rattle.rp_fit.specs.PumpEvidence.{HasLeastPumpTotals, PumpHolds};
ghost use Rattle.rp_table.specs.Cost.{cost_at};

use crate::best::Best;
use crate::total::PumpTotal;
use rp_fit::PumpPart;
use rp_limits::table::RECORDS;
use rp_num::NoMemory;
use rp_table::Costs;
use rp_walk::{Settled, settle};
use std::alloc::Global;

/// The greatest money pump ratio: as a fraction in lowest terms, with a closed walk that gives away just that
/// share, and values by which none gives away more. It rises from 0 by closed walks whose total at the share that the
/// last one gave away is below 0, and ends where no walk is left (Dinkelbach 1967; Echenique, Lee and Shum 2011). Where
/// nothing is given away the walk is the first observation and itself again.
pub fn pump(alloc: Global, costs: &Costs) -> Result<PumpPart, NoMemory>
    requires no_levels { costs.now.levels ≡ [] }
    ensures index { IfOk result (λ part.
        IsPumpIndex costs.now.n (cost_at costs.now) part.num part.den) }
    ensures lowest_terms { IfOk result (λ part. IsCoprime part.num part.den) }
    ensures least { IfOk result (HasLeastPumpTotals costs.now.n (cost_at costs.now)) }
    ensures accepted { IfOk result (PumpHolds costs.now.n (cost_at costs.now)) }
    ensures resting { IfOk result (λ part. part.num ≡ 0 → part.cycle ≡ 0 ∷ 0 ∷ []) }
    ensures garp { IfOk result (λ part.
        (0 < part.num) ↔ FailsGarp costs.now.n (cost_at costs.now)) }
{
    let n = costs.n();
    prove!(n <= RECORDS);
    let mut best = Best::resting(alloc, costs)?;
    'rounds: loop {
        let total = PumpTotal {
            costs,
            num: best.num,
            den: best.den,
        };
        match settle(alloc, &total)? {
            Settled::Values(values) => {
                return Ok(PumpPart {
                    num: best.num,
                    den: best.den,
                    cycle: best.cycle,
                    values,
                });
            }
            Settled::Cycle { start: _, steps } => best = Best::of(costs, steps),
            Settled::Wide { .. } => unreachable!(),
        }
    }
}
