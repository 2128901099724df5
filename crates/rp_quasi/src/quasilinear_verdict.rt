//! The quasilinear test.
ghost use Rattle.std.specs.Prelude.{IfOk};
ghost use Rattle.rp_evidence.specs.Quasilinear.{ProvesQuasilinear};
ghost use Rattle.rp_people.specs.Says.{SaysQuasilinear};
ghost use Rattle.rp_people.specs.TablesOfCosts.{OfEachTable};
ghost use Rattle.rp_quasi.specs.QuasilinearVerdict.{IsQuasilinearVerdict};
ghost use Rattle.rp_table.specs.Cost.{cost_at};

use crate::sums::Sums;
use rp_evidence::Quasi;
use rp_limits::table::RECORDS;
use rp_num::NoMemory;
use rp_table::Costs;
use rp_walk::{Settled, settle};
use std::alloc::Global;

/// The least sums over all walks as values, or instead a closed walk with a negative sum.
pub fn quasilinear(alloc: Global, costs: &Costs) -> Result<Quasi, NoMemory>
    ensures verdict { IfOk result (IsQuasilinearVerdict costs.now.n (cost_at costs.now)) }
    ensures proves { IfOk result (ProvesQuasilinear costs.now.n (cost_at costs.now)) }
    ensures says { IfOk result (λ verdict.
        OfEachTable costs.now (λ input. SaysQuasilinear input verdict)) }
{
    // As many steps as there are observations, of less than 2^51 each, stay far within an `i128`.
    let n = costs.n();
    prove!(n <= RECORDS);
    let sums = Sums { costs };
    match settle(alloc, &sums)? {
        Settled::Values(values) => Ok(Quasi::Values(values)),
        Settled::Cycle { start: _, steps } => Ok(Quasi::Cycle(steps)),
        Settled::Wide { .. } => unreachable!(),
    }
}
