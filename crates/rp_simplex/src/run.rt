//! The run from tableau 0 to its end.
ghost use Rattle.rp_simplex.specs.Outcome.{IsOutcome};
ghost use Rattle.rp_simplex.specs.SameOutcome.{IsSameOutcome};
ghost use Rattle.rp_simplex.specs.Evidence.{IsEvidence};
ghost use Rattle.rp_simplex.specs.ReadProgram.{program_in};
ghost use Rattle.rp_simplex.specs.InnerReady.{IsReady};

use crate::choice::leaving_row;
use crate::outcome::Outcome;
use crate::pivot::pivot_at;
use crate::pricing::entering_column;
use crate::readout::{point, prices, ray};
use crate::room::Room;
use crate::stage::Stage;
use rp_farkas::Pair;

/// Runs from tableau 0 to the end, and lists the outcome in the room that is there for it.
pub fn run(first: Stage, room: Room) -> Outcome
    requires { IsReady first room }
    ensures outcome { IsOutcome (program_in first.columns) result }
    ensures only { (other : Outcome)
        → IsOutcome (program_in first.columns) other
        → IsSameOutcome (program_in first.columns) result other }
    ensures evidence { IsEvidence (program_in first.columns) result }
{
    let cols = first.width - 1 - first.rows;
    let mut t = first;
    let mut step: u64 = 0;
    loop {
        let Some(column) = entering_column(&t) else {
            let y = point(&t, room.point, cols);
            let x = prices(&t, room.prices);
            return Outcome::Optimal(Pair { den: t.den, y, x });
        };
        let Some(row) = leaving_row(&t, column) else {
            let point = point(&t, room.point, cols);
            let ray = ray(&t, room.ray, column, cols);
            return Outcome::Unbounded {
                den: t.den,
                point,
                ray,
            };
        };
        step = step.saturating_add(1);
        let Some(next) = pivot_at(t, row, column) else {
            return Outcome::Wide { step };
        };
        t = next;
    }
}
