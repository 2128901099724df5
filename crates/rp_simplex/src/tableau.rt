//! Tableau 0 of a program, with the memory of its run.
ghost use Rattle.std.specs.Prelude.{IfOk};
ghost use Rattle.rp_simplex.specs.Evidence.{IsEvidence};
ghost use Rattle.rp_simplex.specs.Outcome.{IsOutcome};
ghost use Rattle.rp_simplex.specs.ReadProgram.{IsSameProgram, program_in};
ghost use Rattle.rp_simplex.specs.SameOutcome.{IsSameOutcome};

use crate::first::first_stage;
use crate::outcome::Outcome;
use crate::room::{Room, room_for};
use crate::run::run;
use crate::stage::Stage;
use rp_farkas::Lp;
use rp_num::NoMemory;
use std::alloc::Global;
use std::marker::Model;

/// Tableau 0 of a program, with all the memory that its run takes. It means the program that can be read from its
/// columns.
#[derive(Drop)]
pub struct Tableau {
    stage: Stage,
    room: Room,
}

impl Model for Tableau {
    ghost use Rattle.std.specs.Prelude.{ℤ};
    ghost use Rattle.std.specs.Coded.{coded_ℤ};
    ghost use Rattle.rp_grid.specs.Rows.{Rows, rows_code};
    ghost use Rattle.rp_simplex.specs.InnerReady.{IsReady};

    ghost Value = { Rows ℤ };

    ghost coded = { rows_code coded_ℤ };

    ghost view = { λ t. t.stage.columns };

    ghost invariant = { λ t. IsReady t.stage t.room };
}

impl Tableau {
    /// Tableau 0 of the program, and the room of every list that its outcome can need.
    pub fn of<P: Lp>(alloc: Global, p: &P) -> Result<Tableau, NoMemory>
        ensures { IfOk result (λ t. IsSameProgram (P.program p.now) (program_in t)) }
    {
        let stage = first_stage(alloc, p)?;
        let room = room_for(alloc, p.rows() as usize, p.cols() as usize)?;
        Ok(Tableau { stage, room })
    }

    /// Runs the simplex, step for step, and gives how the run ends; no memory is taken. A step is counted up to
    /// 2^64 - 1, which stands for every greater number too.
    pub fn solve(self) -> Outcome
        ensures outcome { IsOutcome (program_in self) result }
        ensures only { (other : Outcome)
            → IsOutcome (program_in self) other → IsSameOutcome (program_in self) result other }
        ensures evidence { IsEvidence (program_in self) result }
    {
        let Tableau { stage, room } = self;
        run(stage, room)
    }
}
