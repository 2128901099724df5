//! What is found for one verdict of the homothetic test and for one bound of a program.
ghost use Rattle.std.specs.Prelude.{IfOk};
ghost use Rattle.rp_evidence.specs.BoundEvidence.{BoundHolds};
ghost use Rattle.rp_evidence.specs.Input.{input_of_table};
ghost use Rattle.rp_farkas.specs.Measure.{HasMeasure, measured};
ghost use Rattle.rp_filled.specs.InnerFound.{IsFoundBound, IsFoundHomothetic};

use rp_clauses::input::Input;
use rp_evidence::{Bound, Homothetic};
use rp_farkas::{Lp, Measure};
use rp_num::NoMemory;
use rp_rounded::rounded_homothetic;
use rp_whole_tableau::whole_bound_of;
use std::alloc::Global;

/// The verdict, or what rounded products find in place of one that is withheld.
pub(crate) fn found_homothetic(
    alloc: Global,
    input: &Input<'_>,
    stated: Homothetic,
) -> Result<Homothetic, NoMemory>
    ensures { IfOk result (IsFoundHomothetic (input_of_table input.now.table.now) stated) }
{
    prove!(input.n() > 0);
    match stated {
        Homothetic::Withheld { steps, from, to } => match rounded_homothetic(alloc, input)? {
            Some(found) => Ok(found),
            None => Ok(Homothetic::Withheld { steps, from, to }),
        },
        Homothetic::Values(values) => Ok(Homothetic::Values(values)),
        Homothetic::Cycle { start, steps } => Ok(Homothetic::Cycle { start, steps }),
    }
}

/// The bound of the program, or what a tableau over one denominator finds in place of one that is withheld.
pub(crate) fn found_bound<P: Lp>(
    alloc: Global,
    p: &P,
    measure: Measure,
    stated: Bound,
) -> Result<Bound, NoMemory>
    requires { HasMeasure (P.program p.now) measure }
    ensures { IfOk result (IsFoundBound
        (BoundHolds (P.program p.now) (measured (P.program p.now) measure)) stated) }
{
    match stated {
        Bound::Wide { step } => match whole_bound_of(alloc, p, measure)? {
            Some(found) => Ok(found),
            None => Ok(Bound::Wide { step }),
        },
        Bound::Shown { value, pair } => Ok(Bound::Shown { value, pair }),
    }
}
