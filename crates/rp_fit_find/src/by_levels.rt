//! The quasilinear and the homothetic level.
ghost use Rattle.std.specs.Prelude.{IfOk, IfSome};
ghost use Rattle.rp_evidence.specs.Input.{input_of_table};
ghost use Rattle.rp_fit.specs.declared.item.FitItem.TheVariants as item;
ghost use Rattle.rp_fit_find.specs.InnerReady.{IsReady};

use rp_clauses::input::Input;
use rp_fit::{HomotheticLevelPart, QuasilinearLevelPart};
use rp_num::NoMemory;
use rp_search_walk_levels::{search_homothetic_level, search_quasilinear_level};
use std::alloc::Global;

/// The quasilinear level, where its search gives it.
pub(crate) fn find_quasilinear_level(
    alloc: Global,
    input: &Input<'_>,
) -> Result<Option<QuasilinearLevelPart>, NoMemory>
    ensures { IfOk result (λ found. IfSome found (λ part.
        IsReady (input_of_table input.now.table.now) (item.QuasilinearLevel part))) }
{
    let found = search_quasilinear_level(alloc, input)?;
    Ok(found)
}

/// Bounds on the homothetic level, where its search gives them.
pub(crate) fn find_homothetic_level(
    alloc: Global,
    input: &Input<'_>,
) -> Result<Option<HomotheticLevelPart>, NoMemory>
    ensures { IfOk result (λ found. IfSome found (λ part.
        IsReady (input_of_table input.now.table.now) (item.HomotheticLevel part))) }
{
    let found = search_homothetic_level(alloc, input)?;
    Ok(found)
}
