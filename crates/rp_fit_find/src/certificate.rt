//! The items of a whole certificate on goodness of fit.
ghost use Rattle.std.specs.Prelude.{All, IfOk};
ghost use Rattle.rp_check.specs.declared.verdict.Verdict.TheVariants.{Accepted};
ghost use Rattle.rp_check_goodness.specs.FitVerdict.{IsFitVerdict};
ghost use Rattle.rp_evidence.specs.Input.{input_of_table};
ghost use Rattle.rp_fit.specs.FitItems.{ProvesFit};
ghost use Rattle.rp_fit_find.specs.WholeFit.{IsWholeFit};
ghost use Rattle.rp_json_fit.specs.FitLimits.{FitsItem};

use crate::parts::Parts;
use rp_clauses::input::Input;
use rp_fit::FitItem;
use rp_num::{NoMemory, Seq};
use std::alloc::Global;

/// Each index of goodness of fit of a table, with evidence that the checker takes. What is found is within the limits in
/// which it is read back.
pub fn find_fit(alloc: Global, input: &Input<'_>) -> Result<Seq<FitItem>, NoMemory>
    ensures accepted { IfOk result (λ items.
        IsFitVerdict (input_of_table input.now.table.now) items Accepted) }
    ensures proves { IfOk result (λ items.
        All (ProvesFit (input_of_table input.now.table.now)) items) }
    ensures fits { IfOk result (λ items. All FitsItem items) }
    ensures kinds { IfOk result (IsWholeFit input.now.table.now) }
{
    let parts = Parts::find(alloc, input)?;
    let items = parts.into_items(alloc)?;
    Ok(items)
}
