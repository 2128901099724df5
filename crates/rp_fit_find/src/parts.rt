//! The parts of a whole certificate on goodness of fit.
ghost use Rattle.std.specs.Prelude.{◌≡◌, ◌≢◌, ◌↔◌, ◌++◌, ◌∷◌, [], IfOk, None};
ghost use Rattle.rp_evidence.specs.Input.{input_of_table};
ghost use Rattle.rp_fit.specs.declared.item.FitItem.TheVariants as item;
ghost use Rattle.rp_fit_find.specs.InnerReady.{AreReady, items_of};
ghost use Rattle.rp_fit_find.specs.WholeFit.{if_given};

use crate::by_costs::{find_efficiency, find_pump, find_violations};
use crate::by_levels::{find_homothetic_level, find_quasilinear_level};
use crate::by_looks::{find_kept, find_levels, find_steps};
use rp_clauses::input::Input;
use rp_evidence::Efficiency;
use rp_fit::{
    FitItem, HomotheticLevelPart, KeptPart, Lack, LevelsPart, PumpPart, QuasilinearLevelPart,
    StepsPart, ViolationsPart,
};
use rp_num::{NoMemory, Seq};
use std::alloc::Global;

/// Each index of goodness of fit of a table with its evidence.
#[derive(Drop)]
pub(crate) struct Parts {
    violations: ViolationsPart,
    efficiency: Efficiency,
    kept: KeptPart,
    mean: LevelsPart,
    squares: LevelsPart,
    steps: StepsPart,
    pump: Option<PumpPart>,
    quasilinear: Option<QuasilinearLevelPart>,
    homothetic: Option<HomotheticLevelPart>,
}

impl Parts {
    /// The parts by the search for each.
    pub(crate) fn find(alloc: Global, input: &Input<'_>) -> Result<Parts, NoMemory>
        ensures ready { IfOk result (AreReady (input_of_table input.now.table.now)) }
        ensures pump { IfOk result (λ parts.
            (parts.pump ≡ None) ↔ (input.now.table.now.levels ≢ [])) }
    {
        let violations = find_violations(input);
        let efficiency = find_efficiency(alloc, input)?;
        let kept = find_kept(alloc, input)?;
        let mean = find_levels(alloc, input, Lack::Mean)?;
        let squares = find_levels(alloc, input, Lack::Squares)?;
        let steps = find_steps(alloc, input)?;
        let pump = find_pump(alloc, input)?;
        let quasilinear = find_quasilinear_level(alloc, input)?;
        let homothetic = find_homothetic_level(alloc, input)?;
        Ok(Parts {
            violations,
            efficiency,
            kept,
            mean,
            squares,
            steps,
            pump,
            quasilinear,
            homothetic,
        })
    }

    /// The parts as items, in their order.
    pub(crate) fn into_items(self, alloc: Global) -> Result<Seq<FitItem>, NoMemory>
        ensures { IfOk result (λ items. items ≡ items_of self) }
    {
        let mut items = Vec::new(alloc);
        items.push(FitItem::Violations(self.violations))?;
        items.push(FitItem::Efficiency(self.efficiency))?;
        items.push(FitItem::Kept(self.kept))?;
        items.push(FitItem::Levels(self.mean))?;
        items.push(FitItem::Levels(self.squares))?;
        items.push(FitItem::Steps(self.steps))?;
        push_pump(&mut items, self.pump)?;
        push_quasilinear_level(&mut items, self.quasilinear)?;
        push_homothetic_level(&mut items, self.homothetic)?;
        Ok(Seq::from_vec(items))
    }
}

/// Adds the item of the money pump, where there is one.
fn push_pump(items: &mut Vec<FitItem>, given: Option<PumpPart>) -> Result<(), NoMemory>
    ensures { IfOk result (λ _. items.new.items
        ≡ items.old.items ++ if_given item.Pump given) }
{
    match given {
        Some(part) => {
            items.push(FitItem::Pump(part))?;
            Ok(())
        }
        None => Ok(()),
    }
}

/// Adds the item of the quasilinear level, where there is one.
fn push_quasilinear_level(
    items: &mut Vec<FitItem>,
    given: Option<QuasilinearLevelPart>,
) -> Result<(), NoMemory>
    ensures { IfOk result (λ _. items.new.items
        ≡ items.old.items ++ if_given item.QuasilinearLevel given) }
{
    match given {
        Some(part) => {
            items.push(FitItem::QuasilinearLevel(part))?;
            Ok(())
        }
        None => Ok(()),
    }
}

/// Adds the item of the homothetic level, where there is one.
fn push_homothetic_level(
    items: &mut Vec<FitItem>,
    given: Option<HomotheticLevelPart>,
) -> Result<(), NoMemory>
    ensures { IfOk result (λ _. items.new.items
        ≡ items.old.items ++ if_given item.HomotheticLevel given) }
{
    match given {
        Some(part) => {
            items.push(FitItem::HomotheticLevel(part))?;
            Ok(())
        }
        None => Ok(()),
    }
}
