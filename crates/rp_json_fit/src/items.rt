//! The items of certificates, as JSON values and back.
ghost use Rattle.std.specs.Prelude.{◌≡◌, IfOk};
ghost use Rattle.serde_json.specs.View.{view};
ghost use Rattle.rp_json_entries.specs.Reading.{IsRead};
ghost use Rattle.rp_json_entries.specs.Values.{list_value};
ghost use Rattle.rp_json_fit.specs.FitLimits.{FitsItem};
ghost use Rattle.rp_json_fit.specs.FitValue.{fit_item_value};

use rp_fit::FitItem;
use rp_json_indices::homothetic_level::{homothetic_level_value, read_homothetic_level};
use rp_json_indices::kept::{kept_value, read_kept};
use rp_json_indices::levels::{levels_value, read_levels};
use rp_json_indices::pump::{pump_value, read_pump};
use rp_json_indices::quasilinear_level::{quasilinear_level_value, read_quasilinear_level};
use rp_json_indices::steps::{read_steps, steps_value};
use rp_json_indices::violations::{read_violations, violations_value};
use rp_json_tests::efficiency::{efficiency_value, read_efficiency};
use rp_num::NoMemory;
use serde_json::Value;
use std::alloc::Global;

/// Makes the array of the items' values.
pub(crate) fn items_value(alloc: Global, items: &[FitItem]) -> Result<Value, NoMemory>
    ensures { IfOk result (λ v. view v ≡ list_value fit_item_value items.now) }
{
    let mut values = Vec::with_capacity(alloc, items.len())?;
    for item in items {
        values.push(item_value(alloc, item)?)?;
    }
    Ok(Value::Array(values))
}

/// Makes the value of an item.
fn item_value(alloc: Global, item: &FitItem) -> Result<Value, NoMemory>
    ensures { IfOk result (λ v. view v ≡ fit_item_value item.now) }
{
    match item {
        FitItem::Violations(part) => violations_value(alloc, part),
        FitItem::Efficiency(part) => efficiency_value(alloc, part),
        FitItem::Kept(part) => kept_value(alloc, part),
        FitItem::Levels(part) => levels_value(alloc, part),
        FitItem::Steps(part) => steps_value(alloc, part),
        FitItem::Pump(part) => pump_value(alloc, part),
        FitItem::QuasilinearLevel(part) => quasilinear_level_value(alloc, part),
        FitItem::HomotheticLevel(part) => homothetic_level_value(alloc, part),
    }
}

/// The item that has this value.
pub(crate) fn read_item(alloc: Global, value: &Value) -> Result<Option<FitItem>, NoMemory>
    ensures { IfOk result (λ o. IsRead fit_item_value FitsItem (view value.now) o) }
{
    match read_violations(alloc, value)? {
        Some(violations) => return Ok(Some(FitItem::Violations(violations))),
        None => {}
    }
    match read_efficiency(alloc, value)? {
        Some(efficiency) => return Ok(Some(FitItem::Efficiency(efficiency))),
        None => {}
    }
    match read_kept(alloc, value)? {
        Some(kept) => return Ok(Some(FitItem::Kept(kept))),
        None => {}
    }
    match read_levels(alloc, value)? {
        Some(levels) => return Ok(Some(FitItem::Levels(levels))),
        None => {}
    }
    match read_steps(alloc, value)? {
        Some(steps) => return Ok(Some(FitItem::Steps(steps))),
        None => {}
    }
    match read_pump(alloc, value)? {
        Some(pump) => return Ok(Some(FitItem::Pump(pump))),
        None => {}
    }
    match read_quasilinear_level(alloc, value)? {
        Some(quasilinear_level) => return Ok(Some(FitItem::QuasilinearLevel(quasilinear_level))),
        None => {}
    }
    match read_homothetic_level(alloc, value)? {
        Some(homothetic_level) => Ok(Some(FitItem::HomotheticLevel(homothetic_level))),
        None => Ok(None),
    }
}
