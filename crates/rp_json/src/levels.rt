//! The levels of a certificate as JSON.
ghost use Rattle.std.specs.Prelude.{IfOk};
ghost use Rattle.serde_json.specs.View.{view};
ghost use Rattle.rp_table.specs.OwnLevels.{IsOwnLevel};
ghost use Rattle.rp_json.specs.Denoted.{AreSomeLevels};
ghost use Rattle.rp_json_entries.specs.Reading.{IsRead};
ghost use Rattle.rp_json_entries.specs.Values.{count_value, counts_value};

use rp_json_entries::notation::Notation;
use rp_limits::table::LEVEL_SCALE;
use rp_num::{NoMemory, Seq};
use serde_json::Value;
use std::alloc::Global;

/// The level of an observation in thousandths, as it is.
struct OwnLevel;

impl Notation for OwnLevel {
    type Entry = u32;

    ghost value_of = { count_value };

    ghost fits = { IsOwnLevel };

    fn value(_alloc: Global, entry: &u32) -> Result<Value, NoMemory> {
        Ok(Value::from(*entry))
    }

    fn read(_alloc: Global, value: &Value) -> Result<Option<u32>, NoMemory> {
        match value.as_u64() {
            Some(level) if 1 <= level && level <= u64::from(LEVEL_SCALE) => Ok(Some(level as u32)),
            _ => Ok(None),
        }
    }
}

/// The levels of one or more observations that have this value.
pub(crate) fn read_some_levels(alloc: Global, value: &Value) -> Result<Option<Seq<u32>>, NoMemory>
    ensures { IfOk result (λ o. IsRead counts_value AreSomeLevels (view value.now) o) }
{
    match Seq::<OwnLevel>::read(alloc, value)? {
        Some(levels) if !levels.as_slice().is_empty() => Ok(Some(levels)),
        _ => Ok(None),
    }
}
