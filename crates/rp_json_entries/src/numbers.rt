//! Numbers, observations and fractions as JSON.
ghost use Rattle.std.specs.Prelude.{◌≡◌, IfOk};
ghost use Rattle.rp_num.specs.Fraction.{Fraction};
ghost use Rattle.rp_num.specs.Spelled.{FitsSum, IsReduced};
ghost use Rattle.serde_json.specs.View.{view};
ghost use Rattle.rp_json_entries.specs.Reading.{FitsCount, FitsLong, FitsObservation};
ghost use Rattle.rp_json_entries.specs.Values.{count_value, fraction_value, natural_value};
ghost use Rattle.rp_json_entries.specs.Values.{observation_value, signed_value};

use crate::notation::Notation;
use rp_num::{Frac, NoMemory, read_frac, read_i128, read_u128};
use serde_json::Value;
use std::alloc::Global;

/// A small number as it is.
pub struct Count;

impl Notation for Count {
    type Entry = u32;

    ghost value_of = { count_value };

    ghost fits = { FitsCount };

    fn value(_alloc: Global, entry: &u32) -> Result<Value, NoMemory> {
        Ok(Value::from(*entry))
    }

    fn read(_alloc: Global, value: &Value) -> Result<Option<u32>, NoMemory> {
        match value.as_u64() {
            Some(count) if count <= u64::from(u32::MAX) => Ok(Some(count as u32)),
            _ => Ok(None),
        }
    }
}

/// An observation, which is counted from 1.
pub struct Observation;

impl Notation for Observation {
    type Entry = u32;

    ghost value_of = { observation_value };

    ghost fits = { FitsObservation };

    fn value(_alloc: Global, entry: &u32) -> Result<Value, NoMemory> {
        Ok(Value::from(u64::from(*entry) + 1))
    }

    fn read(_alloc: Global, value: &Value) -> Result<Option<u32>, NoMemory> {
        match value.as_u64() {
            Some(number) if 1 <= number && number <= u64::from(u32::MAX) => {
                Ok(Some((number - 1) as u32))
            }
            _ => Ok(None),
        }
    }
}

/// A whole number that is not negative.
pub struct Natural;

impl Notation for Natural {
    type Entry = u64;

    ghost value_of = { natural_value };

    ghost fits = { FitsLong };

    fn value(alloc: Global, entry: &u64) -> Result<Value, NoMemory> {
        Ok(Value::String(entry.to_string(alloc)?))
    }

    fn read(alloc: Global, value: &Value) -> Result<Option<u64>, NoMemory> {
        let Some(text) = value.as_str() else {
            return Ok(None);
        };
        match read_u128(alloc, text)? {
            Some(number) if number <= u128::from(u64::MAX) => Ok(Some(number as u64)),
            _ => Ok(None),
        }
    }
}

/// A small whole number that is shown as a text.
pub struct Price;

impl Notation for Price {
    type Entry = u32;

    ghost value_of = { natural_value };

    ghost fits = { FitsCount };

    fn value(alloc: Global, entry: &u32) -> Result<Value, NoMemory> {
        Ok(Value::String(entry.to_string(alloc)?))
    }

    fn read(alloc: Global, value: &Value) -> Result<Option<u32>, NoMemory> {
        let Some(text) = value.as_str() else {
            return Ok(None);
        };
        match read_u128(alloc, text)? {
            Some(number) if number <= u128::from(u32::MAX) => Ok(Some(number as u32)),
            _ => Ok(None),
        }
    }
}

/// A whole number with its sign.
pub struct Signed;

impl Notation for Signed {
    type Entry = i128;

    ghost value_of = { signed_value };

    ghost fits = { FitsSum };

    fn value(alloc: Global, entry: &i128) -> Result<Value, NoMemory> {
        Ok(Value::String(entry.to_string(alloc)?))
    }

    fn read(alloc: Global, value: &Value) -> Result<Option<i128>, NoMemory> {
        match value.as_str() {
            Some(text) => read_i128(alloc, text),
            None => Ok(None),
        }
    }
}

/// A fraction in lowest terms.
pub struct Fraction;

impl Notation for Fraction {
    type Entry = Frac;

    ghost value_of = { fraction_value };

    ghost fits = { IsReduced };

    fn value(alloc: Global, entry: &Frac) -> Result<Value, NoMemory> {
        fraction_value(alloc, entry.num(), entry.den())
    }

    fn read(alloc: Global, value: &Value) -> Result<Option<Frac>, NoMemory> {
        match value.as_str() {
            Some(text) => read_frac(alloc, text),
            None => Ok(None),
        }
    }
}

/// Makes the value of a fraction with its parts as they stand.
pub fn fraction_value(alloc: Global, num: u128, den: u128) -> Result<Value, NoMemory>
    ensures { IfOk result (λ v. view v ≡ fraction_value (record { num = num; den = den })) }
{
    let text = if den == 1 {
        num.to_string(alloc)?
    } else {
        format!(in alloc; "{num}/{den}")?
    };
    Ok(Value::String(text))
}
