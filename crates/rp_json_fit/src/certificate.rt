//! The JSON text of a certificate on goodness of fit.
ghost use Rattle.std.specs.Prelude.{◌≡◌, IfOk};
ghost use Rattle.serde_json.specs.View.{view};
ghost use Rattle.rp_json_fit.specs.FitValue.{fit_text, fit_value};

use crate::items::items_value;
use rp_fit::FitItem;
use rp_num::NoMemory;
use serde_json::{Value, json};
use std::alloc::Global;

#[tactic(auto, using(crate::proofs::NoFloats::certificate_has_none))]
/// The certificate with these items as JSON on one line: the compact text of its value, and a line feed.
pub fn write_fit(alloc: Global, items: &[FitItem]) -> Result<Vec<u8>, NoMemory>
    ensures { IfOk result (λ text. text.items ≡ fit_text items.now) }
{
    let value = fit_value(alloc, items)?;
    let mut text = value.to_vec(alloc)?;
    text.push(b'\n')?;
    Ok(text)
}

/// Makes the value of the certificate with these items.
pub fn fit_value(alloc: Global, items: &[FitItem]) -> Result<Value, NoMemory>
    ensures { IfOk result (λ v. view v ≡ fit_value items.now) }
{
    let items = items_value(alloc, items)?;
    Ok(json!(in alloc; {"items": items, "kind": "fit", "version": 1})?)
}
