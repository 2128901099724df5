//! The answer of `random`.
ghost use Rattle.std.specs.Prelude.{◌≡◌, IfOk, length};
ghost use Rattle.rp_answers.specs.ChoicesText.{IsChoicesText};
ghost use Rattle.rp_answers.specs.GeneratedText.{IsGeneratedAnswer, IsGeneratedText};
ghost use Rattle.rp_answers.specs.RandomText.{IsRandomAnswer, IsRandomText};
ghost use Rattle.rp_answers.specs.Typed.{AreTyped, AreTypedIfListed, typed};
ghost use Rattle.rp_generated.specs.Steps.{IsMostSteps};

use rp_evidence::Certificate;
use rp_generated::generated;
use rp_json::write;
use rp_num::{NoMemory, Seq};
use rp_patch::Patches;
use rp_random::random;
use rp_report::report_random;
use rp_types::Rational;
use std::alloc::Global;

/// The report on choices from budgets, or its certificate as JSON: by all their rational types where these are listed,
/// else by types that are generated, by searches of at most `most` steps.
pub fn random_text(
    alloc: Global,
    patches: &Patches,
    types: &Option<Seq<Rational>>,
    json: bool,
    most: u64,
) -> Result<Vec<u8>, NoMemory>
    requires typed { AreTypedIfListed patches.now types.now }
    requires most { IsMostSteps most }
    ensures { IfOk result (λ text. IsChoicesText json most patches.now types.now text.items) }
{
    match types {
        Some(types) => listed_text(alloc, patches, types, json),
        None => generated_text(alloc, patches, json, most),
    }
}

/// The report on choices whose rational types are listed, or its certificate as JSON.
fn listed_text(
    alloc: Global,
    patches: &Patches,
    types: &Seq<Rational>,
    json: bool,
) -> Result<Vec<u8>, NoMemory>
    requires { AreTyped (typed patches.now types.now) }
    ensures { IfOk result (λ text. IsRandomText json (typed patches.now types.now) text.items) }
{
    let certificate = random_answer(alloc, patches, types)?;
    if json {
        write(alloc, &certificate)
    } else {
        let count = count_of(patches, types);
        report_random(alloc, &certificate, patches, Some(count))
    }
}

/// How many rational types are listed.
fn count_of(_patches: &Patches, types: &Seq<Rational>) -> u32
    requires { AreTyped (typed _patches.now types.now) }
    ensures { result ≡ length (typed _patches.now types.now).types }
{
    types.as_slice().len() as u32
}

/// The certificate on choices whose rational types are listed.
fn random_answer(
    alloc: Global,
    patches: &Patches,
    types: &Seq<Rational>,
) -> Result<Certificate, NoMemory>
    requires { AreTyped (typed patches.now types.now) }
    ensures { IfOk result (IsRandomAnswer (typed patches.now types.now)) }
{
    prove!(patches.budgets() >= 1);
    let evidence = random(alloc, patches, types)?;
    let certificate = Certificate::of_random(alloc, patches.total(), evidence)?;
    Ok(certificate)
}

/// The report on choices whose rational types are not listed, or its certificate as JSON.
fn generated_text(
    alloc: Global,
    patches: &Patches,
    json: bool,
    most: u64,
) -> Result<Vec<u8>, NoMemory>
    requires { IsMostSteps most }
    ensures { IfOk result (λ text. IsGeneratedText json most patches.now text.items) }
{
    let certificate = generated_answer(alloc, patches, most)?;
    if json {
        write(alloc, &certificate)
    } else {
        report_random(alloc, &certificate, patches, None)
    }
}

/// The certificate on choices whose rational types are not listed.
fn generated_answer(alloc: Global, patches: &Patches, most: u64) -> Result<Certificate, NoMemory>
    requires { IsMostSteps most }
    ensures { IfOk result (IsGeneratedAnswer most patches.now) }
{
    prove!(patches.budgets() >= 1);
    let evidence = generated(alloc, patches, most)?;
    let certificate = Certificate::of_random(alloc, patches.total(), evidence)?;
    Ok(certificate)
}
