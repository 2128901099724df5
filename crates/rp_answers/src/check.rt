//! The answers of `check` and `checkrandom`.
ghost use Rattle.std.specs.Prelude.{◌≡◌, ◌++◌, All, IfOk, OnOk};
ghost use Rattle.rp_evidence.specs.Kinds.{IsCertificateOf};
ghost use Rattle.rp_evidence.specs.declared.certificate.Kind.TheVariants.{Table as TableKind};
ghost use Rattle.rp_evidence.specs.declared.certificate.Kind.TheVariants.{Random as RandomKind};
ghost use Rattle.rp_answers.specs.CheckText.{IsChoicesVerdict, IsRandomCheck, IsTableCheck};
ghost use Rattle.rp_answers.specs.CheckText.{accepted_line, check_line};
ghost use Rattle.rp_answers.specs.CheckText.{check_status};
ghost use Rattle.rp_answers.specs.CheckText.{reason_name, rejected_line};
ghost use Rattle.rp_check.specs.declared.verdict.Verdict.TheVariants.{Accepted};
ghost use Rattle.rp_patch.specs.RandomEvidence.{ProvesOnPatches};
ghost use Rattle.rp_persons.specs.SaysRandom.{SaysOnPatches};

use crate::answer::Answer;
use crate::status::Status;
use rp_check::{Reason, Verdict, check, check_random, check_random_within};
use rp_evidence::{Certificate, withheld};
use rp_limits::generated::STEPS;
use rp_num::{NoMemory, Seq};
use rp_patch::Patches;
use rp_print::{LongNumber, Number, push_after};
use rp_table::{Costs, Table};
use rp_types::Rational;
use std::alloc::Global;

/// What the checker says of a certificate on a table.
pub fn check_answer(
    alloc: Global,
    table: &Table,
    certificate: &Certificate,
) -> Result<Answer, NoMemory>
    requires { IsCertificateOf TableKind certificate.now }
    ensures { IfOk result (λ answer.
        IsTableCheck table.now certificate.now answer.status answer.text.items) }
{
    let costs = Costs::of(alloc, table)?;
    let outcome = check(table, &costs, certificate);
    let text = check_line(alloc, certificate, outcome)?;
    Ok(Answer {
        status: status_of(outcome),
        text,
    })
}

/// What the checker says of a certificate on choices from budgets: within the steps of a search where their rational
/// types are not listed.
pub fn check_random_answer(
    alloc: Global,
    patches: &Patches,
    types: &Option<Seq<Rational>>,
    certificate: &Certificate,
) -> Result<Answer, NoMemory>
    requires { IsCertificateOf RandomKind certificate.now }
    ensures { IfOk result (λ answer.
        IsRandomCheck patches.now types.now certificate.now answer.status answer.text.items) }
{
    let outcome = verdict_on_choices(patches, types, certificate);
    let text = check_line(alloc, certificate, outcome)?;
    Ok(Answer {
        status: status_of(outcome),
        text,
    })
}

/// The checker's verdict on a certificate on choices from budgets.
fn verdict_on_choices(
    patches: &Patches,
    types: &Option<Seq<Rational>>,
    certificate: &Certificate,
) -> Verdict
    requires { IsCertificateOf RandomKind certificate.now }
    ensures found { IsChoicesVerdict patches.now types.now certificate.now.items result }
    ensures proves { result ≡ Accepted → All (ProvesOnPatches patches.now) certificate.now.items }
    ensures says { result ≡ Accepted → All (SaysOnPatches patches.now) certificate.now.items }
{
    match types {
        Some(_) => check_random(patches, certificate),
        None => check_random_within(patches, certificate, STEPS),
    }
}

/// How a call ends that tells this outcome.
fn status_of(outcome: Verdict) -> Status
    ensures { result ≡ check_status outcome }
{
    match outcome {
        Verdict::Accepted => Status::Done,
        Verdict::Rejected { .. } => Status::Rejected,
    }
}

/// The line on what the checker says of a certificate.
fn check_line(
    alloc: Global,
    certificate: &Certificate,
    outcome: Verdict,
) -> Result<Vec<u8>, NoMemory>
    ensures { IfOk result (λ text. text.items ≡ check_line certificate.now.items outcome) }
{
    let mut text = Vec::new(alloc);
    match outcome {
        Verdict::Accepted => push_accepted(alloc, &mut text, certificate)?,
        Verdict::Rejected {
            item,
            reason,
            place,
        } => push_rejected(alloc, &mut text, item, reason, place)?,
    }
    Ok(text)
}

/// Appends the line on a certificate that is accepted.
fn push_accepted(
    alloc: Global,
    out: &mut Vec<u8>,
    certificate: &Certificate,
) -> Result<(), NoMemory>
    ensures { OnOk result (out.new.items ≡ out.old.items ++ accepted_line certificate.now.items) }
{
    let items = certificate.items.as_slice().len() as u64;
    push_after::<LongNumber>(alloc, out, b"accepted items ", items)?;
    push_after::<Number>(alloc, out, b" withheld ", withheld(certificate))?;
    out.push(b'\n')?;
    Ok(())
}

/// Appends the line on the item that is rejected, which is counted from 1 and is 0 where the levels are not the
/// table's, with the reason and the place.
fn push_rejected(
    alloc: Global,
    out: &mut Vec<u8>,
    item: u32,
    reason: Reason,
    place: u32,
) -> Result<(), NoMemory>
    ensures { OnOk result (out.new.items ≡ out.old.items ++ rejected_line item reason place) }
{
    push_after::<Number>(alloc, out, b"rejected item ", item)?;
    out.push(b' ')?;
    out.extend_from_slice(name_of(reason))?;
    push_after::<Number>(alloc, out, b" place ", place)?;
    out.push(b'\n')?;
    Ok(())
}

fn name_of(reason: Reason) -> &'static [u8]
    ensures { result.now ≡ reason_name reason }
{
    match reason {
        Reason::Shape => b"Shape",
        Reason::Number => b"Number",
        Reason::NotClosed => b"NotClosed",
        Reason::NotWeak => b"NotWeak",
        Reason::NoStrict => b"NoStrict",
        Reason::Order => b"Order",
        Reason::Level => b"Level",
        Reason::NotLess => b"NotLess",
        Reason::Wide => b"Wide",
        Reason::NoGarp => b"NoGarp",
        Reason::Set => b"Set",
        Reason::Point => b"Point",
        Reason::Bound => b"Bound",
        Reason::Least => b"Least",
        Reason::Dual => b"Dual",
        Reason::Units => b"Units",
        Reason::Irrational => b"Irrational",
        Reason::Levels => b"Levels",
        Reason::Steps => b"Steps",
    }
}
