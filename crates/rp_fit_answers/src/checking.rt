//! The answer of `checkfit`.
ghost use Rattle.std.specs.Prelude.{◌≡◌, ◌++◌, [], IfOk, OnOk};
ghost use Rattle.rp_answers.specs.CheckText.{reason_name, rejected_line};
ghost use Rattle.rp_fit_answers.specs.CheckText.{IsFitCheck, accepted_line, check_line, check_status};

use rp_check::{Reason, Verdict};
use rp_check_goodness::check_fit;
use rp_clauses::input::Input;
use rp_fit::FitItem;
use rp_front::{Answer, Status};
use rp_num::NoMemory;
use rp_print::{LongNumber, Number, push_after};
use rp_table::{Costs, Table};
use std::alloc::Global;

/// What the checker says of a certificate on a table.
pub(crate) fn check_answer(
    alloc: Global,
    table: &Table,
    items: &[FitItem],
) -> Result<Answer, NoMemory>
    ensures { IfOk result (λ answer. IsFitCheck table.now items.now answer.status answer.text.items
        × (answer.told.items ≡ [])) }
{
    let costs = Costs::of(alloc, table)?;
    let outcome = check_fit(&Input::new(table, &costs), items);
    let text = check_line(alloc, items, outcome)?;
    Ok(Answer {
        status: status_of(outcome),
        text,
        told: Vec::new(alloc),
    })
}

/// How a call ends that tells this outcome.
fn status_of(outcome: Verdict) -> Status
    ensures { result ≡ check_status outcome }
{
    match outcome {
        Verdict::Accepted => Status::Done,
        Verdict::Rejected { .. } => Status::Rejected,
    }
}

/// The line on what the checker says of a certificate.
fn check_line(alloc: Global, items: &[FitItem], outcome: Verdict) -> Result<Vec<u8>, NoMemory>
    ensures { IfOk result (λ text. text.items ≡ check_line items.now outcome) }
{
    let mut text = Vec::new(alloc);
    match outcome {
        Verdict::Accepted => push_accepted(alloc, &mut text, items)?,
        Verdict::Rejected {
            item,
            reason,
            place,
        } => push_rejected(alloc, &mut text, item, reason, place)?,
    }
    Ok(text)
}

/// Appends the line on a certificate that is accepted.
fn push_accepted(alloc: Global, out: &mut Vec<u8>, items: &[FitItem]) -> Result<(), NoMemory>
    ensures { OnOk result (out.new.items ≡ out.old.items ++ accepted_line items.now) }
{
    push_after::<LongNumber>(alloc, out, b"accepted items ", items.len() as u64)?;
    out.push(b'\n')?;
    Ok(())
}

/// Appends the line on the item that is rejected, which is counted from 1, with the reason and the place.
fn push_rejected(
    alloc: Global,
    out: &mut Vec<u8>,
    item: u32,
    reason: Reason,
    place: u32,
) -> Result<(), NoMemory>
    ensures { OnOk result (out.new.items ≡ out.old.items ++ rejected_line item reason place) }
{
    push_after::<Number>(alloc, out, b"rejected item ", item)?;
    out.push(b' ')?;
    out.extend_from_slice(name_of(reason))?;
    push_after::<Number>(alloc, out, b" place ", place)?;
    out.push(b'\n')?;
    Ok(())
}

fn name_of(reason: Reason) -> &'static [u8]
    ensures { result.now ≡ reason_name reason }
{
    match reason {
        Reason::Shape => b"Shape",
        Reason::Number => b"Number",
        Reason::NotClosed => b"NotClosed",
        Reason::NotWeak => b"NotWeak",
        Reason::NoStrict => b"NoStrict",
        Reason::Order => b"Order",
        Reason::Level => b"Level",
        Reason::NotLess => b"NotLess",
        Reason::Wide => b"Wide",
        Reason::NoGarp => b"NoGarp",
        Reason::Set => b"Set",
        Reason::Point => b"Point",
        Reason::Bound => b"Bound",
        Reason::Least => b"Least",
        Reason::Dual => b"Dual",
        Reason::Units => b"Units",
        Reason::Irrational => b"Irrational",
        Reason::Levels => b"Levels",
        Reason::Steps => b"Steps",
    }
}
