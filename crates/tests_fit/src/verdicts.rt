//! What the checker says of items on a table.
use crate::forged::{Forged, items_of};
use rp_check::Verdict;
use rp_check_goodness::check_fit;
use rp_clauses::input::Input;
use rp_evidence::Reason;
use rp_fit::FitItem;
use rp_fit_report::report_fit;
use rp_table::Costs;
use rp_text::read_table;
use std::alloc::Global;
use std::process::Abort;
use std::test::Fail;

/// What the checker says of items on a table. It has no clause, so that no proof computes what the text of a table
/// denotes.
pub(crate) fn verdict(alloc: Global, text: &str, items: &[FitItem]) -> Result<Verdict, Fail> {
    let table = read_table(alloc, text.as_bytes())?;
    let costs = Costs::of(alloc, &table)?;
    Ok(check_fit(&Input::new(&table, &costs), items))
}

/// The report of items. It is an error if the checker rejects them.
pub(crate) fn report_on(
    alloc: Global,
    input: &Input<'_>,
    items: &[FitItem],
) -> Result<String, Fail> {
    match check_fit(input, items) {
        Verdict::Accepted => {
            let report = report_fit(alloc, input, items)?;
            Ok(String::from_utf8_lossy(alloc, report.as_slice())?)
        }
        Verdict::Rejected { .. } => Err(Fail::new("evidence that is not accepted")),
    }
}

/// The report of items on a table.
pub(crate) fn report(alloc: Global, text: &str, items: &[FitItem]) -> Result<String, Fail> {
    let table = read_table(alloc, text.as_bytes())?;
    let costs = Costs::of(alloc, &table)?;
    report_on(alloc, &Input::new(&table, &costs), items)
}

/// A table, evidence on it, and the reason and place at which it fails.
pub(crate) type Case = (&'static str, Forged, Reason, u32);

/// What the checker says of this evidence alone.
fn verdict_alone(alloc: Global, text: &str, forged: Forged) -> Result<Verdict, Fail> {
    let items = items_of(alloc, &[forged])?;
    verdict(alloc, text, items.as_slice())
}

/// Asserts that each piece of evidence is rejected for that reason, at that place.
pub(crate) fn assert_rejected(rt: &impl Abort, alloc: Global, cases: &[Case]) -> Result<(), Fail> {
    for k in 0..cases.len() {
        let (text, forged, reason, place) = cases[k];
        let found = verdict_alone(alloc, text, forged)?;
        let rejected = Verdict::Rejected {
            item: 1,
            reason,
            place,
        };
        assert_eq!(rt; found, rejected, "case {k}");
    }
    Ok(())
}

/// Asserts that each piece of evidence is accepted.
pub(crate) fn assert_accepted(
    rt: &impl Abort,
    alloc: Global,
    cases: &[(&'static str, Forged)],
) -> Result<(), Fail> {
    for k in 0..cases.len() {
        let (text, forged) = cases[k];
        let found = verdict_alone(alloc, text, forged)?;
        assert_eq!(rt; found, Verdict::Accepted, "case {k}");
    }
    Ok(())
}
