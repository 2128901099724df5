//! The answer of `fit`.
ghost use Rattle.std.specs.Prelude.{◌≡◌, [], IfOk};
ghost use Rattle.rp_check.specs.declared.verdict.Verdict.TheVariants.{Accepted};
ghost use Rattle.rp_check_goodness.specs.FitVerdict.{IsFitVerdict};
ghost use Rattle.rp_evidence.specs.Input.{input_of_table};
ghost use Rattle.rp_fit_answers.specs.IndicesText.{IsIndicesText, printed_text};

use rp_clauses::input::Input;
use rp_fit::FitItem;
use rp_fit_find::find_fit;
use rp_fit_report::report_fit;
use rp_front::{Answer, Status};
use rp_json_fit::write_fit;
use rp_num::NoMemory;
use rp_table::{Costs, Table};
use std::alloc::Global;

/// The indices of a table with their evidence, as a report or as JSON.
pub(crate) fn indices_answer(alloc: Global, table: &Table, json: bool) -> Result<Answer, NoMemory>
    ensures { IfOk result (λ answer. IsIndicesText json table.now answer.status answer.text.items
        × (answer.told.items ≡ [])) }
{
    let costs = Costs::of(alloc, table)?;
    let input = Input::new(table, &costs);
    let items = find_fit(alloc, &input)?;
    let text = text_of(alloc, &input, items.as_slice(), json)?;
    Ok(Answer {
        status: Status::Done,
        text,
        told: Vec::new(alloc),
    })
}

/// The text of a certificate that the checker accepts: JSON, or a report.
fn text_of(
    alloc: Global,
    input: &Input<'_>,
    items: &[FitItem],
    json: bool,
) -> Result<Vec<u8>, NoMemory>
    requires { IsFitVerdict (input_of_table input.now.table.now) items.now Accepted }
    ensures { IfOk result (λ text. text.items
        ≡ printed_text json input.now.table.now items.now) }
{
    if json {
        write_fit(alloc, items)
    } else {
        report_fit(alloc, input, items)
    }
}
