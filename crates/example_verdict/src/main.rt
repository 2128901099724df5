//! How the suite is called as a library: a table in memory, the verdicts on it, their certificate, and its check.
#![tactic(auto)]

mod certificate;
mod example;

ghost use Rattle.std.specs.Prelude.{◌≡◌, IfOk};
ghost use Rattle.example_verdict.specs.Answered.{IsAnswerOn, check_line};
ghost use Rattle.example_verdict.specs.Purchases.{purchases};

use certificate::certify;
use example::purchases;
use rp_check::Verdict;
use rp_num::NoMemory;
use rp_report::report;
use std::alloc::Global;
use std::process::ExitCode;

fn main(rt: HostRuntime) -> ExitCode {
    let Ok(text) = answer(rt.alloc()) else {
        return ExitCode::FAILURE;
    };
    match rt.stdout().write_all(&text) {
        Ok(()) => ExitCode::SUCCESS,
        Err(_) => ExitCode::FAILURE,
    }
}

/// The report on the example's purchases, and then what the checker says of it.
fn answer(alloc: Global) -> Result<Vec<u8>, NoMemory>
    ensures { IfOk result (λ text. IsAnswerOn purchases text.items) }
{
    let table = purchases(alloc)?;
    let made = certify(alloc, &table)?;
    let mut text = report(alloc, &made.certificate, &table)?;
    text.extend_from_slice(check_line(made.outcome))?;
    Ok(text)
}

/// The line on what the checker says.
fn check_line(outcome: Verdict) -> &'static [u8]
    ensures { result.now ≡ check_line outcome }
{
    match outcome {
        Verdict::Accepted => b"accepted\n",
        Verdict::Rejected { .. } => b"rejected\n",
    }
}
