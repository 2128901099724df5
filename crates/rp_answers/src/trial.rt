//! The answer of `trial`.
ghost use Rattle.std.specs.Prelude.{◌≡◌, ◌++◌, [], IfOk, OnOk};
ghost use Rattle.rp_print.specs.ListText.{line_of};
ghost use Rattle.rp_answers.specs.TrialSize.{IsTrialSize};
ghost use Rattle.rp_answers.specs.TrialLines.{garp_word, homothetic_word, quasilinear_word};
ghost use Rattle.rp_answers.specs.TrialLines.{trial_head, verdict_lines};
ghost use Rattle.rp_answers.specs.TrialText.{AreVerdicts, IsTrialTextBy};

mod table;

use crate::by_costs::verdicts_by_costs;
use crate::edition::Edition;
use rp_evidence::{Efficiency, Garp, Homothetic, Quasi};
use rp_garp::garp;
use rp_num::NoMemory;
use rp_print::{LongNumber, Number, push_after, push_line};
use rp_report::push_index;
use rp_table::{Costs, Table};
use std::alloc::Global;
pub use table::trial_table;

/// The verdicts on a table, but for Afriat's numbers.
#[derive(Drop)]
pub struct Verdicts {
    pub garp: Garp,
    pub efficiency: Efficiency,
    pub homothetic: Homothetic,
    pub quasilinear: Quasi,
}

/// The verdicts on the trial table of a seed, without their evidence.
pub fn trial_text<P: Edition>(
    alloc: Global,
    seed: u64,
    rows: u64,
    goods: u64,
) -> Result<Vec<u8>, NoMemory>
    requires { IsTrialSize rows goods }
    ensures { IfOk result (λ text. IsTrialTextBy P.printed seed rows goods text.items) }
{
    let rows = rows as u32;
    let goods = goods as u32;
    let table = trial_table(alloc, seed, rows, goods)?;
    let verdicts = verdicts_on(alloc, &table)?;
    let text = P::print_trial(alloc, seed, rows, goods, &table, verdicts)?;
    Ok(text)
}

/// The report of a trial: which one it is, and a line for each verdict.
pub fn report_trial(
    alloc: Global,
    seed: u64,
    rows: u32,
    goods: u32,
    verdicts: &Verdicts,
) -> Result<Vec<u8>, NoMemory>
    ensures { IfOk result (λ text. text.items ≡ trial_head seed rows goods ++ verdict_lines
        verdicts.now.garp verdicts.now.efficiency
        verdicts.now.homothetic verdicts.now.quasilinear) }
{
    let mut text = head(alloc, seed, rows, goods)?;
    push_verdicts(alloc, &mut text, verdicts)?;
    Ok(text)
}

/// The verdicts on a table without levels.
fn verdicts_on(alloc: Global, table: &Table) -> Result<Verdicts, NoMemory>
    requires { table.now.levels ≡ [] }
    ensures { IfOk result (λ v.
        AreVerdicts table.now v.garp v.efficiency v.homothetic v.quasilinear) }
{
    prove!(table.n() >= 1);
    let costs = Costs::of(alloc, table)?;
    let garp = garp(alloc, &costs)?;
    let others = verdicts_by_costs(alloc, &costs)?;
    Ok(Verdicts {
        garp,
        efficiency: others.efficiency,
        homothetic: others.homothetic,
        quasilinear: others.quasilinear,
    })
}

/// The line on which trial it is.
fn head(alloc: Global, seed: u64, rows: u32, goods: u32) -> Result<Vec<u8>, NoMemory>
    ensures { IfOk result (λ line. line.items ≡ trial_head seed rows goods) }
{
    let mut line = Vec::new(alloc);
    push_after::<LongNumber>(alloc, &mut line, b"trial ", seed)?;
    push_after::<Number>(alloc, &mut line, b" rows ", rows)?;
    push_after::<Number>(alloc, &mut line, b" goods ", goods)?;
    line.push(b'\n')?;
    Ok(line)
}

/// Appends a line for each verdict.
fn push_verdicts(alloc: Global, out: &mut Vec<u8>, verdicts: &Verdicts) -> Result<(), NoMemory>
    ensures { OnOk result (out.new.items ≡ out.old.items ++ verdict_lines
        verdicts.now.garp verdicts.now.efficiency
        verdicts.now.homothetic verdicts.now.quasilinear) }
{
    push_verdict(out, b"garp ", garp_word(&verdicts.garp))?;
    push_index(alloc, out, &verdicts.efficiency)?;
    push_verdict(out, b"homothetic ", homothetic_word(&verdicts.homothetic))?;
    push_verdict(
        out,
        b"quasilinear ",
        quasilinear_word(&verdicts.quasilinear),
    )?;
    Ok(())
}

/// Appends the line of a test with its verdict.
fn push_verdict(out: &mut Vec<u8>, test: &[u8], verdict: &[u8]) -> Result<(), NoMemory>
    ensures { OnOk result (out.new.items ≡ out.old.items ++ line_of (test.now ++ verdict.now)) }
{
    out.extend_from_slice(test)?;
    push_line(out, verdict)
}

fn garp_word(verdict: &Garp) -> &'static [u8]
    ensures { result.now ≡ garp_word verdict.now }
{
    match verdict {
        Garp::Ranks(_) => b"holds",
        Garp::Cycle(_) => b"violated",
    }
}

fn homothetic_word(verdict: &Homothetic) -> &'static [u8]
    ensures { result.now ≡ homothetic_word verdict.now }
{
    match verdict {
        Homothetic::Values(_) => b"holds",
        Homothetic::Cycle { .. } => b"violated",
        Homothetic::Withheld { .. } => b"withheld",
    }
}

fn quasilinear_word(verdict: &Quasi) -> &'static [u8]
    ensures { result.now ≡ quasilinear_word verdict.now }
{
    match verdict {
        Quasi::Values(_) => b"holds",
        Quasi::Cycle(_) => b"violated",
    }
}
