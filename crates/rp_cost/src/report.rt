//! The report on a technology.
ghost use Rattle.std.specs.Prelude.{◌≡◌, ◌++◌, ◌<◌, [], IfOk, OnOk, Some, length};
ghost use Rattle.rp_cost.specs.Axioms.{MeetsCost};
ghost use Rattle.rp_cost.specs.Report.{answer_text, answers_text, asked_text, axiom_text};
ghost use Rattle.rp_cost.specs.Report.{both_text};
ghost use Rattle.rp_cost.specs.Report.{IsProductionReport, found_text, production_head_text};
ghost use Rattle.rp_cost.specs.Report.{production_report, profit_text};
ghost use Rattle.rp_table.specs.Rows.{rows_count};

use crate::asked::Asked;
use crate::axioms::{Axiom, cost_axiom, profit_axiom};
use crate::bounds::CostBounds;
use crate::tech::Tech;
use rp_num::{NoMemory, Seq};
use rp_print::{
    Number, Ordinal, push_after, push_bound, push_bounds, push_line, push_list, push_pair_line,
};
use std::alloc::Global;

/// The report on a technology: the verdicts on its axioms, and the bounds of each asked record, in their order. The
/// list of bounds is empty where the cost axiom fails; each record is then told to have none.
pub fn report_cost(
    alloc: Global,
    tech: &Tech,
    asked: &Asked,
    bounds: &Seq<CostBounds>,
) -> Result<Vec<u8>, NoMemory>
    requires bounded { MeetsCost tech.now → length bounds.now
        ≡ rows_count asked.now.prices.prices asked.now.prices.goods }
    requires unbounded { ¬ MeetsCost tech.now → bounds.now ≡ [] }
    ensures { IfOk result
        (λ text. IsProductionReport tech.now asked.now bounds.now text.items) }
{
    let cost = cost_axiom(tech);
    let profit = profit_axiom(tech);
    let text = report_of(alloc, tech, asked, cost, profit, bounds.as_slice())?;
    Ok(text)
}

/// The report of these verdicts and bounds.
fn report_of(
    alloc: Global,
    tech: &Tech,
    asked: &Asked,
    cost: Axiom,
    profit: Option<Axiom>,
    bounds: &[CostBounds],
) -> Result<Vec<u8>, NoMemory>
    ensures { IfOk result (λ text. text.items
        ≡ production_report tech.now asked.now cost profit bounds.now) }
{
    let mut text = Vec::new(alloc);
    push_head(alloc, &mut text, tech)?;
    push_axiom(alloc, &mut text, b"cost", cost)?;
    push_profit(alloc, &mut text, profit)?;
    push_answers(alloc, &mut text, asked, bounds)?;
    Ok(text)
}

/// Appends the line on the technology: how many observations and inputs it has, and the places of its prices and
/// quantities.
fn push_head(alloc: Global, out: &mut Vec<u8>, tech: &Tech) -> Result<(), NoMemory>
    ensures { OnOk result (out.new.items ≡ out.old.items ++ production_head_text tech.now) }
{
    push_after::<Number>(alloc, out, b"technology records ", tech.count())?;
    push_after::<Number>(alloc, out, b" inputs ", tech.inputs())?;
    push_after::<Number>(alloc, out, b" places ", u32::from(tech.price_places()))?;
    push_after::<Number>(alloc, out, b" ", u32::from(tech.quantity_places()))?;
    out.push(b'\n')?;
    Ok(())
}

/// Appends the lines on the axiom of that name.
fn push_axiom(alloc: Global, out: &mut Vec<u8>, name: &[u8], verdict: Axiom) -> Result<(), NoMemory>
    ensures { OnOk result (out.new.items ≡ out.old.items ++ axiom_text name.now verdict) }
{
    out.extend_from_slice(name)?;
    match verdict {
        Axiom::Holds => push_line(out, b" holds"),
        Axiom::Pair { first, second } => {
            push_line(out, b" violated")?;
            push_after::<Ordinal>(alloc, out, b"pair ", first)?;
            push_after::<Ordinal>(alloc, out, b" ", second)?;
            out.push(b'\n')?;
            Ok(())
        }
    }
}

/// Appends the lines on the profit axiom, where the output has a price.
fn push_profit(alloc: Global, out: &mut Vec<u8>, profit: Option<Axiom>) -> Result<(), NoMemory>
    ensures { OnOk result (out.new.items ≡ out.old.items ++ profit_text profit) }
{
    match profit {
        Some(verdict) => push_axiom(alloc, out, b"profit", verdict),
        None => Ok(()),
    }
}

/// Appends the lines of each asked record.
fn push_answers(
    alloc: Global,
    out: &mut Vec<u8>,
    asked: &Asked,
    bounds: &[CostBounds],
) -> Result<(), NoMemory>
    ensures { OnOk result (out.new.items ≡ out.old.items ++ answers_text
        (rows_count asked.now.prices.prices asked.now.prices.goods) asked.now bounds.now) }
{
    for i in 0..asked.count() {
        push_answer(alloc, out, asked, bounds, i)?;
    }
    Ok(())
}

/// Appends the lines of record `i`: what is asked, and the bounds, or that there are none.
fn push_answer(
    alloc: Global,
    out: &mut Vec<u8>,
    asked: &Asked,
    bounds: &[CostBounds],
    i: u32,
) -> Result<(), NoMemory>
    requires { i < rows_count asked.now.prices.prices asked.now.prices.goods }
    ensures { OnOk result (out.new.items ≡ out.old.items ++ answer_text asked.now bounds.now i) }
{
    push_asked(alloc, out, asked.row(i), asked.y(i))?;
    match bounds.get(i as usize) {
        Some(found) => push_found(alloc, out, found),
        None => push_line(out, b" none"),
    }
}

/// Appends the prices and the output that are asked.
fn push_asked(alloc: Global, out: &mut Vec<u8>, prices: &[u32], y: u32) -> Result<(), NoMemory>
    ensures { OnOk result (out.new.items ≡ out.old.items ++ asked_text prices.now y) }
{
    out.extend_from_slice(b"bounds prices ")?;
    push_list::<Number>(alloc, out, prices)?;
    push_after::<Number>(alloc, out, b" output ", y)
}

/// Appends bounds that were found, and the pair of the one from below.
fn push_found(alloc: Global, out: &mut Vec<u8>, bounds: &CostBounds) -> Result<(), NoMemory>
    ensures { OnOk result (out.new.items ≡ out.old.items ++ found_text (Some bounds.now)) }
{
    push_both(alloc, out, bounds)?;
    out.push(b'\n')?;
    push_pair_line(alloc, out, b"lower ", &bounds.lower)
}

/// Appends both bounds.
fn push_both(alloc: Global, out: &mut Vec<u8>, bounds: &CostBounds) -> Result<(), NoMemory>
    ensures { OnOk result (out.new.items ≡ out.old.items ++ both_text bounds.now) }
{
    match bounds.upper {
        Some(upper) => push_bounds(alloc, out, &bounds.lower, upper.cost, upper.at),
        None => {
            out.extend_from_slice(b" lower ")?;
            push_bound(alloc, out, &bounds.lower)?;
            out.extend_from_slice(b" upper none")?;
            Ok(())
        }
    }
}
