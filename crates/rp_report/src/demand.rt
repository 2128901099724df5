//! The lines of demand at new prices.
ghost use Rattle.std.specs.Prelude.{◌≡◌, ◌+◌, ◌++◌, OnOk, codes};
ghost use Rattle.std.specs.Fmt.{decimal};
ghost use Rattle.rp_print.specs.BoundText.{bound_text};
ghost use Rattle.rp_report.specs.DemandText.{budget_line, demand_text, good_text, goods_text};
ghost use Rattle.rp_report.specs.DemandText.{inner_line};
ghost use Rattle.rp_print.specs.ListText.{line_of};

use rp_evidence::{DemandPart, GoodBounds, Point};
use rp_num::{NoMemory, print_u128};
use rp_print::{
    LongNumber, Number, push_after, push_bound, push_line, push_list, push_numbers_over,
    push_ordinals, push_pair_line,
};
use std::alloc::Global;

/// Appends the lines of demand at new prices.
pub(crate) fn push_demand(
    alloc: Global,
    out: &mut Vec<u8>,
    prices: &[u32],
    m: u64,
    evidence: &DemandPart,
) -> Result<(), NoMemory>
    ensures { OnOk result (out.new.items ≡ out.old.items ++ demand_text prices.now m evidence.now) }
{
    push_budget(alloc, out, prices, m)?;
    match evidence {
        DemandPart::Bounds {
            below,
            strict,
            inner,
            goods,
        } => {
            push_ordinals(alloc, out, b"below ", below.as_slice())?;
            push_ordinals(alloc, out, b"strict ", strict.as_slice())?;
            push_inner(alloc, out, inner)?;
            push_goods(alloc, out, goods.as_slice())
        }
        DemandPart::NoModel(walk) => {
            push_line(out, b"none")?;
            push_ordinals(alloc, out, b"cycle ", walk.as_slice())
        }
    }
}

/// Appends the line of the new budget.
fn push_budget(alloc: Global, out: &mut Vec<u8>, prices: &[u32], m: u64) -> Result<(), NoMemory>
    ensures { OnOk result (out.new.items ≡ out.old.items ++ budget_line prices.now m) }
{
    out.extend_from_slice(b"demand prices ")?;
    push_list::<Number>(alloc, out, prices)?;
    push_after::<LongNumber>(alloc, out, b" expenditure ", m)?;
    out.push(b'\n')?;
    Ok(())
}

/// Appends the line of the demand that is always there.
fn push_inner(alloc: Global, out: &mut Vec<u8>, inner: &Point) -> Result<(), NoMemory>
    ensures { OnOk result (out.new.items ≡ out.old.items ++ inner_line inner.now) }
{
    push_numbers_over(alloc, out, b"inner ", inner.num.as_slice(), inner.den)
}

/// Appends the bounds of all goods.
fn push_goods(alloc: Global, out: &mut Vec<u8>, goods: &[GoodBounds]) -> Result<(), NoMemory>
    ensures { OnOk result (out.new.items ≡ out.old.items ++ goods_text 0 goods.now) }
{
    let mut good: usize = 0;
    for bounds in goods {
        push_good(alloc, out, good, bounds)?;
        good += 1;
    }
    Ok(())
}

/// Appends the bounds of a good, and their pairs.
fn push_good(
    alloc: Global,
    out: &mut Vec<u8>,
    good: usize,
    bounds: &GoodBounds,
) -> Result<(), NoMemory>
    ensures { OnOk result (out.new.items ≡ out.old.items ++ good_text good bounds.now) }
{
    push_good_line(alloc, out, good, bounds)?;
    push_pair_line(alloc, out, b"lower ", &bounds.lower)?;
    push_pair_line(alloc, out, b"upper ", &bounds.upper)
}

/// Appends the line of a good's bounds.
fn push_good_line(
    alloc: Global,
    out: &mut Vec<u8>,
    good: usize,
    bounds: &GoodBounds,
) -> Result<(), NoMemory>
    ensures { OnOk result (out.new.items ≡ out.old.items
        ++ line_of (codes "good " ++ decimal (good + 1)
        ++ codes " lower " ++ bound_text bounds.now.lower
        ++ codes " upper " ++ bound_text bounds.now.upper)) }
{
    out.extend_from_slice(b"good ")?;
    print_u128(alloc, out, good as u128 + 1)?;
    out.extend_from_slice(b" lower ")?;
    push_bound(alloc, out, &bounds.lower)?;
    out.extend_from_slice(b" upper ")?;
    push_bound(alloc, out, &bounds.upper)?;
    out.push(b'\n')?;
    Ok(())
}
