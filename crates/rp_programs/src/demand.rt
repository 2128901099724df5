//! The programs of a good on a new budget.
ghost use Rattle.std.specs.Prelude.{◌≡◌, ◌<◌, ◌≤◌, All, length};
ghost use Rattle.rp_evidence.specs.DemandEvidence.{budget_of};
ghost use Rattle.rp_evidence.specs.DemandPrograms.{demand_program, lower_program, upper_program};
ghost use Rattle.rp_evidence.specs.Input.{input_of_table};
ghost use Rattle.rp_farkas.specs.Limits.{IsWithinLimits};
ghost use Rattle.rp_programs.specs.InnerRightSide.{right_side};
ghost use Rattle.rp_table.specs.Tables.{goods_of, records_of};
ghost use Rattle.rp_limits.specs.declared.table.TheConstants.{RECORDS};

use rp_farkas::Lp;
use rp_table::NewBudget;

/// Which end of what a bundle on the budget can have of a good.
#[derive(Clone, Copy, Debug)]
enum Extreme {
    Least,
    Greatest,
}

/// The program whose prices have the least or the greatest of a good on a new budget: a row for each good, a column for
/// each observation below, and two for the budget. The right side is the good alone, or what the other goods cost.
#[derive(Clone, Copy, Debug)]
pub struct DemandProgram<'a> {
    budget: NewBudget<'a>,
    below: &'a [u32],
    good: u32,
    extreme: Extreme,
    ghost observed: { All (λ t. t < records_of budget.at.table.now) below.now },
    ghost few: { length below.now ≤ RECORDS },
    ghost within: { IsWithinLimits (demand_program (input_of_table budget.at.table.now)
        (budget_of budget.at.prices.now budget.m) below.now
        (right_side extreme (budget_of budget.at.prices.now budget.m) good)) },
}

impl<'a> DemandProgram<'a> {
    /// The program of the least of good `good`, from 0, over the observations that are listed as below.
    pub fn least(budget: &NewBudget<'a>, below: &'a [u32], good: u32) -> DemandProgram<'a>
        requires observed { All (λ t. t < records_of budget.now.at.table.now) below.now }
        requires few { length below.now ≤ RECORDS }
        requires good { good < goods_of budget.now.at.table.now }
        ensures { ⟦<DemandProgram<'a> as Lp>⟧.program result
            ≡ lower_program (input_of_table budget.now.at.table.now)
            (budget_of budget.now.at.prices.now budget.now.m) below.now good }
    {
        prove!(budget.at.table.goods() > 0);
        DemandProgram {
            budget: *budget,
            below,
            good,
            extreme: Extreme::Least,
        }
    }

    /// The program of the greatest of good `good`, from 0, over the observations that are listed as below.
    pub fn greatest(budget: &NewBudget<'a>, below: &'a [u32], good: u32) -> DemandProgram<'a>
        requires observed { All (λ t. t < records_of budget.now.at.table.now) below.now }
        requires few { length below.now ≤ RECORDS }
        requires good { good < goods_of budget.now.at.table.now }
        ensures { ⟦<DemandProgram<'a> as Lp>⟧.program result
            ≡ upper_program (input_of_table budget.now.at.table.now)
            (budget_of budget.now.at.prices.now budget.now.m) below.now good }
    {
        prove!(budget.at.table.goods() > 0);
        DemandProgram {
            budget: *budget,
            below,
            good,
            extreme: Extreme::Greatest,
        }
    }
}

impl Lp for DemandProgram<'_> {
    ghost use Rattle.rp_evidence.specs.DemandEvidence.{budget_of};
    ghost use Rattle.rp_evidence.specs.DemandPrograms.{demand_program};
    ghost use Rattle.rp_evidence.specs.Input.{input_of_table};
    ghost use Rattle.rp_programs.specs.InnerRightSide.{right_side};

    ghost program = { λ p. demand_program (input_of_table p.budget.at.table.now)
        (budget_of p.budget.at.prices.now p.budget.m) p.below.now
        (right_side p.extreme (budget_of p.budget.at.prices.now p.budget.m) p.good) };

    ghost within_limits = { λ p. p.within };

    fn rows(&self) -> u32 {
        self.budget.at.table.goods()
    }

    fn cols(&self) -> u32 {
        self.below.len() as u32 + 2
    }

    fn a(&self, i: u32, j: u32) -> i64 {
        let j = j as usize;
        if j < self.below.len() {
            i64::from(self.budget.at.table.price(self.below[j], i))
        } else if j == self.below.len() {
            i64::from(self.budget.at.price(i))
        } else {
            -i64::from(self.budget.at.price(i))
        }
    }

    fn b(&self, i: u32) -> i64 {
        match self.extreme {
            Extreme::Least => i64::from(i == self.good),
            Extreme::Greatest => {
                if i == self.good {
                    0
                } else {
                    i64::from(self.budget.at.price(i))
                }
            }
        }
    }

    fn c(&self, j: u32) -> i64 {
        let j = j as usize;
        if j < self.below.len() {
            self.budget.at.cost(self.below[j], self.below[j]) as i64
        } else if j == self.below.len() {
            self.budget.m as i64
        } else {
            -(self.budget.m as i64)
        }
    }
}
