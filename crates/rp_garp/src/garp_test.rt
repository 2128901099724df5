//! The test of a table, which is made once for many questions.
ghost use Rattle.std.specs.Prelude.{IfOk};
ghost use Rattle.rp_evidence.specs.Input.{input_of_table};
ghost use Rattle.rp_people.specs.Says.{SaysOfChoices};
ghost use Rattle.rp_people.specs.TableChoices.{choices_of};
ghost use Rattle.rp_table.specs.Cost.{cost_at};
ghost use Rattle.rp_garp.specs.Test.{IsTestOf};
ghost use Rattle.rp_garp.specs.GarpVerdict.{IsOwnGarpVerdict};

use rp_evidence::Garp;
use rp_num::NoMemory;
use rp_pref::{Closure, own_verdict};
use rp_table::{Costs, Table};
use std::alloc::Global;

/// The test of a table on the generalized axiom of revealed preference (Varian 1982), which is made once and answers
/// many questions of that table: its costs, the closure of their weak steps, and the verdict with its evidence.
#[derive(Drop)]
pub struct GarpTest {
    pub costs: Costs,
    pub closure: Closure,
    pub garp: Garp,
}

impl GarpTest {
    /// The test of a table, each observation held to its own level, or to all that it spent. The verdict is that of
    /// `garp`.
    pub fn of(alloc: Global, table: &Table) -> Result<GarpTest, NoMemory>
        ensures is_test { IfOk result (IsTestOf table.now) }
        ensures given { IfOk result (λ tested. IsOwnGarpVerdict tested.costs.n
            tested.costs.levels (cost_at tested.costs) tested.garp) }
        ensures says { IfOk result (λ tested.
            SaysOfChoices (choices_of (input_of_table table.now)) tested.garp) }
    {
        prove!(table.n() >= 1);
        let costs = Costs::of(alloc, table)?;
        let closure = Closure::own(alloc, &costs)?;
        let garp = own_verdict(alloc, &costs, &closure)?;
        Ok(GarpTest {
            costs,
            closure,
            garp,
        })
    }
}
