//! How the bounds of a household are found.
ghost use Rattle.std.specs.Prelude.{◌≡◌, ◌<◌, ℕ, List, [], IfOk};
ghost use Rattle.rp_evidence.specs.DemandEvidence.{ProvesDemand, ProvesWelfare};
ghost use Rattle.rp_evidence.specs.Input.{input_of_table};
ghost use Rattle.rp_evidence.specs.declared.demand.DemandPart.{DemandPart as DemandEvidence};
ghost use Rattle.rp_evidence.specs.declared.demand.WelfarePart.{WelfarePart as WelfareEvidence};
ghost use Rattle.rp_garp.specs.Test.{IsTestOf};
ghost use Rattle.rp_people.specs.Says.{SaysDemand, SaysWelfare};
ghost use Rattle.rp_table.specs.Limits.{IsExpenditure};
ghost use Rattle.rp_table.specs.NewPrices.{AreNewPrices};
ghost use Rattle.rp_table.specs.Tables.{Observations, goods_of, records_of};
ghost use Rattle.rp_bound_rows.specs.AsStated.{demand_as_stated, welfare_as_stated};
ghost use Rattle.rp_bound_rows.specs.SmallParts.{HasSmallDemand, HasSmallWelfare};

use rp_evidence::{DemandPart, WelfarePart};
use rp_garp::GarpTest;
use rp_num::NoMemory;
use rp_support::demand;
use rp_table::Table;
use rp_welfare::welfare;
use std::alloc::Global;

/// How bounds are found: what is computed, as it stands, or with what else is found where that is withheld.
pub trait BoundSearch {
    /// Which evidence on demand is given on a table at these prices with so much to spend.
    ghost of_demand: { Observations → List ℕ → ℕ → DemandEvidence → Type 0 };

    /// Which evidence on the money metric is given on a table at these prices, of an observation.
    ghost of_welfare: { Observations → List ℕ → ℕ → WelfareEvidence → Type 0 };

    /// The evidence on demand at these prices when `m` is spent.
    fn demand(
        alloc: Global,
        table: &Table,
        tested: &GarpTest,
        prices: &[u32],
        m: u64,
    ) -> Result<DemandPart, NoMemory>
        requires is_test { IsTestOf table.now tested.now }
        requires no_levels { table.now.levels ≡ [] }
        requires prices { AreNewPrices (goods_of table.now) prices.now }
        requires spent { IsExpenditure m }
        ensures proves { IfOk result (λ part.
            ProvesDemand (input_of_table table.now) prices.now m part) }
        ensures says { IfOk result (λ part.
            SaysDemand (input_of_table table.now) prices.now m part) }
        ensures given { IfOk result (of_demand table.now prices.now m) }
        ensures small { IfOk result HasSmallDemand };

    /// The evidence on the money metric at these prices, of observation `t`, from 0.
    fn welfare(
        alloc: Global,
        table: &Table,
        tested: &GarpTest,
        prices: &[u32],
        t: u32,
    ) -> Result<WelfarePart, NoMemory>
        requires is_test { IsTestOf table.now tested.now }
        requires no_levels { table.now.levels ≡ [] }
        requires prices { AreNewPrices (goods_of table.now) prices.now }
        requires observed { t < records_of table.now }
        ensures proves { IfOk result (λ part.
            ProvesWelfare (input_of_table table.now) prices.now t part) }
        ensures says { IfOk result (λ part.
            SaysWelfare (input_of_table table.now) prices.now t part) }
        ensures given { IfOk result (of_welfare table.now prices.now t) }
        ensures small { IfOk result HasSmallWelfare };
}

/// What is computed, as it stands.
pub struct AsStated;

impl BoundSearch for AsStated {
    ghost of_demand = { demand_as_stated };

    ghost of_welfare = { welfare_as_stated };

    fn demand(
        alloc: Global,
        table: &Table,
        tested: &GarpTest,
        prices: &[u32],
        m: u64,
    ) -> Result<DemandPart, NoMemory> {
        let part = demand(alloc, table, tested, prices, m)?;
        Ok(part)
    }

    fn welfare(
        alloc: Global,
        table: &Table,
        tested: &GarpTest,
        prices: &[u32],
        t: u32,
    ) -> Result<WelfarePart, NoMemory> {
        let part = welfare(alloc, table, tested, prices, t)?;
        Ok(part)
    }
}
