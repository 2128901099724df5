//! The verdicts on a table that its costs alone decide: of the efficiency index, of the homothetic test and of the
//! quasilinear test.
ghost use Rattle.std.specs.Prelude.{IfOk};
ghost use Rattle.rp_effic.specs.EfficiencyVerdict.{IsEfficiencyVerdict};
ghost use Rattle.rp_evidence.specs.Efficiency.{ProvesEfficiency};
ghost use Rattle.rp_evidence.specs.Homothetic.{ProvesHomothetic};
ghost use Rattle.rp_evidence.specs.Quasilinear.{ProvesQuasilinear};
ghost use Rattle.rp_homo.specs.HomotheticVerdict.{IsHomotheticVerdict};
ghost use Rattle.rp_quasi.specs.QuasilinearVerdict.{IsQuasilinearVerdict};
ghost use Rattle.rp_table.specs.Cost.{cost_at};

use rp_effic::efficiency;
use rp_evidence::{Efficiency, Homothetic, Quasi};
use rp_homo::homothetic;
use rp_num::NoMemory;
use rp_quasi::quasilinear;
use rp_table::Costs;
use std::alloc::Global;

/// The verdicts that the costs of a table decide.
#[derive(Drop)]
pub(crate) struct VerdictsByCosts {
    pub efficiency: Efficiency,
    pub homothetic: Homothetic,
    pub quasilinear: Quasi,
}

/// The verdicts at these costs.
pub(crate) fn verdicts_by_costs(alloc: Global, costs: &Costs) -> Result<VerdictsByCosts, NoMemory>
    ensures efficiency_proves { IfOk result (λ made.
        ProvesEfficiency costs.now.n (cost_at costs.now) made.efficiency) }
    ensures efficiency_given { IfOk result (λ made.
        IsEfficiencyVerdict costs.now.n (cost_at costs.now) made.efficiency) }
    ensures homothetic_proves { IfOk result (λ made.
        ProvesHomothetic costs.now.n (cost_at costs.now) made.homothetic) }
    ensures homothetic_given { IfOk result (λ made.
        IsHomotheticVerdict costs.now.n (cost_at costs.now) made.homothetic) }
    ensures quasilinear_proves { IfOk result (λ made.
        ProvesQuasilinear costs.now.n (cost_at costs.now) made.quasilinear) }
    ensures quasilinear_given { IfOk result (λ made.
        IsQuasilinearVerdict costs.now.n (cost_at costs.now) made.quasilinear) }
{
    let efficiency = efficiency(alloc, costs)?;
    let homothetic = homothetic(alloc, costs)?;
    let quasilinear = quasilinear(alloc, costs)?;
    Ok(VerdictsByCosts {
        efficiency,
        homothetic,
        quasilinear,
    })
}
