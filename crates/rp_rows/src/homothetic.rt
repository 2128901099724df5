//! How the homothetic test of a household is answered.
ghost use Rattle.std.specs.Prelude.{IfOk};
ghost use Rattle.rp_evidence.specs.Input.{input_of_table};
ghost use Rattle.rp_evidence.specs.Proves.{Proves};
ghost use Rattle.rp_evidence.specs.declared.certificate.Item.TheVariants.{Homothetic as HomotheticItem};
ghost use Rattle.rp_evidence.specs.declared.homothetic.Homothetic.{Homothetic};
ghost use Rattle.rp_rows.specs.Verdicts.{given_as_stated};
ghost use Rattle.rp_table.specs.Cost.{IsCostsOf};
ghost use Rattle.rp_table.specs.Tables.{Observations};

use rp_evidence::Homothetic;
use rp_homo::homothetic;
use rp_num::NoMemory;
use rp_table::{Costs, Table};
use std::alloc::Global;

/// How the homothetic test is answered: what is computed as it stands, or with what else is found where that is
/// withheld.
pub trait HomotheticTest {
    /// Which evidence is given on a table.
    ghost given: { Observations → Homothetic → Type 0 };

    /// The evidence on a table, of which these are the costs.
    fn verdict(alloc: Global, table: &Table, costs: &Costs) -> Result<Homothetic, NoMemory>
        requires { IsCostsOf costs.now table.now }
        ensures proves { IfOk result (λ found.
            Proves (input_of_table table.now) (HomotheticItem found)) }
        ensures given { IfOk result (given table.now) };
}

/// What is computed, as it stands.
pub struct AsStated;

impl HomotheticTest for AsStated {
    ghost given = { given_as_stated };

    fn verdict(alloc: Global, _table: &Table, costs: &Costs) -> Result<Homothetic, NoMemory> {
        let found = homothetic(alloc, costs)?;
        Ok(found)
    }
}
