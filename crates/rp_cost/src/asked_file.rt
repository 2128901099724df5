//! Files that are asked outputs, and their reader.
ghost use Rattle.std.specs.Prelude.{◌≡◌, Ok, IfOk};
ghost use Rattle.rp_table.specs.Tables.{goods_of};
ghost use Rattle.rp_sheet.specs.Refusals.{RefusedAs};
ghost use Rattle.rp_cost.specs.Denotation.{asked_beside};

use crate::asked::Asked;
use crate::tech::Tech;
use crate::tech_file::outputs;
use rp_forms::Form;
use rp_num::NoMemory;
use rp_sheet::{FileKind, Sheet, TableFault, numbers_under, read_file};
use rp_table::{Name, Prices};
use std::alloc::Global;

/// Reads columns `w_NAME` of prices of the technology's inputs, `y` of outputs and possibly `obs`, which says nothing.
/// Prices are scaled by 10^k, where k is the most places that one of them has, outputs as the technology's.
#[tactic(auto, unfolding(crate::specs::Denotation::denoted_asked))]
pub fn read_asked(alloc: Global, bytes: &[u8], tech: &Tech) -> Result<Asked, TableFault>
    ensures denoted { IfOk result (λ asked. asked_beside tech.now bytes.now ≡ Ok asked) }
    ensures refused { RefusedAs result (asked_beside tech.now bytes.now) }
    ensures inputs { IfOk result (λ asked. asked.prices.goods ≡ goods_of tech.now.table) }
{
    read_file(alloc, bytes, &AskedFile(tech))
}

/// The kind of files that are outputs asked of a technology.
#[derive(Drop)]
pub struct AskedFile<'t>(pub &'t Tech);

impl FileKind for AskedFile<'_> {
    ghost use Rattle.std.specs.Prelude.{◌≡◌};
    ghost use Rattle.rp_forms.specs.Forms.{asked_form};
    ghost use Rattle.rp_table.specs.Tables.{goods_of};
    ghost use Rattle.rp_cost.specs.Denotation.{asked_of};

    type Value = Asked;

    ghost form = { λ kind. asked_form kind.0.now.table.quantity_places };

    ghost goods = { λ kind. kind.0.now.table.names };

    ghost value = { λ kind. asked_of kind.0.now.table.quantity_places
        kind.0.now.table.names };

    ghost fits = { λ kind asked. asked.prices.goods ≡ goods_of kind.0.now.table };

    fn form(&self) -> Form {
        Form::asked(self.0.quantity_places())
    }

    fn goods(&self) -> &[Name] {
        self.0.names()
    }

    fn make(&self, alloc: Global, sheet: &Sheet<'_>) -> Result<Asked, NoMemory> {
        let inputs = self.0.inputs();
        let names = self.0.names();
        let sizes = sheet.sizes.as_slice();
        let prices = numbers_under(alloc, &sheet.columns, b"w_", names, sizes)?;
        let outputs = outputs(alloc, &sheet.columns, sizes)?;
        Ok(Asked::make(Prices::make(inputs, prices, Vec::new(alloc)), outputs))
    }
}
