//! Why a household has no bounds.
ghost use Rattle.std.specs.Prelude.{◌≡◌, ◌++◌, IfOk, Option};
ghost use Rattle.rp_bound_rows.specs.BoundFaults.{column_of_bound_fault, row_of_bound_fault};
ghost use Rattle.rp_bound_rows.specs.BoundFaults.{bound_fault_word, in_its_file};

use rp_num::NoMemory;
use rp_rows::Fault;
use rp_sheet::TableFault;
use std::alloc::Global;

/// Why a household has no bounds, or a record is no household's.
#[derive(Clone, Copy, Debug, PartialEq, Eq)]
pub enum BoundFault {
    /// A fault of the household, with the record and the column of the file that all households are in.
    OfHousehold(Fault),
    /// A fault of the file of new prices, beside this household's table; its record and its column are those of that file.
    OfNewPrices(TableFault),
}

impl BoundFault {
    /// The word of a fault.
    pub(crate) fn word(self, alloc: Global) -> Result<Vec<u8>, NoMemory>
        ensures { IfOk result (λ word. word.items ≡ bound_fault_word self) }
    {
        let mut word = Vec::new(alloc);
        if let BoundFault::OfNewPrices(_) = self {
            word.extend_from_slice(b"NEW: ")?;
        }
        word.extend_from_slice(self.in_its_file().word())?;
        Ok(word)
    }

    /// The record of a fault in its file, where it has one.
    pub(crate) fn row(self) -> Option<u32>
        ensures { result ≡ row_of_bound_fault self }
    {
        self.in_its_file().row()
    }

    /// The column of a fault in its file, where it has one.
    pub(crate) fn column(self) -> Option<u32>
        ensures { result ≡ column_of_bound_fault self }
    {
        self.in_its_file().column()
    }

    /// The fault in its file.
    fn in_its_file(self) -> Fault
        ensures { result ≡ in_its_file self }
    {
        match self {
            BoundFault::OfHousehold(fault) => fault,
            BoundFault::OfNewPrices(fault) => Fault::OfTable(fault),
        }
    }
}
