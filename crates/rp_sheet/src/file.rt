//! One frame for every kind of file of numbers: what a kind has to say of itself, and how such a file is read.
ghost use Rattle.std.specs.Prelude.{◌≡◌, ℕ, List, Ok, IfOk};
ghost use Rattle.rp_num.specs.declared.decimal.Decimal.{Decimal};
ghost use Rattle.rp_forms.specs.declared.form.Form.{Form};
ghost use Rattle.rp_sheet.specs.Records.{records_in};
ghost use Rattle.rp_sheet.specs.Refusals.{RefusedAs};
ghost use Rattle.rp_sheet.specs.SheetFiles.{IsFaultlessSheet, denoted_by};

use crate::TableFault;
use crate::records::Records;
use crate::sheet::{Sheet, read_sheet};
use rp_forms::Form;
use rp_num::NoMemory;
use rp_table::Name;
use std::alloc::Global;

/// A kind of file of numbers, with what it is read beside.
pub trait FileKind {
    /// What such a file says.
    type Value;

    /// What such files have.
    ghost form: { Self → Form };

    /// The goods that such a file has to name, where they are fixed.
    ghost goods: { Self → List (List ℕ) };

    /// What numbers under these headers say.
    ghost value: { Self → List (List ℕ) → List (List Decimal) → Self.Value };

    /// What holds of every value that is read.
    ghost fits: { Self → Self.Value → Type 0 };

    /// What such files have.
    fn form(&self) -> Form
        ensures { result ≡ form self.now };

    /// The goods that such a file has to name, where they are fixed.
    fn goods(&self) -> &[Name]
        ensures { result.now ≡ goods self.now };

    /// What the numbers of a sheet say that no stage refuses.
    fn make(&self, alloc: Global, sheet: &Sheet<'_>) -> Result<Self::Value, NoMemory>
        requires { IsFaultlessSheet (form self.now) (goods self.now) sheet.now.columns
            sheet.now.figures.items sheet.now.sizes.items }
        ensures exact { IfOk result (λ made. made
            ≡ value self.now sheet.now.columns.headers sheet.now.figures.items) }
        ensures fitting { IfOk result (fits self.now) };
}

/// Reads the records of a file of this kind: what it says, or its first fault.
pub fn read_kind<K: FileKind>(
    alloc: Global,
    records: &Records,
    kind: &K,
) -> Result<K::Value, TableFault>
    ensures denoted { IfOk result (λ value.
        denoted_by (K.form kind.now) (K.goods kind.now) (K.value kind.now) records.now
        ≡ Ok value) }
    ensures refused { RefusedAs result
        (denoted_by (K.form kind.now) (K.goods kind.now) (K.value kind.now) records.now) }
    ensures fitting { IfOk result (K.fits kind.now) }
{
    let form = kind.form();
    let sheet = read_sheet(alloc, &form, kind.goods(), records)?;
    Ok(kind.make(alloc, &sheet)?)
}

/// Reads the bytes of a file of this kind: what it says, or its first fault. How many records are looked at for that,
/// no clause says.
pub fn read_file<K: FileKind>(alloc: Global, bytes: &[u8], kind: &K) -> Result<K::Value, TableFault>
    ensures denoted { IfOk result (λ value.
        denoted_by (K.form kind.now) (K.goods kind.now) (K.value kind.now) (records_in bytes.now)
        ≡ Ok value) }
    ensures refused { RefusedAs result
        (denoted_by (K.form kind.now) (K.goods kind.now) (K.value kind.now)
        (records_in bytes.now)) }
    ensures fitting { IfOk result (K.fits kind.now) }
{
    let form = kind.form();
    let records = Records::of(alloc, bytes, form.most as usize + 2)?;
    read_kind(alloc, &records, kind)
}
