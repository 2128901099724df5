//! The numbers of records of any kind, with the first fault among them.
ghost use Rattle.std.specs.Prelude.{◌≡◌, ◌+◌, ◌<◌, None, IfOk, length};
ghost use Rattle.std.specs.Result.{result_err};
ghost use Rattle.rp_num.specs.Below.{first_of, listed};
ghost use Rattle.rp_sheet.specs.Fields.{RecordFaults, RefusedIn, fault_in_record};
ghost use Rattle.rp_sheet.specs.Fields.{fault_in_records, figure, figures_of};

use crate::TableFault;
use crate::columns::Columns;
use crate::records::Records;
use rp_forms::number_of;
use rp_num::{Decimal, Seq};
use std::alloc::Global;

/// A kind of record: what its fields say, and what it is refused for.
pub trait RecordKind {
    /// Why a record is refused.
    type Fault;

    /// The faults of a record.
    ghost faults: { RecordFaults Self.Fault };

    /// A fault that files of every kind have, as one of this kind.
    fn tell(fault: TableFault) -> Self::Fault
        ensures { result ≡ (Self.faults).told fault };

    /// What the field of the t-th record in column `c` says, or 0 where it is a text.
    fn read_field(
        columns: &Columns<'_>,
        records: &Records,
        t: usize,
        c: usize,
    ) -> Result<Decimal, Self::Fault>
        requires there { t + 1 < length records.now }
        requires column { c < length columns.now.headers }
        ensures read { IfOk result (λ number. number ≡ figure columns.now.form
            columns.now.headers records.now t c) }
        ensures fault { result_err result ≡ (Self.faults).field_fault columns.now.form
            columns.now.headers records.now t c };

    /// Looks at the t-th record as a whole, by the numbers of its fields.
    fn check_rest(
        columns: &Columns<'_>,
        records: &Records,
        t: usize,
        figures: &[Decimal],
    ) -> Result<(), Self::Fault>
        requires there { t + 1 < length records.now }
        requires read { figures.now ≡ listed (length columns.now.headers)
            (figure columns.now.form columns.now.headers records.now t) }
        ensures { result_err result ≡ (Self.faults).rest_fault columns.now.form
            columns.now.headers records.now t };
}

/// The numbers of all records after the headers.
pub fn read_records<K: RecordKind>(
    alloc: Global,
    columns: &Columns<'_>,
    records: &Records,
) -> Result<Vec<Seq<Decimal>>, K::Fault>
    requires { 0 < length records.now }
    ensures read { IfOk result (λ rows. rows.items ≡ figures_of columns.now.form
        columns.now.headers records.now) }
    ensures faultless { IfOk result (λ _. fault_in_records K.faults columns.now.form
        columns.now.headers records.now ≡ None) }
    ensures refused { RefusedIn K.faults result (fault_in_records K.faults columns.now.form
        columns.now.headers records.now) }
{
    let mut rows = Vec::new(alloc);
    for t in 0..records.len() - 1 {
        let row = read_record::<K>(alloc, columns, records, t)?;
        match rows.push(row) {
            Ok(()) => {}
            Err(_) => return Err(K::tell(TableFault::NoMemory)),
        }
    }
    Ok(rows)
}

/// The numbers of the t-th record after the headers, column by column.
fn read_record<K: RecordKind>(
    alloc: Global,
    columns: &Columns<'_>,
    records: &Records,
    t: usize,
) -> Result<Seq<Decimal>, K::Fault>
    requires { t + 1 < length records.now }
    ensures read { IfOk result (λ row. row ≡ listed (length columns.now.headers)
        (figure columns.now.form columns.now.headers records.now t)) }
    ensures faultless { IfOk result (λ _. fault_in_record K.faults columns.now.form
        columns.now.headers records.now t ≡ None) }
    ensures refused { RefusedIn K.faults result (fault_in_record K.faults columns.now.form
        columns.now.headers records.now t) }
{
    if records.row_width(t) != columns.len() {
        return Err(K::tell(TableFault::Ragged { row: number_of(t) }));
    }
    let figures = read_fields::<K>(alloc, columns, records, t)?;
    K::check_rest(columns, records, t, figures.as_slice())?;
    Ok(Seq::from_vec(figures))
}

/// The numbers of the t-th record after the headers, whatever its length and the rest.
fn read_fields<K: RecordKind>(
    alloc: Global,
    columns: &Columns<'_>,
    records: &Records,
    t: usize,
) -> Result<Vec<Decimal>, K::Fault>
    requires { t + 1 < length records.now }
    ensures read { IfOk result (λ row. row.items ≡ listed (length columns.now.headers)
        (figure columns.now.form columns.now.headers records.now t)) }
    ensures faultless { IfOk result (λ _. first_of (length columns.now.headers)
        ((K.faults).field_fault columns.now.form columns.now.headers records.now t) ≡ None) }
    ensures refused { RefusedIn K.faults result (first_of (length columns.now.headers)
        ((K.faults).field_fault columns.now.form columns.now.headers records.now t)) }
{
    let mut figures = Vec::new(alloc);
    for c in 0..columns.len() {
        let number = K::read_field(columns, records, t, c)?;
        match figures.push(number) {
            Ok(()) => {}
            Err(_) => return Err(K::tell(TableFault::NoMemory)),
        }
    }
    Ok(figures)
}
