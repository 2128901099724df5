//! The stage that reads the headers.
ghost use Rattle.std.specs.Prelude.{◌≡◌, ◌<◌, Some, None, true, false, IfOk, MatchOption, length};
ghost use Rattle.std.specs.Option.{option_map_or};
ghost use Rattle.rp_forms.specs.Columns.{role_of, takes};
ghost use Rattle.rp_sheet.specs.Headers.{headers_of, headers_stage};
ghost use Rattle.rp_sheet.specs.Refusals.{RefusedAt};

use crate::TableFault;
use crate::columns::Columns;
use crate::records::Records;
use rp_forms::{Form, Role, number_of, role_of, trimmed};
use std::alloc::Global;

/// The columns of a file, each under a header that such files take, and no two under the same.
pub fn read_columns<'a>(
    alloc: Global,
    form: &Form,
    records: &'a Records,
) -> Result<Columns<'a>, TableFault>
    requires { 0 < length records.now }
    ensures read { IfOk result (λ columns. columns.headers ≡ headers_of records.now) }
    ensures kind { IfOk result (λ columns. columns.form ≡ form.now) }
    ensures faultless { IfOk result
        (λ _. headers_stage form.now (headers_of records.now) ≡ None) }
    ensures refused { RefusedAt result
        (headers_stage form.now (headers_of records.now)) }
{
    let mut columns = Columns::new(alloc, form);
    for c in 0..records.headers() {
        let header = trimmed(records.header(c));
        let Some(role) = role_taken(form, header) else {
            return Err(TableFault::BadHeader {
                column: number_of(c),
            });
        };
        if columns.find(header).is_some() {
            return Err(TableFault::TwiceNamed {
                column: number_of(c),
            });
        }
        columns.push(header, role)?;
    }
    Ok(columns)
}

/// What a column with that header says, where this kind of file has it.
fn role_taken(form: &Form, header: &[u8]) -> Option<Role>
    ensures { MatchOption result (option_map_or (takes form.now)
        (role_of form.now.marks header.now) false ≡ false)
        (λ role. (role_of form.now.marks header.now ≡ Some role) × (takes form.now role ≡ true)) }
{
    match role_of(form.marks, header) {
        Some(role) if form.takes(role) => Some(role),
        _ => None,
    }
}
