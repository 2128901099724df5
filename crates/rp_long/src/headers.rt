//! The names of a long file's columns, to be found by name.
ghost use Rattle.std.specs.Prelude.{◌≡◌, ◌≢◌, ◌<◌, None, Some, IfErr, IfOk, length, map};
ghost use Rattle.indexmap.specs.IndexSet.{keys};
ghost use Rattle.rp_num.specs.Below.{first_of};
ghost use Rattle.rp_sheet.specs.Headers.{headers_of};
ghost use Rattle.rp_long.specs.LongFaults.{RefusedFor, twice_fault};

use crate::LongFault;
use indexmap::IndexSet;
use rp_forms::{number_of, trimmed};
use rp_sheet::{Records, TableFault};
use std::alloc::Global;

/// The names of the columns, no two of which are one.
pub(crate) fn read_headers<'a>(
    alloc: Global,
    records: &'a Records,
) -> Result<IndexSet<&'a [u8]>, LongFault>
    requires { 0 < length records.now }
    ensures read { IfOk result (λ headers. map (λ key. key.now) (keys headers)
        ≡ headers_of records.now) }
    ensures faultless { IfOk result (λ _. first_of (length (headers_of records.now))
        (twice_fault (headers_of records.now)) ≡ None) }
    ensures refused { RefusedFor result (first_of (length (headers_of records.now))
        (twice_fault (headers_of records.now))) }
{
    let mut headers = IndexSet::new(alloc);
    for c in 0..records.headers() {
        let header = trimmed(records.header(c));
        if headers.contains(header) {
            return Err(LongFault::Table(TableFault::TwiceNamed {
                column: number_of(c),
            }));
        }
        headers.insert(header)?;
    }
    Ok(headers)
}
