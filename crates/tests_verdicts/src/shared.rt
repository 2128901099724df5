//! What these tests share: tables that are written out, and their costs, by calls that have no clause, so that a test
//! carries none of what the readers ensure.
use rp_table::{Costs, Table};
use rp_text::{TableFault, read_table};
use std::alloc::Global;
use std::test::Fail;

/// The table in a file.
pub(crate) fn table_in(alloc: Global, file: &str) -> Result<Table, TableFault> {
    read_table(alloc, file.as_bytes())
}

/// The costs of the table in a file.
pub(crate) fn costs_of(alloc: Global, file: &str) -> Result<Costs, Fail> {
    let table = table_in(alloc, file)?;
    Ok(Costs::of(alloc, &table)?)
}
