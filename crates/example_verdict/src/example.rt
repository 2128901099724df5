//! The example: a table of two purchases, and what is asked of it.
ghost use Rattle.std.specs.Prelude.{◌≡◌, IfOk};
ghost use Rattle.example_verdict.specs.Purchases.{purchases};

use rp_num::NoMemory;
use rp_table::{Name, Table};
use std::alloc::Global;

/// Bread and wine, bought twice. Prices and quantities stand by purchase and then by good.
pub fn purchases(alloc: Global) -> Result<Table, NoMemory>
    ensures { IfOk result (λ table. table ≡ purchases) }
{
    let bread = Name::new(Vec::from_slice(alloc, b"bread")?);
    let wine = Name::new(Vec::from_slice(alloc, b"wine")?);
    let names = vec![in alloc; bread, wine]?;
    let prices = vec![in alloc; 1, 2, 2, 1]?;
    let quantities = vec![in alloc; 1, 2, 2, 1]?;
    Ok(Table::make(names, prices, quantities, 0, 0, None))
}
