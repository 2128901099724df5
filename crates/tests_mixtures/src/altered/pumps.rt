//! Altered evidence on a money pump.
use crate::altered::altered_pumps::{CASES, COUNT, TABLES};
use crate::altered::numbers::Numbers;
use rp_check_walk_levels::check_pump;
use rp_clauses::input::Input;
use rp_fit::PumpPart;
use rp_table::Costs;
use rp_text::read_table;
use std::alloc::Global;
use std::test::Fail;

/// Whether the next evidence is accepted on the table that it names.
fn accepted(alloc: Global, numbers: &mut Numbers) -> Result<bool, Fail> {
    let file = TABLES[numbers.next_u32() as usize % TABLES.len()];
    let table = read_table(alloc, file.as_bytes())?;
    let (num, den) = (numbers.next_u64(), numbers.next_u64());
    let cycle = numbers.list_u32(alloc)?;
    let values = numbers.list_i128(alloc)?;
    let part = PumpPart {
        num,
        den,
        cycle,
        values,
    };
    if table.levelled() {
        return Ok(false);
    }
    let costs = Costs::of(alloc, &table)?;
    Ok(check_pump(&Input::new(&table, &costs), &part) == Ok(()))
}

#[test]
fn altered_evidence_on_a_money_pump(rt: HostRuntime) -> Result<(), Fail> {
    let alloc = rt.alloc();
    let mut numbers = Numbers::of(alloc, CASES)?;
    for case in 0..COUNT {
        let accepted = accepted(alloc, &mut numbers)?;
        assert!(rt; accepted == (numbers.next() == 1), "{case}");
    }
    Ok(())
}
