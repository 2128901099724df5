//! Forged evidence on a money pump.
use rp_check_walk_levels::check_pump;
use rp_clauses::input::Input;
use rp_fit::PumpPart;
use rp_num::Seq;
use rp_table::Costs;
use rp_text::read_table;
use std::alloc::Global;
use std::process::Abort;
use std::test::Fail;
use tests_inputs::tables::{MORE_AND_LESS, NINE_TENTHS};

/// The greatest absolute value that a value may have.
const WIDTH: i128 = 1 << 121;

/// Evidence for a ratio: its numerator and denominator, a cycle and values.
type Forged = (u64, u64, &'static [u32], &'static [i128]);

/// Whether a part is accepted on the costs of a table.
fn accepts(alloc: Global, file: &str, part: &PumpPart) -> Result<bool, Fail> {
    let table = read_table(alloc, file.as_bytes())?;
    if table.levelled() {
        return Ok(false);
    }
    let costs = Costs::of(alloc, &table)?;
    Ok(check_pump(&Input::new(&table, &costs), part) == Ok(()))
}

/// The part of these.
fn part_of(alloc: Global, forged: Forged) -> Result<PumpPart, Fail> {
    let (num, den, cycle, values) = forged;
    let cycle = Seq::from_vec(Vec::from_slice(alloc, cycle)?);
    let values = Seq::from_vec(Vec::from_slice(alloc, values)?);
    Ok(PumpPart {
        num,
        den,
        cycle,
        values,
    })
}

/// Whether the evidence is accepted on the costs of a table.
fn accepts_forged(alloc: Global, file: &str, forged: Forged) -> Result<bool, Fail> {
    let part = part_of(alloc, forged)?;
    accepts(alloc, file, &part)
}

/// A table and evidence.
type Case = (&'static str, Forged);

/// Each of these is accepted, or none.
fn check_all(rt: &impl Abort, alloc: Global, cases: &[Case], want: bool) -> Result<(), Fail> {
    for i in 0..cases.len() {
        let (file, forged) = cases[i];
        let accepted = accepts_forged(alloc, file, forged)?;
        assert!(rt; accepted == want, "row {i}");
    }
    Ok(())
}

/// The ratio in lowest terms or not, up to denominators of 3 * 2^58, and values up to their width.
const HOLDING: &[Case] = &[
    (NINE_TENTHS, (1, 6, &[0, 1, 0], &[0, -20])),
    (NINE_TENTHS, (2, 12, &[1, 0, 1], &[0, -40])),
    (
        NINE_TENTHS,
        (1 << 57, 3 << 58, &[0, 1, 0], &[0, -(20 << 57)]),
    ),
    (NINE_TENTHS, (1, 6, &[0, 1, 0], &[100, 80])),
    (NINE_TENTHS, (1, 6, &[0, 1, 0], &[WIDTH, WIDTH - 20])),
    (NINE_TENTHS, (1, 6, &[0, 1, 0], &[20 - WIDTH, -WIDTH])),
    (MORE_AND_LESS, (0, 1, &[0, 0], &[0, -4])),
    (MORE_AND_LESS, (0, 1, &[1, 1], &[0, -4])),
];

/// Each of these fails in one clause alone, but for the last three.
const FAILING: &[Case] = &[
    // a denominator of 0, and one past its width
    (NINE_TENTHS, (0, 0, &[0, 1, 0], &[0, 0])),
    (
        NINE_TENTHS,
        (1 << 58, 6 << 58, &[0, 1, 0], &[0, -(20 << 58)]),
    ),
    // no walk, no step, a walk that is not closed, one past the last observation, one too long
    (NINE_TENTHS, (1, 6, &[], &[0, -20])),
    (NINE_TENTHS, (1, 6, &[0], &[0, -20])),
    (NINE_TENTHS, (1, 2, &[0, 1], &[0, 0])),
    (NINE_TENTHS, (1, 6, &[0, 2, 0], &[0, -20])),
    (NINE_TENTHS, (1, 6, &[0, 1, 0, 1, 0], &[0, -20])),
    // a step that is not weak
    (MORE_AND_LESS, (0, 1, &[0, 1, 0], &[0, -4])),
    // the ratio of costs 5, 4; 4, 5, with values that would do for it, and that of an observation alone
    (NINE_TENTHS, (1, 5, &[0, 1, 0], &[0, -15])),
    (NINE_TENTHS, (1, 6, &[0, 0], &[0, -20])),
    // a value too few, and one too many
    (NINE_TENTHS, (1, 6, &[0, 1, 0], &[20])),
    (NINE_TENTHS, (1, 6, &[0, 1, 0], &[0, -20, 0])),
    // values past their width
    (NINE_TENTHS, (1, 6, &[0, 1, 0], &[WIDTH + 1, WIDTH - 19])),
    (NINE_TENTHS, (1, 6, &[0, 1, 0], &[19 - WIDTH, -WIDTH - 1])),
    // values that do not bound the step to the second observation, and to the first
    (NINE_TENTHS, (1, 6, &[0, 1, 0], &[0, -19])),
    (NINE_TENTHS, (1, 6, &[0, 1, 0], &[0, -21])),
    // a lower ratio has no values that bound every step, and one above 1, the only with a numerator past its width, is
    // none of a walk
    (NINE_TENTHS, (1, 7, &[0, 1, 0], &[0, -20])),
    (NINE_TENTHS, (0, 1, &[0, 0], &[0, 0])),
    (NINE_TENTHS, ((1 << 60) + 1, 1, &[0, 1, 0], &[0, 0])),
];

#[test]
fn evidence_that_holds_and_that_fails(rt: HostRuntime) -> Result<(), Fail> {
    check_all(&rt, rt.alloc(), HOLDING, true)?;
    check_all(&rt, rt.alloc(), FAILING, false)
}
