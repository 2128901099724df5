//! The readers of technologies and of asked outputs.
use rp_cost::{Asked, TableFault, Tech, read_asked, read_tech};
use std::alloc::{AllocError, Global};
use std::process::Abort;
use std::test::Fail;

/// The numbers of a file, or its fault.
pub(crate) type Wanted = Result<&'static [u32], TableFault>;

/// A file and what is read of it.
type Case = (&'static str, Wanted);

/// The technology in a file. With no clause, so that no proof works out what a file that is written out denotes.
pub(crate) fn technology_in(alloc: Global, file: &str) -> Result<Tech, TableFault> {
    read_tech(alloc, file.as_bytes())
}

/// Two inputs, with two places of prices and one of quantities.
fn fine_technology(alloc: Global) -> Result<Tech, TableFault> {
    technology_in(alloc, "y,w_a,x_a,w_b,x_b\n1,0.25,1.5,2,1\n0,1,1,1,2\n")
}

/// How many inputs there are and the places of prices and quantities; then record by record the input prices, the
/// inputs, the output and its price, if there is one.
fn numbers_of(alloc: Global, tech: &Tech) -> Result<Vec<u32>, AllocError> {
    let price_places = u32::from(tech.price_places());
    let quantity_places = u32::from(tech.quantity_places());
    let head = [tech.inputs(), price_places, quantity_places];
    let mut numbers = Vec::from_slice(alloc, &head)?;
    for t in 0..tech.count() {
        numbers.extend_from_slice(tech.prices(t))?;
        numbers.extend_from_slice(tech.row(t))?;
        numbers.push(tech.y(t))?;
        if let Some(price) = tech.p(t) {
            numbers.push(price)?;
        }
    }
    Ok(numbers)
}

/// Record by record the new input prices and the output.
fn asked_numbers(alloc: Global, asked: &Asked) -> Result<Vec<u32>, AllocError> {
    let mut numbers = Vec::new(alloc);
    for i in 0..asked.count() {
        numbers.extend_from_slice(asked.row(i))?;
        numbers.push(asked.y(i))?;
    }
    Ok(numbers)
}

/// Whether these numbers were wanted.
fn are_wanted(numbers: &[u32], want: Wanted) -> bool {
    match want {
        Ok(wanted) => numbers == wanted,
        Err(_) => false,
    }
}

/// Whether this fault was wanted.
fn is_wanted(fault: TableFault, want: Wanted) -> bool {
    match want {
        Ok(_) => false,
        Err(wanted) => fault == wanted,
    }
}

/// Whether a technology is read so of a file.
pub(crate) fn reads_technology(
    alloc: Global,
    file: &str,
    want: Wanted,
) -> Result<bool, AllocError> {
    match technology_in(alloc, file) {
        Ok(tech) => Ok(are_wanted(numbers_of(alloc, &tech)?.as_slice(), want)),
        Err(fault) => Ok(is_wanted(fault, want)),
    }
}

/// Whether outputs that are asked of a technology are read so of a file.
fn reads_asked(alloc: Global, tech: &Tech, file: &str, want: Wanted) -> Result<bool, AllocError> {
    match read_asked(alloc, file.as_bytes(), tech) {
        Ok(asked) => Ok(are_wanted(asked_numbers(alloc, &asked)?.as_slice(), want)),
        Err(fault) => Ok(is_wanted(fault, want)),
    }
}

/// The technologies in these files.
fn check_technologies(rt: &impl Abort, alloc: Global, cases: &[Case]) -> Result<(), Fail> {
    for (file, want) in cases {
        let is_read = reads_technology(alloc, file, *want)?;
        assert!(rt; is_read, "{file}");
    }
    Ok(())
}

/// The outputs in these files, asked of a technology.
fn check_asked(rt: &impl Abort, alloc: Global, tech: &Tech, cases: &[Case]) -> Result<(), Fail> {
    for (file, want) in cases {
        let is_read = reads_asked(alloc, tech, file, *want)?;
        assert!(rt; is_read, "{file}");
    }
    Ok(())
}

const TECHNOLOGIES: &[Case] = &[
    (
        "y,p,w_a,x_a,w_b,x_b\n1,5,1,2,2,1\n2,4,2,2,1,2\n",
        Ok(&[2, 0, 0, 1, 2, 2, 1, 1, 5, 2, 1, 2, 2, 2, 4]),
    ),
    ("w_a,x_a,y\n1,1,0\n", Ok(&[1, 0, 0, 1, 1, 0])),
    (
        "x_a,w_b,y,x_b,w_a\n3,2,5,4,1\n",
        Ok(&[2, 0, 0, 2, 1, 4, 3, 5]),
    ),
    (
        "\u{feff}\"obs\", w_a ,x_a,y,p\r\n\"x,\ty\", 1.50 ,2,0.25,3\r\n",
        Ok(&[1, 1, 2, 15, 200, 25, 30]),
    ),
    (
        "w_a,x_a,y,p\n1,0.5,2,0.25\n2,1,0,1\n",
        Ok(&[1, 2, 1, 100, 5, 20, 25, 200, 10, 0, 100]),
    ),
    (
        "w_a,x_a,y,w_b,x_b\n1,0,1,1,1\n",
        Ok(&[2, 0, 0, 1, 1, 0, 1, 1]),
    ),
    // faults
    ("", Err(TableFault::Empty)),
    ("\n\n", Err(TableFault::Empty)),
    ("y,w_a,x_a,q_a\n", Err(TableFault::BadHeader { column: 4 })),
    ("y,w_a,x_a,m\n", Err(TableFault::BadHeader { column: 4 })),
    ("y,w,x_a\n", Err(TableFault::BadHeader { column: 2 })),
    ("Y,w_a,x_a\n", Err(TableFault::BadHeader { column: 1 })),
    ("y,w_a,w_a,z\n", Err(TableFault::TwiceNamed { column: 3 })),
    ("y,w_a,x_a,y\n", Err(TableFault::TwiceNamed { column: 4 })),
    ("y,w_a,x_b\n", Err(TableFault::Unpaired { column: 2 })),
    ("w_a,x_a,x_b\n", Err(TableFault::Unpaired { column: 3 })),
    (
        "w_a,x_a,p\n1,1,1\n",
        Err(TableFault::Unpaired { column: 0 }),
    ),
    ("y,p,obs\n1,1,1\n", Err(TableFault::Unpaired { column: 0 })),
    ("y,w_a,x_a\n", Err(TableFault::NoRecords)),
    ("y,w_a,x_a\n1,1\n", Err(TableFault::Ragged { row: 1 })),
    (
        "y,w_a,x_a\n1,1,1\n1,1,1,1\n",
        Err(TableFault::Ragged { row: 2 }),
    ),
    (
        "y,w_a,x_a\n\"1,5\",1,1\n",
        Err(TableFault::BadNumber { row: 1, column: 1 }),
    ),
    (
        "y,w_a,x_a,p\n1,1,1,-1\n",
        Err(TableFault::BadNumber { row: 1, column: 4 }),
    ),
    (
        "y,w_a,x_a\n1.1234567,1,1\n",
        Err(TableFault::TooManyDecimals { row: 1, column: 1 }),
    ),
    (
        "y,w_a,x_a,p\n1,1,1,0.0000001\n",
        Err(TableFault::TooManyDecimals { row: 1, column: 4 }),
    ),
    (
        "y,w_a,x_a\n1,0,0\n",
        Err(TableFault::ZeroPrice { row: 1, column: 2 }),
    ),
    (
        "y,p,w_a,x_a\n1,1,1,1\n1,0.00,1,1\n",
        Err(TableFault::ZeroPrice { row: 2, column: 2 }),
    ),
    ("y,w_a,x_a\n1,1,0\n", Err(TableFault::ZeroBundle { row: 1 })),
    (
        "w_a,x_a,w_b,x_b,y\n1,1,1,1,1\n1,0,1,0.0,5\n",
        Err(TableFault::ZeroBundle { row: 2 }),
    ),
    (
        "y,w_a,x_a\n10000000,1,1\n1,1,x\n",
        Err(TableFault::BadNumber { row: 2, column: 3 }),
    ),
    // scaled numbers up to the limit, and past it
    (
        "y,w_a,x_a,p\n9999999,9999999,9999999,9999999\n",
        Ok(&[1, 0, 0, 9_999_999, 9_999_999, 9_999_999, 9_999_999]),
    ),
    (
        "y,w_a,x_a,p\n0.000001,0.0000010,9.999999,9.999999\n",
        Ok(&[1, 6, 6, 1, 9_999_999, 1, 9_999_999]),
    ),
    (
        "y,w_a,x_a\n10000000,1,1\n",
        Err(TableFault::TooLarge { row: 1, column: 1 }),
    ),
    (
        "y,w_a,x_a\n1,10000000,1\n",
        Err(TableFault::TooLarge { row: 1, column: 2 }),
    ),
    (
        "y,w_a,x_a\n1,1,99999999999999999999\n",
        Err(TableFault::TooLarge { row: 1, column: 3 }),
    ),
    (
        "y,w_a,x_a,p\n1,1,1,10000000\n",
        Err(TableFault::TooLarge { row: 1, column: 4 }),
    ),
    (
        "y,w_a,x_a,p\n1,999999.9,1,1\n1,1,1,1000000\n",
        Err(TableFault::TooLarge { row: 2, column: 4 }),
    ),
    (
        "y,w_a,x_a\n0.5,1,1\n1,1,1000000\n",
        Err(TableFault::TooLarge { row: 2, column: 3 }),
    ),
    (
        "y,w_a,x_a\n1,1,0.5\n1000000,1,1\n",
        Err(TableFault::TooLarge { row: 2, column: 1 }),
    ),
];

#[test]
fn technologies_and_their_faults(rt: HostRuntime) -> Result<(), Fail> {
    check_technologies(&rt, rt.alloc(), TECHNOLOGIES)
}

/// Asked of two inputs, with two places of prices and one of quantities.
const ASKED: &[Case] = &[
    ("w_a,w_b,y\n1,2,3\n", Ok(&[1, 2, 30])),
    (
        "y,obs,w_b,w_a\n0,x,1.5,2\n0.5,,0.125,1\n",
        Ok(&[2_000, 1_500, 0, 1_000, 125, 5]),
    ),
    // faults
    ("", Err(TableFault::Empty)),
    ("w_a,w_b,y,p\n", Err(TableFault::BadHeader { column: 4 })),
    ("w_a,x_a,w_b,y\n", Err(TableFault::BadHeader { column: 2 })),
    ("w_a,w_b,y,w_b\n", Err(TableFault::TwiceNamed { column: 4 })),
    ("y\n1\n", Err(TableFault::Unpaired { column: 0 })),
    ("w_a,w_b\n1,1\n", Err(TableFault::Unpaired { column: 0 })),
    ("w_a\n1\n", Err(TableFault::Unpaired { column: 0 })),
    ("w_a,w_c\n", Err(TableFault::OtherGoods { column: 2 })),
    ("w_a,y\n1,1\n", Err(TableFault::OtherGoods { column: 0 })),
    ("w_a,w_b,y\n", Err(TableFault::NoRecords)),
    ("w_a,w_b,y\n1,1\n", Err(TableFault::Ragged { row: 1 })),
    (
        "w_a,w_b,y\n1,1,1e3\n",
        Err(TableFault::BadNumber { row: 1, column: 3 }),
    ),
    (
        "w_a,w_b,y\n1,1.0000001,1\n",
        Err(TableFault::TooManyDecimals { row: 1, column: 2 }),
    ),
    (
        "w_a,w_b,y\n1,0,1\n",
        Err(TableFault::ZeroPrice { row: 1, column: 2 }),
    ),
    (
        "w_a,w_b,y\n1,1,0.25\n1,0,1\n",
        Err(TableFault::ZeroPrice { row: 2, column: 2 }),
    ),
    (
        "w_a,w_b,y\n1,1,0.1\n1,1,0.25\n",
        Err(TableFault::TooFine { row: 2, column: 3 }),
    ),
    // scaled numbers up to the limit, and past it
    (
        "w_a,w_b,y\n9999999,1,999999.9\n",
        Ok(&[9_999_999, 1, 9_999_999]),
    ),
    ("w_a,w_b,y\n9.999999,0.000001,0.1\n", Ok(&[9_999_999, 1, 1])),
    (
        "w_a,w_b,y\n10000000,1,1\n",
        Err(TableFault::TooLarge { row: 1, column: 1 }),
    ),
    (
        "w_a,w_b,y\n0.1,1000000,1\n",
        Err(TableFault::TooLarge { row: 1, column: 2 }),
    ),
    (
        "w_a,w_b,y\n1,1,1000000\n",
        Err(TableFault::TooLarge { row: 1, column: 3 }),
    ),
];

#[test]
fn asked_outputs_and_their_faults(rt: HostRuntime) -> Result<(), Fail> {
    let tech = fine_technology(rt.alloc())?;
    check_asked(&rt, rt.alloc(), &tech, ASKED)
}

/// Whether two inputs of a technology have these names.
fn are_named(alloc: Global, file: &str, first: &str, second: &str) -> Result<bool, Fail> {
    let tech = technology_in(alloc, file)?;
    Ok(
        tech.inputs() == 2
            && tech.name(0).as_bytes() == first.as_bytes()
            && tech.name(1).as_bytes() == second.as_bytes(),
    )
}

#[test]
fn inputs_are_named_in_the_order_of_their_prices(rt: HostRuntime) -> Result<(), Fail> {
    let file = "x_a,w_long name,y,x_long name,w_a\n3,2,5,4,1\n";
    let are_named = are_named(rt.alloc(), file, "long name", "a")?;
    assert!(rt; are_named);
    Ok(())
}
