//! Tests of the search by halving: the first place at which a condition holds, and how many tests find it.
use rp_effic::{Ask, first_true};
use rp_num::NoMemory;
use std::alloc::Global;
use std::process::Abort;
use std::test::Fail;

/// So many places, and the first at which a condition holds.
#[derive(Drop)]
struct Places {
    first: u32,
    size: u32,
    asks: u64,
}

impl Ask for Places {
    ghost use Rattle.std.specs.Prelude.{◌≤◌};

    ghost holds = { λ a i. a.first ≤ i };

    ghost places = { λ a. a.size };

    ghost asks = { λ a. a.asks };

    fn size(&self) -> u32 {
        self.size
    }

    fn ask(&mut self, _alloc: Global, i: u32) -> Result<bool, NoMemory> {
        self.asks += 1;
        Ok(i >= self.first)
    }
}

/// Whether this is the first place at which the condition holds, found by at most so many tests.
fn is_found(alloc: Global, first: u32, size: u32, place: u32, most: u64) -> Result<bool, Fail> {
    let mut places = Places {
        first,
        size,
        asks: 0,
    };
    let found = first_true(alloc, &mut places)?;
    Ok(found == place && places.asks <= most)
}

/// The first place at which a condition holds, how many places there are, the place that is found, and by how many
/// tests at most.
type PlaceCase = (u32, u32, u32, u64);

/// Asserts which place is found.
fn assert_places(rt: &impl Abort, alloc: Global, cases: &[PlaceCase]) -> Result<(), Fail> {
    for (first, size, place, most) in cases {
        let found = is_found(alloc, *first, *size, *place, *most)?;
        assert!(rt; found, "of {size} from {first}");
    }
    Ok(())
}

const PLACES: [PlaceCase; 11] = [
    (2, 4, 2, 3),
    (2, 2, 2, 2),
    (0, 0, 0, 0),
    (0, 1, 0, 1),
    (1, 1, 1, 1),
    (0, 4, 0, 3),
    (3, 4, 3, 3),
    (4, 4, 4, 3),
    (0, 65_281, 0, 16),
    (65_280, 65_281, 65_280, 16),
    (40_000, 65_281, 40_000, 16),
];

/// The first true place, and at most how many tests find it.
#[test]
fn the_first_true_place_and_its_tests(rt: HostRuntime) -> Result<(), Fail> {
    assert_places(&rt, rt.alloc(), &PLACES)
}
