//! Parts of items of a certificate on a table.
use rp_evidence::Garp;
use rp_num::Seq;
use std::alloc::Global;
use std::test::Fail;

/// The list of these numbers. Observations are numbered from 0, as in code.
pub(crate) fn list(alloc: Global, numbers: &[u32]) -> Result<Seq<u32>, Fail> {
    Ok(Seq::from_vec(numbers.to_vec(alloc)?))
}

/// Ranks, or a cycle.
pub(crate) fn at(alloc: Global, ranks: bool, numbers: &[u32]) -> Result<Garp, Fail> {
    if ranks {
        return Ok(Garp::Ranks(list(alloc, numbers)?));
    }
    Ok(Garp::Cycle(list(alloc, numbers)?))
}
