//! The memory of an outcome, taken before the run.
ghost use Rattle.std.specs.Prelude.{IfOk};
ghost use Rattle.rp_simplex.specs.InnerReady.{HasRooms};

use rp_farkas::Entry;
use rp_num::NoMemory;
use std::alloc::Global;

/// The room of every list that an outcome can need.
#[derive(Drop)]
pub struct Room {
    pub point: Vec<Entry>,
    pub ray: Vec<Entry>,
    pub prices: Vec<u64>,
}

/// The room of lists for so many rows and columns.
pub fn room_for(alloc: Global, rows: usize, cols: usize) -> Result<Room, NoMemory>
    ensures { IfOk result (λ room. HasRooms room rows cols) }
{
    let point = Vec::with_capacity(alloc, cols)?;
    let ray = Vec::with_capacity(alloc, cols)?;
    let prices = Vec::with_capacity(alloc, rows)?;
    Ok(Room { point, ray, prices })
}
