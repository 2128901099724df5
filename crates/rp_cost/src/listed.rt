//! The observations whose output is not above an asked one.
ghost use Rattle.std.specs.Prelude.{◌≡◌, ◌<◌, ◌≤◌, All, length, slice_index, take};
ghost use Rattle.rp_evidence.specs.Input.{input_of_table};
ghost use Rattle.rp_table.specs.Tables.{records_of};
ghost use Rattle.rp_producers.specs.OuterSet.{ListsNotAbove};

use crate::tech::Tech;

/// Writes the observations that made `y` or less into the front of the list, in increasing order, and gives their
/// number.
pub(crate) fn write_not_above(tech: &Tech, y: u32, list: &mut [u32]) -> usize
    requires { records_of tech.now.table ≤ length list.old }
    ensures few { result ≤ records_of tech.now.table }
    ensures room { length list.new ≡ length list.old }
    ensures listed { ListsNotAbove (input_of_table tech.now.table) (slice_index tech.now.y) y
        (take result list.new) }
    ensures observed { All (λ t. t < records_of tech.now.table) (take result list.new) }
{
    let mut count = 0;
    for t in 0..tech.count() {
        if tech.y(t) <= y {
            list[count] = t;
            count += 1;
        }
    }
    count
}
