//! Marks on observations, and lists of those that have one.
ghost use Rattle.std.specs.Prelude.{◌≤◌, ◌↔◌, IsTrue, length, take};
ghost use Rattle.rp_evidence.specs.Enumeration.{Enumerates};
ghost use Rattle.rp_evidence.specs.Marks.{IsMarked};

use rp_limits::table::RECORDS;

/// Room for something of each observation that a table may have.
pub const ROOM: usize = 512;

const _: () = prove!(ROOM == RECORDS as usize);

/// Whether the list is that of the marked observations, in increasing order.
pub fn is_marked_list(n: u32, marks: &[bool], list: &[u32]) -> bool
    requires { n ≤ length marks.now }
    ensures { IsTrue result ↔ Enumerates n (IsMarked marks.now) list.now }
{
    let mut at = 0;
    for t in 0..n {
        if marks[t as usize] {
            if at >= list.len() || list[at] != t {
                return false;
            }
            at += 1;
        }
    }
    at == list.len()
}

/// Writes the marked observations into the front of the list, in increasing order, and gives their number.
pub fn write_marked(n: u32, marks: &[bool], list: &mut [u32]) -> usize
    requires marks { n ≤ length marks.now }
    requires list { n ≤ length list.old }
    ensures few { result ≤ n }
    ensures listed { Enumerates n (IsMarked marks.now) (take result list.new) }
{
    let mut count = 0;
    for t in 0..n {
        if marks[t as usize] {
            list[count] = t;
            count += 1;
        }
    }
    count
}
