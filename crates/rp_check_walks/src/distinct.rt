//! Walks that go through no observation twice.
ghost use Rattle.std.specs.Prelude.{◌<◌, ◌↔◌, IsTrue, length};
ghost use Rattle.rp_check_walks.specs.Distinct.{ArePlacesDistinct, IsUnlikeEarlier};

/// Whether no two entries but the last are the same.
pub fn are_distinct(walk: &[u32]) -> bool
    ensures { IsTrue result ↔ ArePlacesDistinct walk.now }
{
    for j in 1..walk.len() {
        if !is_unlike_earlier(walk, j - 1) {
            return false;
        }
    }
    true
}

/// Whether the entry at place `j` is none of those before it.
fn is_unlike_earlier(walk: &[u32], j: usize) -> bool
    requires { j < length walk.now }
    ensures { IsTrue result ↔ IsUnlikeEarlier walk.now j }
{
    for i in 0..j {
        if walk[i] == walk[j] {
            return false;
        }
    }
    true
}
