//! The shares of the kinds that a point gives some weight.
ghost use Rattle.std.specs.Prelude.{◌≡◌, ◌<◌, [], All, IfOk, length, slice_index_or};
ghost use Rattle.rp_find_mixture.specs.MixtureVerdict.{shares_of};

use crate::listed::Listed;
use rp_evidence::Share;
use rp_farkas::Entry;
use rp_num::{NoMemory, Seq};
use std::alloc::Global;

/// The kind of an entry with its weight.
fn make_share<L: Listed>(alloc: Global, listed: &L, entry: &Entry) -> Result<Share, NoMemory>
    requires { entry.now.at < length (L.listed listed.now) }
    ensures { IfOk result (λ share. share ≡ record {
      patches = slice_index_or (L.listed listed.now) entry.now.at [];
      weight = entry.now.value;
    }) }
{
    let kind = Vec::from_slice(alloc, listed.kind(entry.at))?;
    Ok(Share {
        patches: Seq::from_vec(kind),
        weight: entry.value,
    })
}

/// The kinds of the entries, each with its weight.
pub fn listed_shares<L: Listed>(
    alloc: Global,
    listed: &L,
    entries: &[Entry],
) -> Result<Vec<Share>, NoMemory>
    requires { All (λ entry. entry.at < length (L.listed listed.now)) entries.now }
    ensures { IfOk result
        (λ shares. shares.items ≡ shares_of (L.listed listed.now) entries.now) }
{
    let mut shares = Vec::new(alloc);
    for entry in entries {
        shares.push(make_share(alloc, listed, entry)?)?;
    }
    Ok(shares)
}
