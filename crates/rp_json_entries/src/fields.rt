//! Several entries together, each in its own notation.
ghost use Rattle.std.specs.Prelude.{List, [], ◌∷◌, IfOk, ⊤};
ghost use Rattle.serde_json.specs.Data.{Data};
ghost use Rattle.rp_json_entries.specs.InnerMembers.{views};
ghost use Rattle.rp_json_entries.specs.Reading.{AreRead};

use crate::notation::Notation;
use rp_num::NoMemory;
use serde_json::Value;
use std::alloc::Global;

/// Several entries one after another, each in a notation of its own: `()` for none, and else the notation of the first
/// one with those of the others.
pub trait Fields {
    type Entries: Drop;

    /// The values of the entries.
    ghost listed: { Self.Entries → List Data };

    /// The limits of the entries.
    ghost fit: { Self.Entries → Type 0 };

    /// The entries that have these values.
    fn read(alloc: Global, values: &[&Value]) -> Result<Option<Self::Entries>, NoMemory>
        ensures { IfOk result (λ o. AreRead listed fit (views values.now) o) };
}

impl Fields for () {
    type Entries = ();

    ghost listed = { λ _. [] };

    ghost fit = { λ _. ⊤ };

    fn read(_alloc: Global, values: &[&Value]) -> Result<Option<()>, NoMemory> {
        Ok(if values.is_empty() { Some(()) } else { None })
    }
}

impl<N: Notation, R: Fields> Fields for (N, R) {
    type Entries = (N::Entry, R::Entries);

    ghost listed = { λ x. N.value_of x.0 ∷ R.listed x.1 };

    ghost fit = { λ x. N.fits x.0 × R.fit x.1 };

    fn read(alloc: Global, values: &[&Value]) -> Result<Option<(N::Entry, R::Entries)>, NoMemory> {
        let [first, others @ ..] = values else {
            return Ok(None);
        };
        let Some(first) = N::read(alloc, first)? else {
            return Ok(None);
        };
        match R::read(alloc, others)? {
            Some(others) => Ok(Some((first, others))),
            None => Ok(None),
        }
    }
}
