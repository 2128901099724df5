//! The records of a long file by their ids.
ghost use Rattle.std.specs.Prelude.{◌≡◌, ◌<◌, ◌≤◌, [], IfOk, OnOk, length};
ghost use Rattle.rp_limits.specs.declared.long.TheConstants.{RECORDS};
ghost use Rattle.rp_forms.specs.Texts.{text_at};
ghost use Rattle.rp_sheet.specs.Fields.{rows_in};
ghost use Rattle.rp_long.specs.Ids as Ids;
ghost use Rattle.rp_long.specs.Ids.{grouped_below, refusing, with_member};
ghost use Rattle.rp_long.specs.Panels.{id_text};

use crate::{IdFault, Unnamed};
use indexmap::IndexSet;
use rp_forms::{number_of, trimmed};
use rp_limits::long::HOUSEHOLD_BYTES;
use rp_num::NoMemory;
use rp_sheet::Records;
use std::alloc::Global;
use std::marker::Model;

/// Ids in the order in which they come first, the records of each, and the records that are refused for theirs.
#[derive(Drop)]
pub(crate) struct Groups<'a> {
    ids: IndexSet<&'a [u8]>,
    members: Vec<Vec<u32>>,
    unnamed: Vec<Unnamed>,
}

impl<'a> Model for Groups<'a> {
    ghost use Rattle.std.specs.Prelude.{map};
    ghost use Rattle.indexmap.specs.IndexSet.{keys};
    ghost use Rattle.rp_long.specs.Ids.{Grouped};

    ghost Value = { Grouped };

    ghost view = { λ g. record {
      ids = map (λ key. key.now) (keys g.ids);
      members = map (λ rows. rows.items) g.members.items;
      unnamed = g.unnamed.items;
    } };
}

impl<'a> Groups<'a> {
    /// No record yet.
    fn new(alloc: Global) -> Groups<'a>
        ensures { result ≡ grouped_below (λ _. []) 0 }
    {
        Groups {
            ids: IndexSet::new(alloc),
            members: Vec::new(alloc),
            unnamed: Vec::new(alloc),
        }
    }

    /// One more record with that id.
    fn put(&mut self, alloc: Global, id: &'a [u8], t: u32) -> Result<(), NoMemory>
        requires { length self.old.members ≡ length self.old.ids }
        ensures { OnOk result (self.new ≡ with_member self.old id.now t) }
    {
        let (h, new) = self.ids.insert_full(id)?;
        if new {
            self.members.push(Vec::new(alloc))?;
        }
        self.members[h].push(t)?;
        Ok(())
    }

    /// One more record that is refused for its id.
    fn refuse(&mut self, t: usize, fault: IdFault) -> Result<(), NoMemory>
        ensures { OnOk result (self.new ≡ refusing self.old t fault) }
    {
        self.unnamed.push(Unnamed {
            row: number_of(t),
            fault,
        })?;
        Ok(())
    }

    /// How many ids there are.
    pub(crate) fn len(&self) -> usize
        ensures { result ≡ length self.now.ids }
    {
        self.ids.len()
    }

    /// An id, from 0.
    pub(crate) fn id(&self, h: usize) -> &'a [u8]
        requires { h < length self.now.ids }
        ensures { result.now ≡ text_at self.now.ids h }
    {
        match self.ids.get_index(h) {
            Some(id) => *id,
            None => b"",
        }
    }

    /// The records with that id.
    pub(crate) fn members(&self, h: usize) -> &[u32]
        requires { h < length self.now.members }
        ensures { result.now ≡ text_at self.now.members h }
    {
        self.members[h].as_slice()
    }

    /// The records that are refused for their ids.
    pub(crate) fn unnamed(&self) -> &[Unnamed]
        ensures { result.now ≡ self.now.unnamed }
    {
        self.unnamed.as_slice()
    }
}

/// The records by the texts in the column of ids.
pub(crate) fn group_records<'a>(
    alloc: Global,
    records: &'a Records,
    column: usize,
) -> Result<Groups<'a>, NoMemory>
    requires some { 0 < length records.now }
    requires few { rows_in records.now ≤ RECORDS }
    ensures { IfOk result (λ groups. groups
        ≡ grouped_below (id_text column records.now) (rows_in records.now)) }
{
    let mut groups = Groups::new(alloc);
    for t in 0..records.len() - 1 {
        let id = trimmed(records.row_field(t, column));
        match id_fault(id) {
            Some(fault) => groups.refuse(t, fault)?,
            None => groups.put(alloc, id, t as u32)?,
        }
    }
    Ok(groups)
}

/// Why a text without the blanks round it is no id.
#[tactic(auto, unfolding(crate::specs::Ids::id_fault))]
fn id_fault(id: &[u8]) -> Option<IdFault>
    ensures { result ≡ Ids.id_fault id.now }
{
    if id.len() == 0 {
        return Some(IdFault::NoId);
    }
    if id.len() > HOUSEHOLD_BYTES as usize {
        return Some(IdFault::LongId);
    }
    None
}
