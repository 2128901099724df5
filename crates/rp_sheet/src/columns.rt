//! The columns of a file, found by their headers.
ghost use Rattle.std.specs.Prelude.{◌≡◌, ◌<◌, [], ◌∷◌, ◌++◌, None, Some, OnOk, length};
ghost use Rattle.rp_forms.specs.Texts.{text_at, place_of};
ghost use Rattle.rp_forms.specs.Columns.{role_of};

use indexmap::IndexMap;
use rp_forms::{Form, Role};
use rp_num::NoMemory;
use std::alloc::Global;
use std::marker::Model;

/// The columns of a file of some kind, in order and by their headers. No two have one header.
#[derive(Drop)]
pub struct Columns<'a> {
    form: Form,
    roles: IndexMap<&'a [u8], Role>,
}

impl<'a> Model for Columns<'a> {
    ghost use Rattle.std.specs.Prelude.{◌≡◌, Some, map};
    ghost use Rattle.std.specs.List.{All};
    ghost use Rattle.indexmap.specs.IndexMap.{keys};
    ghost use Rattle.rp_forms.specs.Columns.{Layout, role_of};

    ghost Value = { Layout };

    ghost view = { λ c. record {
      form = c.form;
      headers = map (λ header. header.now) (keys c.roles);
    } };

    ghost invariant = { λ c. All (λ entry. role_of c.form.marks entry.0.now ≡ Some entry.1)
        c.roles.entries };
}

impl<'a> Columns<'a> {
    /// No columns of a file of that kind.
    pub fn new(alloc: Global, form: &Form) -> Columns<'a>
        ensures none { result.headers ≡ [] }
        ensures kind { result.form ≡ form.now }
    {
        Columns {
            form: *form,
            roles: IndexMap::new(alloc),
        }
    }

    /// One more column, with another header than those before it.
    pub fn push(&mut self, header: &'a [u8], role: Role) -> Result<(), NoMemory>
        requires other { place_of self.old.headers header.now ≡ None }
        requires says { role_of self.old.form.marks header.now ≡ Some role }
        ensures more { OnOk result
            (self.new.headers ≡ self.old.headers ++ header.now ∷ []) }
        ensures kind { OnOk result (self.new.form ≡ self.old.form) }
    {
        self.roles.insert(header, role)?;
        Ok(())
    }

    /// The kind of file.
    pub fn form(&self) -> &Form
        ensures { result.now ≡ self.now.form }
    {
        &self.form
    }

    /// How many columns there are.
    pub fn len(&self) -> usize
        ensures { result ≡ length self.now.headers }
    {
        self.roles.len()
    }

    /// The column with this header, from 0.
    pub fn find(&self, header: &[u8]) -> Option<usize>
        ensures { result ≡ place_of self.now.headers header.now }
    {
        self.roles.get_index_of(header)
    }

    /// The header of column `c`.
    pub fn header(&self, c: usize) -> &'a [u8]
        requires { c < length self.now.headers }
        ensures { result.now ≡ text_at self.now.headers c }
    {
        match self.roles.get_index(c) {
            Some((header, _)) => *header,
            None => b"",
        }
    }

    /// What the fields of column `c` say.
    pub fn role(&self, c: usize) -> Role
        requires { c < length self.now.headers }
        ensures { role_of self.now.form.marks (text_at self.now.headers c) ≡ Some result }
    {
        match self.roles.get_index(c) {
            Some((_, role)) => *role,
            None => Role::Observation,
        }
    }
}
