//! What a column says under its header.
ghost use Rattle.std.specs.Prelude.{◌≡◌, nat_le};
ghost use Rattle.std.specs.List.{list_all};
ghost use Rattle.rp_forms.specs.Columns.{role_of, named_role, good_role, is_name, name_in};

use crate::form::{Marks, Role};
use rp_limits::table::NAME_BYTES;

/// What a column with that header says, in the files that have one and mark goods so.
#[tactic(auto, unfolding(crate::specs::Columns::role_of))]
pub fn role_of(marks: Marks, header: &[u8]) -> Option<Role>
    ensures { result ≡ role_of marks header.now }
{
    named_role(header).or(good_role(marks, header))
}

/// What a column with that header says that is no good's.
#[tactic(auto, unfolding(crate::specs::Columns::named_role))]
fn named_role(header: &[u8]) -> Option<Role>
    ensures { result ≡ named_role header.now }
{
    if header == b"obs".as_slice() {
        Some(Role::Observation)
    } else if header == b"m".as_slice() {
        Some(Role::Expenditure)
    } else if header == b"w".as_slice() {
        Some(Role::Income)
    } else if header == b"budget".as_slice() {
        Some(Role::Budget)
    } else if header == b"n".as_slice() {
        Some(Role::Times)
    } else if header == b"y".as_slice() {
        Some(Role::Output)
    } else if header == b"p".as_slice() {
        Some(Role::OutputPrice)
    } else if header == b"menu".as_slice() {
        Some(Role::Menu)
    } else if header == b"choice".as_slice() {
        Some(Role::Choice)
    } else if header == b"e".as_slice() {
        Some(Role::OwnLevel)
    } else {
        None
    }
}

/// What the column of a good says.
#[tactic(auto, unfolding(crate::specs::Columns::good_role))]
fn good_role(marks: Marks, header: &[u8]) -> Option<Role>
    ensures { result ≡ good_role marks header.now }
{
    if !is_name(name_in(header)) {
        None
    } else if header.starts_with(marks.prices()) {
        Some(Role::Price)
    } else if header.starts_with(marks.quantities()) {
        Some(Role::Quantity)
    } else {
        None
    }
}

/// The name of a good, after the mark.
pub fn name_in(header: &[u8]) -> &[u8]
    ensures { result.now ≡ name_in header.now }
{
    if header.len() < 2 { b"" } else { &header[2..] }
}

/// Whether the bytes can name a good.
fn is_name(name: &[u8]) -> bool
    ensures { result ≡ is_name name.now }
{
    if name.is_empty() {
        return false;
    }
    if name.len() > NAME_BYTES as usize {
        return false;
    }
    has_no_control(name)
}

/// Whether no byte is a control character.
fn has_no_control(name: &[u8]) -> bool
    ensures { result ≡ list_all (λ byte. nat_le 32 byte) name.now }
{
    name.iter().all(|byte| *byte >= 0x20)
}
