//! Which columns each kind of file has, and what their headers and fields say: the forms of files of numbers.
#![tactic(auto)]

mod form;
mod roles;
mod texts;

pub use form::{Column, Form, Marks, Role};
pub use roles::{name_in, role_of};
pub use texts::{number_of, trimmed};
