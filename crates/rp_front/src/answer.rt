//! What a program answers, or why it does not.
use crate::status::Status;
use rp_num::NoMemory;
use std::alloc::AllocError;

/// A whole answer.
#[derive(Drop)]
pub struct Answer {
    /// How a call ends that has written it: `Done` or `Rejected`.
    pub status: Status,
    /// What goes to the output.
    pub text: Vec<u8>,
    /// What is told on standard error before: nothing, or whole lines.
    pub told: Vec<u8>,
}

/// Why there is no answer.
#[derive(Drop)]
pub enum Cause<'a> {
    /// The file of that name could not be read.
    Read(&'a str),
    /// The line that tells what is refused.
    Refused(Vec<u8>),
    NoMemory,
}

impl<'a> From<NoMemory> for Cause<'a> {
    ghost use Rattle.std.specs.Prelude.{◌≡◌};
    ghost use Rattle.rp_front.specs.declared.answer.Cause.TheVariants as cause;

    ghost from_gives = { λ _ c. c ≡ cause.NoMemory };

    fn from(_error: NoMemory) -> Cause<'a> {
        Cause::NoMemory
    }
}

impl<'a> From<AllocError> for Cause<'a> {
    ghost use Rattle.std.specs.Prelude.{◌≡◌};
    ghost use Rattle.rp_front.specs.declared.answer.Cause.TheVariants as cause;

    ghost from_gives = { λ _ c. c ≡ cause.NoMemory };

    fn from(_error: AllocError) -> Cause<'a> {
        Cause::NoMemory
    }
}
