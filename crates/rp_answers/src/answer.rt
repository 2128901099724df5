//! What a command answers: a text, and how the call ends that has written it.
use crate::status::Status;

/// A whole text for the output, and how a call ends that has written it.
#[derive(Drop)]
pub struct Answer {
    pub status: Status,
    pub text: Vec<u8>,
}
