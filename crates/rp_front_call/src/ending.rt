//! How a call ends: a status of the program, or one that a call alone has.
ghost use Rattle.std.specs.Prelude.{◌≡◌, pos};
ghost use Rattle.rp_front_call.specs.CallEndings.{ending_number};

use rp_front::Status;

/// How a call ended.
#[derive(Clone, Copy, Debug, PartialEq, Eq)]
pub enum Ending {
    /// As the program would.
    Ran(Status),
    /// A word, or a name of a file, is no text.
    NoText,
    /// The words, names, sizes and bytes do not fit together, or there are more files than the words name.
    Malformed,
}

impl Ending {
    /// The number that stands for it: that of the program, 7 or 8.
    pub fn number(self) -> i32
        ensures { result ≡ pos (ending_number self) }
    {
        match self {
            Ending::Ran(status) => status.number() as i32,
            Ending::NoText => 7,
            Ending::Malformed => 8,
        }
    }
}
