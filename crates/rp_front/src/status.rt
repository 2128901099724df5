//! How a call of a program ends.
ghost use Rattle.std.specs.Prelude.{◌≡◌};
ghost use Rattle.rp_front.specs.Endings.{status_number};

/// How a call of a program ends.
#[derive(Clone, Copy, Debug, PartialEq, Eq)]
pub enum Status {
    /// The whole answer was written.
    Done,
    /// The whole answer was written, and rejects what the files hold.
    Rejected,
    /// The words are none that the program takes.
    Usage,
    /// A file could not be read.
    ReadFault,
    /// A file is too long, or of another form than its program takes.
    Refused,
    /// The answer could not be written whole.
    WriteFault,
    /// Memory ran out.
    NoMemory,
}

impl Status {
    /// The number that the program ends with.
    pub fn number(self) -> u8
        ensures { result ≡ status_number self }
    {
        match self {
            Status::Done => 0,
            Status::Rejected => 1,
            Status::Usage => 2,
            Status::ReadFault => 3,
            Status::Refused => 4,
            Status::WriteFault => 5,
            Status::NoMemory => 6,
        }
    }
}
