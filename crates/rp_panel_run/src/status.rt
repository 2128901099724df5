//! How a call of the program ends.
ghost use Rattle.std.specs.Prelude.{◌≡◌};
ghost use Rattle.rp_panel_run.specs.Endings.{status_number};

/// How a call ends.
#[derive(Clone, Copy, Debug, PartialEq, Eq)]
pub enum Status {
    /// The whole table was written.
    Done,
    /// The words are none that the program takes.
    Usage,
    /// The file could not be read.
    ReadFault,
    /// The file is too long, or has a fault as a whole.
    Refused,
    /// The table could not be written whole.
    WriteFault,
    /// Memory ran out.
    NoMemory,
}

impl Status {
    /// The number that the program ends with.
    pub fn number(self) -> u8
        ensures { result ≡ status_number self }
    {
        match self {
            Status::Done => 0,
            Status::Usage => 2,
            Status::ReadFault => 3,
            Status::Refused => 4,
            Status::WriteFault => 5,
            Status::NoMemory => 6,
        }
    }
}
