//! How a run ends.

ghost use Rattle.std.specs.Prelude.{◌≡◌};
ghost use Rattle.pc_serve.specs.Status.{code_of};

/// How a run ends.
#[derive(Clone, Copy, Debug, PartialEq, Eq)]
pub enum Status {
    /// The command ended, and its text is written.
    Done,
    /// The input was refused, and the reason is written.
    Refused,
    /// The words name no command, and the usage is written.
    Usage,
    /// A read failed. Nothing is written.
    ReadFault,
    /// A write failed. A front of a text is written.
    WriteFault,
    /// There was no memory. Nothing is written.
    NoMemory,
    /// The source gave more than an input may have, and that is written.
    TooLong,
}

impl Status {
    /// The exit code of the program, from 0 to 6.
    pub fn code(&self) -> u8
        ensures { result ≡ code_of self.now }
    {
        match self {
            Status::Done => 0,
            Status::Refused => 1,
            Status::Usage => 2,
            Status::ReadFault => 3,
            Status::WriteFault => 4,
            Status::NoMemory => 5,
            Status::TooLong => 6,
        }
    }
}
