//! How a command ends.

ghost use Rattle.std.specs.Prelude.{◌≡◌};
ghost use Rattle.pq_base.specs.Status.{status_number};

/// How a command ends.
#[derive(Clone, Copy, Debug, PartialEq, Eq)]
pub enum Status {
    /// The command was done.
    Done,
    /// The words are no command.
    BadWords,
    /// The input reads as no presentation.
    BadText,
    /// An answer would pass the limit on the rank.
    TooLarge,
    /// A read failed.
    ReadFault,
    /// A write failed.
    WriteFault,
    /// Nothing could be allocated.
    NoMemory,
    /// The input is no certificate, or one that isn't valid.
    CertRefused,
    /// The input has more bytes than the limit.
    InputTooLong,
}

impl Status {
    /// The number that the program exits with.
    pub fn number(self) -> u8
        ensures { result ≡ status_number self }
    {
        match self {
            Status::Done => 0,
            Status::BadWords => 2,
            Status::BadText => 3,
            Status::TooLarge => 4,
            Status::ReadFault => 5,
            Status::WriteFault => 6,
            Status::NoMemory => 7,
            Status::CertRefused => 8,
            Status::InputTooLong => 9,
        }
    }
}
