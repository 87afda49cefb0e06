//! How a run ends.
ghost use Rattle.std.specs.Prelude.{◌≡◌};
ghost use Rattle.lego_session.specs.Statuses.{code_of};

/// How a run ended.
#[derive(Debug, Clone, Copy, PartialEq, Eq)]
pub enum Status {
    /// The end was read, and no command was refused.
    Accepted,
    /// The end was read, and some command was refused.
    Refused,
    /// The words are not of the written form.
    Usage,
    /// A read failed; the commands that had ended are answered.
    ReadFault,
    /// A write failed; what was taken is a front of the output.
    WriteFault,
    /// Memory ran out; what was taken is a front of the output.
    Memory,
    /// The end was read and a proof is open, which no command so far begins.
    OpenProof,
    /// More than 16,777,216 bytes came; the commands that ended within them are answered.
    TooLong,
}

impl Status {
    /// The number of the status.
    pub fn code(self) -> u8
        ensures { result ≡ code_of self }
    {
        match self {
            Status::Accepted => 0,
            Status::Refused => 1,
            Status::Usage => 2,
            Status::ReadFault => 3,
            Status::WriteFault => 4,
            Status::Memory => 5,
            Status::OpenProof => 6,
            Status::TooLong => 7,
        }
    }
}
