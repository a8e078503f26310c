ghost use Rattle.std.specs.Prelude.{◌≡◌};

use kit_walk::FileFault;

/// How a call of the program ended.
#[derive(Debug, Drop, thiserror::Error)]
pub enum Status {
    /// The text was written whole.
    #[error("the text was written whole")]
    Done,
    /// The words are none that the call answers.
    #[error("the words are those of no command")]
    Usage,
    /// A read of the source failed.
    #[error("the input could not be read")]
    ReadFault,
    /// The source gave more than 1,048,576 bytes.
    #[error("the input has more than 1,048,576 bytes")]
    TooLong,
    /// The input is no federation file; this is what is wrong with it, and where.
    #[error("the input is no federation file")]
    BadFile(FileFault),
    /// All entries of the schedule were taken, and this federate, the least of those, was not
    /// granted the end time.
    #[error("federate {federate} was not granted the end time")]
    Unfinished { federate: u8 },
    /// A federate found no buffer for its message of this number: each had a message that was timed
    /// after the federate's time, so there are fewer buffers than it needs.
    #[error("federate {federate} had no buffer for message {number}")]
    NoBuffer { federate: u8, number: u16 },
    /// A federate would take the number 16,385 for a message.
    #[error("federate {federate} would take number 16,385 for a message")]
    SendsSpent { federate: u8 },
    /// A federate would take part in more rounds than there may be.
    #[error("federate {federate} took all rounds that there may be")]
    RoundsSpent { federate: u8 },
    /// A write to the sink failed.
    #[error("the text could not be written")]
    WriteFault,
    /// There was no memory.
    #[error("memory ran out")]
    NoMemory,
    /// The saved file would have more than 1,048,576 bytes.
    #[error("the saved file would have more than 1,048,576 bytes")]
    CutTooLong,
}

impl Status {
    ghost use Rattle.kit_top.specs.Codes.{code_of};

    /// The exit status of the program: 0 for `Done`, and a number of its own for each other one.
    pub fn code(&self) -> u8
        ensures { result ≡ code_of self.now }
    {
        match self {
            Status::Done => 0,
            Status::Usage => 2,
            Status::ReadFault => 3,
            Status::TooLong => 4,
            Status::BadFile(_) => 5,
            Status::Unfinished { .. } => 6,
            Status::NoBuffer { .. } => 7,
            Status::SendsSpent { .. } => 8,
            Status::RoundsSpent { .. } => 9,
            Status::WriteFault => 10,
            Status::NoMemory => 11,
            Status::CutTooLong => 12,
        }
    }
}
