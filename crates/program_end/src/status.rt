//! How the program ends.
ghost use Rattle.std.specs.Prelude.{◌≡◌};
ghost use Rattle.program_end.specs.Codes.{status_code};

use crate::limit::Limit;

/// How the program ends.
#[derive(Clone, Copy, PartialEq, Eq, Debug)]
pub enum Status {
    /// The input was read to its end, or the command was done.
    Done,
    /// The words are no command.
    Usage,
    /// The input failed.
    ReadFault,
    /// The output failed.
    WriteFault,
    /// The disk failed.
    DiskFault,
    /// The journal is damaged.
    Damaged,
    /// The journal, the file or the beacon node is of a chain with another root of genesis validators.
    GenesisDiffers,
    /// Memory ran out.
    OutOfMemory,
    /// The input passed a limit.
    InputTooLong(Limit),
    /// No beacon node gave what is needed to begin.
    NoNode,
    /// The door, at which connections come in, failed.
    DoorFault,
    /// The file that was to be merged is refused.
    FileRefused,
}

impl Status {
    /// The status that the process exits with.
    pub fn code(self) -> u8
        ensures { result ≡ status_code self }
    {
        match self {
            Status::Done => 0,
            Status::Usage => 2,
            Status::ReadFault => 3,
            Status::WriteFault => 4,
            Status::DiskFault => 5,
            Status::Damaged => 6,
            Status::GenesisDiffers => 7,
            Status::OutOfMemory => 8,
            Status::InputTooLong(_) => 9,
            Status::NoNode => 10,
            Status::DoorFault => 11,
            Status::FileRefused => 12,
        }
    }
}
