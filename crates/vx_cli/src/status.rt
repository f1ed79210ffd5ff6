ghost use Rattle.std.specs.Prelude.{◌≡◌};
ghost use Rattle.vx_cli.specs.Runs.{put_status, status_of};
ghost use Rattle.vx_cli.specs.Statuses.{number_of};

use crate::writing::PutFault;
use vx_lines::LoopEnd;

/// How a run ended.
#[derive(Clone, Copy, Debug, PartialEq, Eq)]
pub enum Status {
    /// Every answer is an accepted line's, and all was written.
    Done,
    /// An answer is a refused line's, and all was written.
    Refused,
    /// The words are no command with its fields.
    Usage,
    /// A read failed.
    ReadFault,
    /// A write failed.
    WriteFault,
    /// No memory was found.
    NoMemory,
    /// The input is too long.
    InputLimit,
}

impl Status {
    /// The status of a run whose answer was written so. It takes no memory.
    pub fn of(put: Result<bool, PutFault>) -> Self
        ensures { result ≡ put_status put }
    {
        match put {
            Ok(true) => Status::Done,
            Ok(false) => Status::Refused,
            Err(PutFault::Failed) => Status::WriteFault,
            Err(PutFault::NoMemory) => Status::NoMemory,
        }
    }

    /// The status of a run over lines that ended so. It takes no memory.
    pub fn of_end(end: LoopEnd) -> Self
        ensures { result ≡ status_of end }
    {
        match end {
            LoopEnd::Done => Status::Done,
            LoopEnd::Refused => Status::Refused,
            LoopEnd::ReadFault => Status::ReadFault,
            LoopEnd::WriteFault => Status::WriteFault,
            LoopEnd::NoMemory => Status::NoMemory,
            LoopEnd::InputLimit => Status::InputLimit,
        }
    }

    /// The number that the program ends with. It takes no memory.
    pub fn number(self) -> u8
        ensures { result ≡ number_of self }
    {
        match self {
            Status::Done => 0,
            Status::Refused => 1,
            Status::Usage => 2,
            Status::ReadFault => 3,
            Status::WriteFault => 4,
            Status::NoMemory => 5,
            Status::InputLimit => 6,
        }
    }
}
