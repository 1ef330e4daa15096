// How a need of a program was served.
ghost use Rattle.std.specs.Prelude.{◌≡◌};
ghost use Rattle.call_fs.specs.Program.{came_of};
ghost use Rattle.program_runner.specs.Serving.{FitsPiece, came_with, is_done};

use call_fs::{Got, PIECE};

/// How a need was served that is no file call.
#[derive(Clone, Copy)]
pub enum Served {
    /// Not yet: nothing came, or it asks for that.
    Nothing,
    /// So many bytes were taken.
    Took(usize),
    /// The line has ended.
    End,
    /// The program ended with this status.
    Ended(u8),
    /// The program ended by a signal.
    Crashed,
    /// The bytes were given.
    Gave,
    /// The program was started.
    Started {
        /// Its process number.
        pid: u32,
    },
    /// It could not be done.
    Failed,
    /// Out of memory.
    Memory,
}

impl Served {
    /// Whether something was done.
    pub fn is_done(self) -> bool
        ensures { result ≡ is_done self }
    {
        match self {
            Served::Nothing => false,
            _ => true,
        }
    }

    /// What came, with the bytes in this buffer. The condition: they are no more than a piece.
    pub fn came(self, buffer: &[u8; PIECE]) -> Got<'_>
        requires { FitsPiece self }
        ensures { came_of result ≡ came_with self buffer.now }
    {
        match self {
            Served::Took(count) => Got::Took(&buffer[..count]),
            Served::End => Got::End,
            Served::Ended(status) => Got::Ended(status),
            Served::Crashed => Got::Crashed,
            Served::Gave => Got::Gave,
            Served::Started { pid } => Got::Started { pid },
            Served::Memory => Got::Memory,
            Served::Failed | Served::Nothing => Got::Failed,
        }
    }
}
