// How a descriptor came to be.
ghost use Rattle.std.specs.Prelude.{◌↔◌, IsTrue};
ghost use Rattle.call_fs.specs.Disk.{IsForAppend, IsForWrite, IsForCut};

use crate::How;

/// How a descriptor came to be.
#[derive(Clone, Copy, Debug, PartialEq, Eq)]
pub enum Mode {
    /// Its file was created.
    Created,
    /// Its file was opened for this.
    Opened(How),
}

impl Mode {
    /// Whether bytes may be put at the end of its file.
    pub fn is_for_append(self) -> bool
        ensures { IsTrue result ↔ IsForAppend self }
    {
        match self {
            Mode::Created | Mode::Opened(How::Append) => true,
            Mode::Opened(_) => false,
        }
    }

    /// Whether places of its file may be overwritten.
    pub fn is_for_write(self) -> bool
        ensures { IsTrue result ↔ IsForWrite self }
    {
        match self {
            Mode::Opened(How::Write) => true,
            _ => false,
        }
    }

    /// Whether its file may be cut.
    pub fn is_for_cut(self) -> bool
        ensures { IsTrue result ↔ IsForCut self }
    {
        match self {
            Mode::Opened(How::Read) => false,
            _ => true,
        }
    }
}
