// One open descriptor.
ghost use Rattle.std.specs.Prelude.{◌≡◌};
ghost use Rattle.call_fs.specs.declared.modes.Mode.TheVariants as made;

use call_fs::{How, Mode};
use std::marker::Model;

/// An open descriptor: the number of its file, and how it came to be.
#[derive(Drop)]
pub struct OpenFile {
    number: u64,
    mode: Mode,
}

impl Model for OpenFile {
    ghost use Rattle.call_fs.specs.Disk.{Open};

    ghost Value = { Open };

    ghost view = { λ o. record { number = o.number; mode = o.mode } };
}

impl OpenFile {
    /// Of a file that was created.
    pub fn created(number: u64) -> Self
        ensures { result ≡ record { number = number; mode = made.Created } }
    {
        OpenFile {
            number,
            mode: Mode::Created,
        }
    }

    /// Of a file that was opened for this.
    pub fn opened(number: u64, how: How) -> Self
        ensures { result ≡ record { number = number; mode = made.Opened how } }
    {
        OpenFile {
            number,
            mode: Mode::Opened(how),
        }
    }

    /// The number of its file.
    pub fn number(&self) -> u64
        ensures { result ≡ self.now.number }
    {
        self.number
    }
}
