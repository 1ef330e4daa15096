// What the sender has read and knows.
ghost use Rattle.std.specs.Prelude.{◌≡◌, IfOk};
ghost use Rattle.address_rules.specs.Files.{controls_of};
ghost use Rattle.send_parts.specs.Start.{new_book, no_files};

use crate::{Reading, StartRow};
use address_rules::{ControlError, ControlFile, Controls};
use mail_bytes::{ByteText, Memory, NameBuf};
use send_known::Messages;
use std::alloc::{AllocError, Global};

/// What the sender has read and knows: the control files, the known messages, and what a reading or a search at work holds.
#[derive(Drop)]
pub struct Book {
    /// Where the start stands.
    pub row: StartRow,
    /// What the control files held that were read so far, in the order of their reading; `None` of a missing one.
    pub files: [Option<ByteText>; 12],
    /// What they say, once all were read.
    pub controls: Controls,
    /// The known messages, and when each is due.
    pub messages: Messages,
    /// What the reading at work has read.
    pub read: ByteText,
    /// After which name the search at work goes on.
    pub after: NameBuf,
}

impl Book {
    /// Nothing was read yet, and nothing is known. Fails only if out of memory.
    pub fn new(alloc: Global) -> Result<Book, Memory>
        ensures { IfOk result (λ book. book ≡ new_book) }
    {
        let files = [
            None, None, None, None, None, None, None, None, None, None, None, None,
        ];
        let controls = default_controls(alloc, &files)?;
        Ok(Book {
            row: StartRow::Control(ControlFile::Me, Reading::Opening),
            files,
            controls,
            messages: Messages::new(alloc),
            read: ByteText::new(alloc),
            after: NameBuf::new(),
        })
    }
}

/// What the control files say if none is there.
fn default_controls(alloc: Global, files: &[Option<ByteText>; 12]) -> Result<Controls, Memory>
    requires { files.now ≡ no_files }
    ensures { IfOk result (λ controls. controls ≡ controls_of no_files) }
{
    match Controls::read(alloc, files) {
        Ok(controls) => Ok(controls),
        Err(ControlError::BadControl { .. }) => Err(AllocError),
        Err(ControlError::Memory) => Err(AllocError),
    }
}
