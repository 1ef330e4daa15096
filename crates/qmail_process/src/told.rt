// What a command is lent, by its words.

use command_words::{Channels, Member, Places, channels, member, places};
use mail_bytes::{ByteText, Memory};
use std::alloc::Global;

/// What the words of a command tell of what it is lent. To read words takes longer than much of what a short command does, so they are
/// read once for all who ask.
#[derive(Drop)]
pub(crate) struct Told {
    places: Places,
    /// Its channels.
    pub(crate) channels: Channels,
    /// The member of a generation that it is, if it is one.
    pub(crate) member: Option<Member>,
}

impl Told {
    /// What these words tell. The error: out of memory.
    pub(crate) fn of(alloc: Global, words: &[String]) -> Result<Told, Memory> {
        let channels = channels(alloc, words)?;
        let member = member(alloc, words)?;
        let places = places(alloc, words)?;
        Ok(Told {
            places,
            channels,
            member,
        })
    }

    /// What no words tell.
    pub(crate) fn nothing() -> Told {
        Told {
            places: Places {
                env: None,
                dir: None,
            },
            channels: Channels::Nothing,
            member: None,
        }
    }

    /// The directory of the queue, if there is one.
    pub(crate) fn dir(&self) -> Option<&[u8]> {
        match &self.places.dir {
            Some(dir) => Some(dir.as_slice()),
            None => None,
        }
    }

    /// Whether the directory of the queue has no name; the words are no command then.
    pub(crate) fn is_nameless(&self) -> bool {
        match self.dir() {
            Some(dir) => dir.is_empty(),
            None => false,
        }
    }

    /// The directory of the queue, for somebody else.
    pub(crate) fn copy_dir(&self, alloc: Global) -> Result<Option<ByteText>, Memory> {
        copy(alloc, &self.places.dir)
    }

    /// The file of the envelope, for somebody else.
    pub(crate) fn copy_env(&self, alloc: Global) -> Result<Option<ByteText>, Memory> {
        copy(alloc, &self.places.env)
    }
}

/// A name once more, if there is one.
fn copy(alloc: Global, name: &Option<ByteText>) -> Result<Option<ByteText>, Memory> {
    match name {
        Some(name) => Ok(Some(ByteText::from_slice(alloc, name.as_slice())?)),
        None => Ok(None),
    }
}
