// A command with what it is told.

use call_fs::DeliveryWordsData;
use mail_bytes::ByteText;
use std::alloc::AllocError;
use thiserror::Error;

/// What the words after the program's name say to do.
#[derive(Drop)]
pub enum Command {
    /// `play`: plays a script.
    Play,
    /// `make`: makes a script.
    Make(MakeWords),
    /// `queue`: puts a message into a queue.
    Queue(QueueWords),
    /// `qmqpd`: takes a message in one package, and puts it into a queue.
    Qmqpd(QmqpdWords),
    /// `send`: runs the sender, with its cleaner and its spawners.
    Send(SendWords),
    /// `audit`: prints what a queue holds; with the directory of the queue.
    Audit(ByteText),
    /// `clean`: runs the cleaner; with the directory of the queue.
    Clean(ByteText),
    /// `lspawn`: runs the local spawner; with the directory of the queue.
    Lspawn(ByteText),
    /// `rspawn`: runs the remote spawner.
    Rspawn(RspawnWords),
    /// `local`: makes a local delivery.
    Local(LocalWords),
    /// `work`: runs the mails of a script by threads; with how many of these run mails, from 1 to 16.
    Work(u64),
}

/// What `make` is told.
#[derive(Clone, Copy)]
pub struct MakeWords {
    /// What the draws begin with, up to 65,536.
    pub seed: u64,
    /// How many mails the script has, up to 100,000.
    pub count: u64,
}

/// What `queue` is told.
#[derive(Drop)]
pub struct QueueWords {
    /// The file of the envelope; None for `-`: the message's source gives both.
    pub env: Option<ByteText>,
    /// The directory of the queue.
    pub dir: ByteText,
    /// The number of the user who sends; 0 if none is told.
    pub uid: u32,
    /// Whether the message is a bounce.
    pub bounce: bool,
}

/// What `qmqpd` is told.
#[derive(Drop)]
pub struct QmqpdWords {
    /// The directory of the queue.
    pub dir: ByteText,
    /// The number of the user who sends; 0 if none is told.
    pub uid: u32,
}

/// What `send` is told.
#[derive(Drop)]
pub struct SendWords {
    /// The directory of the queue.
    pub dir: ByteText,
    /// The program that delivers to remote recipients. It isn't empty.
    pub program: ByteText,
    /// How many turns the sender makes, from 1 to 1,000,000.
    pub turns: u64,
}

/// What `rspawn` is told.
#[derive(Drop)]
pub struct RspawnWords {
    /// The directory of the queue.
    pub dir: ByteText,
    /// The program that delivers to remote recipients. It isn't empty.
    pub program: ByteText,
}

/// What `local` is told.
#[derive(Drop)]
pub struct LocalWords {
    /// The directory of the queue.
    pub dir: ByteText,
    /// To whom the message is delivered, and how.
    pub words: DeliveryWordsData,
    /// The user's number, for forwards; 0 if none is told.
    pub uid: u32,
}

/// The file and the directory that a command is told.
#[derive(Drop)]
pub struct Places {
    /// The file of the envelope, if there is one.
    pub env: Option<ByteText>,
    /// The directory of the queue, if there is one.
    pub dir: Option<ByteText>,
}

/// Which channels a command has.
#[derive(Clone, Copy, Debug, PartialEq, Eq)]
pub enum Channels {
    /// None; its input is a source.
    Nothing,
    /// Those of its children; its input is a source.
    Children,
    /// Its input, and those of its children.
    InputAndChildren,
    /// Those of a sender's links and of its children; it has no input.
    Links,
}

/// A member of a generation, of which a queue has one at a time.
#[derive(Clone, Copy, PartialEq, Eq)]
pub enum Member {
    /// The sender.
    Send,
    /// The cleaner.
    Clean,
    /// The local spawner.
    Lspawn,
    /// The remote spawner.
    Rspawn,
}

/// Why words weren't read.
#[derive(Clone, Copy, Debug, Error)]
pub enum WordsError {
    /// The words are no command.
    #[error("usage")]
    Usage,
    /// Out of memory.
    #[error("out of memory")]
    Memory,
}

impl From<AllocError> for WordsError {
    ghost use Rattle.std.specs.Prelude.{◌≡◌};
    ghost use Rattle.command_words.specs.declared.command.WordsError.TheVariants.{Memory};

    ghost from_gives = { λ _ why. why ≡ Memory };

    fn from(_: AllocError) -> Self {
        WordsError::Memory
    }
}
