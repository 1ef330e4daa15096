// What a program did, as owned data: an event of its own past.

use crate::{CallData, Port, Ready, Told};
use mail_bytes::{ByteText, OnHeap};

/// The words of a local delivery, with bytes of their own.
#[derive(Drop)]
pub struct DeliveryWordsData {
    /// The user to whom the message is delivered.
    pub user: ByteText,
    /// The user's home directory, as users/assign names it: with `/` before it a path of the machine.
    pub home: ByteText,
    /// The recipient's address up to its last `@`.
    pub local: ByteText,
    /// What the name of a .qmail file has before the extension: `-` or nothing.
    pub dash: ByteText,
    /// The extension, which picks the .qmail file.
    pub ext: ByteText,
    /// The recipient's address after that `@`.
    pub domain: ByteText,
    /// The envelope sender.
    pub sender: ByteText,
    /// The delivery instructions that are followed if the user has no .qmail file.
    pub line: ByteText,
}

/// A program that another one starts, with bytes of its own.
#[derive(Drop)]
pub enum ChildData {
    /// As `Child::Bounce`.
    Bounce {
        /// How many bytes its message and its envelope have together.
        room: u64,
    },
    /// As `Child::Forward`.
    Forward {
        /// The user who forwards.
        uid: u32,
        /// How many bytes its message and its envelope have together.
        room: u64,
    },
    /// As `Child::Local`.
    Local {
        /// The delivery.
        slot: u8,
        /// The words of its command line.
        words: DeliveryWordsData,
        /// The user's number, for forwards.
        uid: u32,
    },
    /// As `Child::Remote`.
    Remote {
        /// The delivery.
        slot: u8,
        /// The recipient's domain.
        domain: ByteText,
        /// The sender.
        sender: ByteText,
        /// The recipient.
        recipient: ByteText,
    },
}

/// What a program does next, with bytes of its own.
#[derive(Drop)]
pub enum NeedData {
    /// A file call.
    File(CallData),
    /// Takes what a pipe holds.
    Take(Port),
    /// Gives bytes to a pipe.
    Give(Port, ByteText),
    /// Starts a program.
    Start(OnHeap<ChildData>),
    /// Runs a command of a user.
    Command(ByteText),
    /// Nothing can be done yet.
    Wait,
    /// It has ended with this exit status.
    Ended(u8),
}

/// What came of it, with bytes of its own.
#[derive(Drop)]
pub enum GotData {
    /// The answer to a file call, with the bytes of a read.
    Answered(Told),
    /// Bytes were taken.
    Took(ByteText),
    /// The pipe has ended.
    End,
    /// The program ended with this status.
    Ended(u8),
    /// The program ended by a signal.
    Crashed,
    /// The bytes were given.
    Gave,
    /// The program was started.
    Started {
        /// Its process number.
        pid: u32,
    },
    /// It could not be done.
    Failed,
    /// Out of memory.
    Memory,
}

/// One event of a program's own past.
#[derive(Drop)]
pub struct Own {
    /// The moment that the program read.
    pub read: u64,
    /// What it found ready.
    pub ready: Ready,
    /// What was due.
    pub due: NeedData,
    /// What came of it.
    pub came: GotData,
}
