// Exit statuses, those of qmail-queue(8) if it has one for the same cause.

/// All was done; of an injector, the message is queued.
pub const DONE: u8 = 0;

/// An address has over 1002 bytes.
pub const LONG_ADDRESS: u8 = 11;

/// The message or the envelope has too many bytes.
pub const TOO_LONG: u8 = 31;

/// Out of memory.
pub const MEMORY: u8 = 51;

/// A call was due more than a day after the start.
pub const LATE: u8 = 52;

/// A write or a sync failed, or an output.
pub const OUTPUT: u8 = 53;

/// An input couldn't be read, or ended too early; or a queue couldn't be looked at.
pub const INPUT: u8 = 54;

/// A pid name couldn't be made or taken away.
pub const IN_PID: u8 = 63;

/// The link to `mess` failed.
pub const IN_MESS: u8 = 64;

/// The creation in `intd` failed.
pub const IN_INTD: u8 = 65;

/// The link to `todo` failed.
pub const IN_TODO: u8 = 66;

/// The sender's link to the cleaner has ended or failed.
pub const NO_CLEANER: u8 = 81;

/// Its link to the local spawner has ended or failed.
pub const NO_LOCAL: u8 = 82;

/// Its link to the remote spawner has ended or failed.
pub const NO_REMOTE: u8 = 83;

/// A call of the sender's start failed.
pub const NO_START: u8 = 84;

/// A control file is bad.
pub const BAD_CONTROL: u8 = 85;

/// An input is malformed.
pub const MALFORMED: u8 = 91;

/// The words are no command.
pub const USAGE: u8 = 100;
