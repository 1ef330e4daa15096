// What a drop is started with.

use mail_bytes::ByteText;

/// What a drop is started with.
#[derive(Drop)]
pub struct Arguments {
    /// The path of the maildir, as it stands before `tmp/` and `new/`.
    pub dir: ByteText,
    /// The moment of its name, in seconds since 1 January 1970 UTC.
    pub moment: u64,
    /// The process number of its name.
    pub pid: u32,
    /// The host of its name.
    pub host: ByteText,
    /// The bytes of the file.
    pub bytes: ByteText,
}
