// What a local delivery is started with.
ghost use Rattle.std.specs.Prelude.{◌≡◌, IfOk};
ghost use Rattle.local_parts.specs.Arguments.{local_args};

use call_fs::DeliveryWordsData;
use mail_bytes::{ByteText, Memory};
use std::alloc::Global;

/// What a local delivery is started with: the words of its command line (qmail-local(8)), the user's number, and its own
/// process number.
#[derive(Drop)]
pub struct LocalArgs {
    /// The user to whom the message is delivered.
    pub user: ByteText,
    /// The user's home directory, by its name.
    pub home: ByteText,
    /// The recipient's address up to its last `@`.
    pub local: ByteText,
    /// What the name of a `.qmail` file has before the extension: `-` or nothing.
    pub dash: ByteText,
    /// The extension, which picks the `.qmail` file.
    pub ext: ByteText,
    /// The recipient's address after that `@`.
    pub domain: ByteText,
    /// The envelope sender.
    pub sender: ByteText,
    /// The instructions that are followed if the user has no `.qmail` file, or an empty one.
    pub line: ByteText,
    /// The user's number, for forwards.
    pub uid: u32,
    /// Its process number, for the names of files in maildirs.
    pub pid: u32,
}

impl LocalArgs {
    /// What the delivery with these words is started with, for this user and with this process number. The words are copied.
    /// The error: out of memory.
    pub fn of(
        alloc: Global,
        words: &DeliveryWordsData,
        uid: u32,
        pid: u32,
    ) -> Result<LocalArgs, Memory>
        ensures { IfOk result (λ args. args ≡ local_args words.now uid pid) }
    {
        Ok(LocalArgs {
            user: ByteText::from_slice(alloc, words.user.as_slice())?,
            home: ByteText::from_slice(alloc, words.home.as_slice())?,
            local: ByteText::from_slice(alloc, words.local.as_slice())?,
            dash: ByteText::from_slice(alloc, words.dash.as_slice())?,
            ext: ByteText::from_slice(alloc, words.ext.as_slice())?,
            domain: ByteText::from_slice(alloc, words.domain.as_slice())?,
            sender: ByteText::from_slice(alloc, words.sender.as_slice())?,
            line: ByteText::from_slice(alloc, words.line.as_slice())?,
            uid,
            pid,
        })
    }
}
