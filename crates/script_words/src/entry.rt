// What a script's disk holds at its beginning.

use mail_bytes::ByteText;

/// A file or a directory that a script's disk holds at its beginning.
#[derive(Drop)]
pub enum Entry {
    /// `file`: a file of this path, all of whose bytes are on the disk.
    File {
        /// Its path.
        path: ByteText,
        /// Its bytes.
        bytes: ByteText,
    },
    /// `dir`: a directory of this path.
    Dir(ByteText),
}
