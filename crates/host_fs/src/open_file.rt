// One open file.
use call_fs::Mode;

/// An open file.
#[derive(Drop)]
pub struct OpenFile<F> {
    /// The file of the system.
    pub file: F,
    /// How it came to be open.
    pub mode: Mode,
}
