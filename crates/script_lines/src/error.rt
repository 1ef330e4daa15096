// Why a script can't be read.

use thiserror::Error;

/// Why bytes are no script.
#[derive(Debug, Drop, Error)]
pub enum ScriptError {
    /// The line with this number isn't in the grammar, counted from 1; 0 if the script is too long.
    #[error("line {0}: not in the grammar of scripts")]
    Line(u64),
    /// Out of memory.
    #[error("out of memory")]
    Memory,
}
