// Paths of what a script's disk holds at its beginning.
ghost use Rattle.std.specs.Prelude.{◌↔◌, IsTrue, Contains};
ghost use Rattle.script_words.specs.Entries.{IsEntryPath, entry_dirs};

use crate::words::cut;
use call_fs::are_parts;

/// Whether a script's disk may hold something of this path at its beginning.
pub(crate) fn is_entry_path(path: &[u8]) -> bool
    ensures { IsTrue result ↔ IsEntryPath path.now }
{
    match cut(path, b'/') {
        (dir, Some(below)) => is_entry_dir(dir) && are_parts(below),
        (_, None) => false,
    }
}

/// Whether it is one of the directories below which such things lie.
fn is_entry_dir(dir: &[u8]) -> bool
    ensures { IsTrue result ↔ Contains entry_dirs dir.now }
{
    matches!(dir, b"control" | b"users" | b"home" | b"pid")
}
