// Whether entries may stand on one disk.
ghost use Rattle.std.specs.Prelude.{◌↔◌, IsTrue, All};
ghost use Rattle.script_words.specs.Entries.{IsAbove, IsDirOf, SharesFile, Agree};

use crate::Entry;

/// Whether an entry may stand on one disk with those before it: no name is a file of one entry and a directory of
/// another.
pub fn may_follow(before: &[Entry], entry: &Entry) -> bool
    ensures { IsTrue result ↔ All (λ earlier. Agree earlier entry.now) before.now }
{
    before.iter().all(|earlier| agree(earlier, entry))
}

/// Whether no name is a file of the one and a directory of the other.
fn agree(one: &Entry, other: &Entry) -> bool
    ensures { IsTrue result ↔ Agree one.now other.now }
{
    !has_its_file_as_dir(one, other) && !has_its_file_as_dir(other, one)
}

/// Whether the name of the file that an entry makes is a directory of the other.
fn has_its_file_as_dir(file: &Entry, other: &Entry) -> bool
    ensures { IsTrue result ↔ SharesFile file.now other.now }
{
    match file {
        Entry::File { path, .. } => makes_dir(other, path.as_slice()),
        Entry::Dir(_) => false,
    }
}

/// Whether an entry makes a directory of this name.
fn makes_dir(entry: &Entry, name: &[u8]) -> bool
    ensures { IsTrue result ↔ IsDirOf entry.now name.now }
{
    match entry {
        Entry::File { path, .. } => is_above(name, path.as_slice()),
        Entry::Dir(path) => path.as_slice() == name || is_above(name, path.as_slice()),
    }
}

/// Whether a path goes through this directory.
fn is_above(dir: &[u8], path: &[u8]) -> bool
    ensures { IsTrue result ↔ IsAbove dir.now path.now }
{
    let Some(rest) = path.strip_prefix(dir) else {
        return false;
    };
    match rest.split_first() {
        Some((first, _)) => *first == b'/',
        None => false,
    }
}
