// The names that a listing gives.
ghost use Rattle.std.specs.Prelude.{◌≡◌, ◌↔◌, ◌∷◌, [], All, Contains, IfSome, IfNone, List, ℕ, OnOk, map, string_bytes};
ghost use Rattle.std.specs.List.{filter};
ghost use Rattle.host_fs.specs.Listing.{is_before, IsEntry};
ghost use Rattle.host_fs.specs.Entries.{Adds, entries_of};

use call_fs::is_part;
use mail_bytes::Memory;
use std::alloc::Global;
use std::io::Read;
use std::marker::Model;
use std::str;

/// So many bytes of a listing are read at once.
pub const LISTING_PIECE: usize = 4096;

/// The entries of one listing that have a name that calls take, in byte order, each once. Directories are among them.
/// Contracts see it as the list of the names.
#[derive(Drop)]
pub struct Entries {
    names: Vec<String>,
}

impl Model for Entries {
    ghost use Rattle.std.specs.Prelude.{List, ℕ, map, string_bytes};
    ghost use Rattle.host_fs.specs.Entries.{AreEntries};

    ghost Value = { List (List ℕ) };

    ghost view = { λ e. map string_bytes e.names.items };

    ghost invariant = { λ e. AreEntries (map string_bytes e.names.items) };
}

impl Entries {
    /// Reads a listing to its end. None if it can't be read, or memory runs out.
    pub fn read<D: Read>(alloc: Global, listing: &mut D) -> Option<Entries> {
        let mut piece = [0; LISTING_PIECE];
        let mut names = Vec::new(alloc);
        for _ in 0..u64::MAX {
            let count = listing.read(&mut piece).ok()?;
            if count == 0 {
                return Some(Entries::in_order(names));
            }
            let Ok(()) = add_entries(alloc, &mut names, &piece[..count]) else {
                return None;
            };
        }
        None
    }

    /// These names in byte order, each once. The condition: each is an entry that counts.
    fn in_order(names: Vec<String>) -> Entries
        requires { All IsEntry (map string_bytes names.items) }
        ensures { (name : List ℕ) → Contains result name ↔ Contains (map string_bytes names.items) name }
    {
        let mut names = names;
        names.sort_unstable();
        names.dedup();
        Entries { names }
    }

    /// The names that come after this one, in byte order.
    pub fn after(&self, name: &[u8]) -> &[String]
        ensures { map string_bytes result.now ≡ filter (is_before name.now) self.now }
    {
        let start = self
            .names
            .partition_point(|other| !name.cmp(other.as_bytes()).is_lt());
        &self.names[start..]
    }
}

/// Adds the entries of a piece of a listing that count. Each entry ends in a NUL.
fn add_entries(alloc: Global, names: &mut Vec<String>, piece: &[u8]) -> Result<(), Memory>
    ensures { OnOk result (Adds (map string_bytes names.old.items) (entries_of piece.now) (map string_bytes names.new.items)) }
{
    for name in piece.split(|byte| *byte == 0) {
        add_entry(alloc, names, name)?;
    }
    Ok(())
}

/// Adds an entry of a listing, if it counts.
fn add_entry(alloc: Global, names: &mut Vec<String>, name: &[u8]) -> Result<(), Memory>
    ensures { OnOk result (Adds (map string_bytes names.old.items) (name.now ∷ []) (map string_bytes names.new.items)) }
{
    if let Some(text) = entry_text(name) {
        names.push(String::from_str(alloc, text)?)?;
    }
    Ok(())
}

/// An entry of a listing as text; None exactly if it is no part of a name, or isn't UTF-8.
pub fn entry_text(name: &[u8]) -> Option<&str>
    ensures some { IfSome result (λ text. (text.now ≡ name.now) × IsEntry name.now) }
    ensures none { IfNone result (¬ (IsEntry name.now)) }
{
    if !is_part(name) || name.contains(&b'/') {
        return None;
    }
    str::from_utf8(name).ok()
}
