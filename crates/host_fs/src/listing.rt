// The next name of a directory.
ghost use Rattle.std.specs.Prelude.{◌≡◌, ◌<◌, Contains, IsTrue, IfOk, IfSome, IfNone, OnErr, IsErrOf, length, string_bytes};
ghost use Rattle.call_fs.specs.declared.calls.FsError.TheVariants as FsError;
ghost use Rattle.host_fs.specs.Kept.{IsSame};
ghost use Rattle.host_fs.specs.Listing.{is_nearer, FoundAfter, IsEntry};

use crate::entries::{Entries, LISTING_PIECE, entry_text};
use crate::kept::{Kept, is_at_rest};
use crate::refusals::{missing_or_fault, or_fault};
use crate::system::{Facts, System};
use call_fs::FsError;
use mail_bytes::NameBuf;
use std::alloc::Global;
use std::io::Read;

/// Puts the least name of a directory after that one into the buffer and answers true, or answers false if there is
/// none. Directories are passed over, and names that aren't UTF-8 or over 255 bytes. What can't be looked at counts as no
/// directory.
///
/// If the directory is at rest, its names are kept, and searched as long as the system tells just the same of the
/// directory. Else, or when memory for them runs out, it is listed at each call, which takes the memory of one path at a
/// time, and no more for a long listing.
pub fn next_name<S: System>(
    system: &S,
    alloc: Global,
    kept: &mut Option<Kept>,
    dir: &str,
    after: &[u8],
    into: &mut NameBuf,
) -> Result<bool, FsError>
    ensures later { IfOk result (λ found. FoundAfter found after.now into.new) }
    ensures exists { ¬ (IsErrOf result FsError.Exists) }
    ensures memory { ¬ (IsErrOf result FsError.Memory) }
{
    let Ok(dir) = format!(in alloc; "{dir}/") else {
        return Err(FsError::Fault);
    };
    let place = Place {
        system,
        alloc,
        dir: dir.as_str(),
        after,
    };
    *kept = place.kept_now(kept.take());
    match kept {
        Some(kept) => place.search(&kept.entries, into),
        None => place.list(into),
    }
}

/// Where a name is looked for: a path that ends in `/`, and the name that it comes after.
#[derive(Drop)]
struct Place<'a, S: System> {
    system: &'a S,
    alloc: Global,
    dir: &'a str,
    after: &'a [u8],
}

impl<'a, S: System> Place<'a, S> {
    /// What may be kept of the directory: what was kept of it, if the system tells the same of it as before that was
    /// listed, or a new listing. None if it isn't at rest, or the system can't tell that; if it can't be listed; or if
    /// memory runs out.
    fn kept_now(&self, kept: Option<Kept>) -> Option<Kept>
        ensures { IfSome result (λ kept. string_bytes kept.dir ≡ self.now.dir.now) }
    {
        let facts = self.system.stat(self.dir).ok()?;
        match unchanged(kept, self.dir, facts) {
            Some(kept) => Some(kept),
            None => self.keep(facts),
        }
    }

    /// Lists the directory, of which the system has just told this. None as for `kept_now`.
    fn keep(&self, facts: Facts) -> Option<Kept>
        ensures { IfSome result (λ kept. (string_bytes kept.dir ≡ self.now.dir.now) × (kept.facts ≡ facts)) }
    {
        // the moment at which the listing begins
        let now = self.system.now().ok()?;
        if !is_at_rest(facts, now) {
            return None;
        }
        let mut listing = self.system.list(self.dir).ok()?;
        let entries = Entries::read(self.alloc, &mut listing)?;
        let dir = String::from_str(self.alloc, self.dir).ok()?;
        Some(Kept {
            dir,
            facts,
            entries,
        })
    }

    /// Looks through kept names, and answers whether there was such a name.
    fn search(&self, entries: &Entries, into: &mut NameBuf) -> Result<bool, FsError>
        ensures found { IfOk result (λ found. FoundAfter found self.now.after.now into.new) }
        ensures kept { IfOk result (λ found. IsTrue found → Contains entries.now into.new) }
        ensures fault { OnErr result (IsErrOf result FsError.Fault) }
    {
        for name in entries.after(self.after) {
            let name = name.as_bytes();
            if self.is_file(name)? {
                put(into, name);
                return Ok(true);
            }
        }
        Ok(false)
    }

    /// Lists the directory, and answers whether there was such a name.
    fn list(&self, into: &mut NameBuf) -> Result<bool, FsError>
        ensures found { IfOk result (λ found. FoundAfter found self.now.after.now into.new) }
        ensures exists { ¬ (IsErrOf result FsError.Exists) }
        ensures memory { ¬ (IsErrOf result FsError.Memory) }
    {
        match self.system.list(self.dir) {
            Ok(mut names) => self.scan(&mut names, into),
            Err(why) => Err(missing_or_fault(why.kind())),
        }
    }

    /// Looks through a listing, and answers whether there was such a name.
    fn scan<D: Read>(&self, names: &mut D, into: &mut NameBuf) -> Result<bool, FsError>
        ensures found { IfOk result (λ found. FoundAfter found self.now.after.now into.new) }
        ensures fault { OnErr result (IsErrOf result FsError.Fault) }
    {
        let mut piece = [0; LISTING_PIECE];
        let mut found = false;
        for _ in 0..u64::MAX {
            let count = or_fault(names.read(&mut piece))?;
            if count == 0 {
                return Ok(found);
            }
            found = self.look_through(&piece[..count], found, into)?;
        }
        Err(FsError::Fault)
    }

    /// Looks through names that end in NUL each. The flag says whether the buffer has a name already.
    fn look_through(&self, names: &[u8], found: bool, into: &mut NameBuf) -> Result<bool, FsError>
        requires { FoundAfter found self.now.after.now into.old }
        ensures found { IfOk result (λ found. FoundAfter found self.now.after.now into.new) }
        ensures fault { OnErr result (IsErrOf result FsError.Fault) }
    {
        let mut found = found;
        let mut left = names;
        while !left.is_empty() {
            let (name, others) = first_name(left);
            if is_nearer(name, self.after, found, into.as_slice()) && self.is_file(name)? {
                put(into, name);
                found = true;
            }
            left = others;
        }
        Ok(found)
    }

    /// Whether an entry counts: it has a name that calls take, it is no directory, and it is still there. One that can't be
    /// looked at, as a link to itself, counts: to open it is a fault, and those beside it are told all the same.
    fn is_file(&self, name: &[u8]) -> Result<bool, FsError>
        ensures entry { IfOk result (λ counts. IsTrue counts → IsEntry name.now) }
        ensures fault { OnErr result (IsErrOf result FsError.Fault) }
    {
        let Some(name) = entry_text(name) else {
            return Ok(false);
        };
        let dir = self.dir;
        let Ok(path) = format!(in self.alloc; "{dir}{name}") else {
            return Err(FsError::Fault);
        };
        match self.system.stat(path.as_str()) {
            Ok(facts) => Ok(!facts.is_dir),
            Err(why) => Ok(missing_or_fault(why.kind()) != FsError::NotThere),
        }
    }
}

/// Puts a name into the buffer, in place of what is there. The condition: it is an entry that counts.
fn put(into: &mut NameBuf, name: &[u8])
    requires { IsEntry name.now }
    ensures { into.new ≡ name.now }
{
    into.clear();
    let _ = into.extend(name);
}

/// The first of names that end in NUL each, and the others.
fn first_name(names: &[u8]) -> (&[u8], &[u8])
    requires { 0 < length names.now }
    ensures { length result.1.now < length names.now }
{
    match names.iter().position(|byte| *byte == 0) {
        Some(end) => (&names[..end], &names[end + 1..]),
        None => (names, &[]),
    }
}

/// What is kept, if it is of that directory and the system tells the same of it.
fn unchanged(kept: Option<Kept>, dir: &str, facts: Facts) -> Option<Kept>
    ensures some { IfSome result (λ now. (kept ≡ Some now) × (string_bytes now.dir ≡ dir.now) × IsSame now.facts facts) }
    ensures none { IfNone result (IfSome kept (λ old. ¬ ((string_bytes old.dir ≡ dir.now) × IsSame old.facts facts))) }
{
    let kept = kept?;
    if kept.is_of(dir, facts) {
        Some(kept)
    } else {
        None
    }
}

/// Whether a name comes after that one in byte order, and before the one that the flag says was found.
fn is_nearer(name: &[u8], after: &[u8], found: bool, nearest: &[u8]) -> bool
    ensures { result ≡ is_nearer name.now after.now found nearest.now }
{
    after.cmp(name).is_lt() && (!found || name.cmp(nearest).is_lt())
}
