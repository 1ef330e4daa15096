// The names of a disk in memory, in byte order, with their numbers.
ghost use Rattle.std.specs.Prelude.{◌≡◌, ◌<◌, ◌≤◌, ◌+◌, ◌^◌, ◌++◌, [], ◌∷◌, ◌==◌, ℕ, List, length, Some, None, IsSome, IfSome, IfNone, IfOk, OnOk, OnErr, if◌then◌else◌};
ghost use Rattle.call_fs.specs.Maps.{put_at};
ghost use Rattle.call_fs.specs.Disk.{Disk};
ghost use Rattle.call_fs.specs.Apply.{IsNextName, IsLastName};
ghost use Rattle.mem_fs.specs.Tables.{at_name, texts, AreNamesInOrder, IsRest};
ghost use Rattle.mem_fs.specs.MemDisk.{names_of};

use crate::part;
use mail_bytes::Memory;
use std::alloc::Global;
use std::collections::BTreeMap;
use std::collections::btree_map::Range;
use std::ops::Bound;

/// The names with their numbers.
pub type Names = BTreeMap<Vec<u8>, u64>;

/// What is left of a walk over them.
type Rest<'a> = Range<'a, Vec<u8>, u64>;

/// The number of a name.
pub fn number_of(names: &Names, name: &[u8]) -> Option<u64>
    ensures { result ≡ at_name (texts names.now.entries) name.now }
{
    names.get(name).copied()
}

/// Adds a name. After an `Err` all is as before. The condition: it isn't there.
pub fn insert(names: &mut Names, name: Vec<u8>, number: u64) -> Result<(), Memory>
    requires { at_name (texts names.old.entries) name.items ≡ None }
    ensures in_order { AreNamesInOrder (texts names.new.entries) }
    ensures value { OnOk result (at_name (texts names.new.entries) ≡ put_at (at_name (texts names.old.entries)) name.items (Some number)) }
    ensures count { OnOk result ((n : ℕ)
        → names_of (texts names.new.entries) n ≡ names_of (texts names.old.entries) n + (if number == n then 1 else 0)) }
    ensures small { OnOk result (length (texts names.new.entries) < 2 ^ 63) }
    ensures err { OnErr result (texts names.new.entries ≡ texts names.old.entries) }
{
    names.insert(name, number)?;
    prove!(names.len() < usize::MAX);
    Ok(())
}

/// Takes a name away. The condition: it is there.
pub fn remove(names: &mut Names, name: &[u8])
    requires in_order { AreNamesInOrder (texts names.old.entries) }
    requires there { IsSome (at_name (texts names.old.entries) name.now) }
    ensures in_order { AreNamesInOrder (texts names.new.entries) }
    ensures value { at_name (texts names.new.entries) ≡ put_at (at_name (texts names.old.entries)) name.now None }
    ensures count { (number : ℕ) → at_name (texts names.old.entries) name.now ≡ Some number → (n : ℕ)
        → names_of (texts names.old.entries) n ≡ names_of (texts names.new.entries) n + (if number == n then 1 else 0) }
{
    names.remove(name);
}

/// The name of a part in a directory.
fn joined(alloc: Global, dir: &[u8], part: &[u8]) -> Result<Vec<u8>, Memory>
    ensures { IfOk result (λ name. name.items ≡ dir.now ++ 47 ∷ part.now) }
{
    let mut name = Vec::with_capacity(alloc, dir.len().saturating_add(256))?;
    name.extend_from_slice(dir)?;
    name.push(b'/')?;
    name.extend_from_slice(part)?;
    Ok(name)
}

/// The names from that one in the directory on, without it. If memory runs out, all names.
fn rest_after<'a>(alloc: Global, names: &'a Names, dir: &[u8], after: &[u8]) -> Rest<'a>
    ensures { IsRest (texts names.now.entries) dir.now after.now (texts result) }
{
    match joined(alloc, dir, after) {
        Ok(name) => names.range((Bound::Excluded(&name), Bound::Unbounded)),
        Err(_) => names.range(..),
    }
}

/// A text after all names below a directory in the directory, and before what comes after them: `0` is the byte after `/`.
fn end_of(alloc: Global, dir: &[u8], subdir: &[u8]) -> Result<Vec<u8>, Memory>
    ensures { IfOk result (λ end. end.items ≡ dir.now ++ 47 ∷ (subdir.now ++ 48 ∷ [])) }
{
    let mut end = joined(alloc, dir, subdir)?;
    end.push(b'0')?;
    Ok(end)
}

/// What is left after a name below the directory, without what else is below the same directory in there. If memory runs
/// out, all that is left.
fn beyond<'a>(alloc: Global, names: &'a Names, dir: &[u8], below: &[u8], rest: Rest<'a>) -> Rest<'a>
    ensures { (after : List ℕ) (number : ℕ) → IsRest (texts names.now.entries) dir.now after ((dir.now ++ 47 ∷ below.now, number) ∷ texts rest.entry)
        → IsRest (texts names.now.entries) dir.now after (texts rest.entry)
        → IsRest (texts names.now.entries) dir.now after (texts result) × (length result ≤ length rest.entry) }
{
    let Some(at) = part::place_of_slash(below) else {
        return rest;
    };
    match end_of(alloc, dir, &below[..at]) {
        Ok(end) => names.range((Bound::Included(&end), Bound::Unbounded)),
        Err(_) => rest,
    }
}

/// The least name in a directory after that one. It looks at each subdirectory before it once, however much is in there.
pub fn next<'a>(alloc: Global, names: &'a Names, dir: &[u8], after: &[u8]) -> Option<&'a [u8]>
    ensures some { IfSome result (λ name. (d : Disk) → d.names ≡ at_name (texts names.now.entries) → IsNextName d dir.now after.now name.now) }
    ensures none { IfNone result ((d : Disk) → d.names ≡ at_name (texts names.now.entries) → IsLastName d dir.now after.now) }
{
    let mut rest = rest_after(alloc, names, dir, after);
    while let Some((name, _)) = rest.next() {
        let name = name.as_slice();
        if part::compare(name, dir, after).is_gt() {
            let below = part::below(name, dir)?;
            if part::is_part(below) {
                return Some(below);
            }
            rest = beyond(alloc, names, dir, below, rest);
        }
    }
    None
}
