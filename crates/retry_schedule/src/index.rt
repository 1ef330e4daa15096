// The entries of a schedule, as a map from each number to its due moment, and as a set in order. Each call works on both.
ghost use Rattle.std.specs.Prelude.{◌≡◌, ℕ, Bool, true, Option, Some, None, IsSome, OnErr, OnOk};
ghost use Rattle.std.specs.Ordering.{nat_cmp};
ghost use Rattle.std.specs.BTreeMap.{get};
ghost use Rattle.retry_schedule.specs.Due.{IsFirst, IsSchedule, first_due, moved, put};
ghost use Rattle.retry_schedule.specs.Index.{AreByMoment, IsAt, IsKept, Sets, SetsEntry, Tells, lesser, listed};

use crate::order::is_before;
use std::alloc::AllocError;
use std::collections::{BTreeMap, BTreeSet};

/// When each number is due.
pub type Moments = BTreeMap<u64, u64>;

/// The entries (due, n) in order.
pub type Index = BTreeSet<(u64, u64)>;

/// When a number is due; `None` if it has no entry.
pub fn due_of(moments: &Moments, n: u64) -> Option<u64>
    ensures { result ≡ get nat_cmp moments.now n }
{
    moments.get(&n).copied()
}

/// The least entry that is due at most now: by the index if that tells the entries, and else by the map.
pub fn first(moments: &Moments, index: &Index, indexed: bool, now: u64) -> Option<(u64, u64)>
    requires { IsKept moments.now index.now indexed }
    ensures first { IsFirst now (listed moments.now.entries) result }
    ensures is { result ≡ first_due now (listed moments.now.entries) }
    ensures schedule { IsSchedule (listed moments.now.entries) }
{
    if indexed {
        first_in(index, now)
    } else {
        least_in(moments, now)
    }
}

/// The first entry of the index, if it is due by now.
fn first_in(index: &Index, now: u64) -> Option<(u64, u64)>
    ensures { result ≡ first_due now index.now.keys }
{
    let Some(entry) = index.first() else {
        return None;
    };
    if entry.0 <= now { Some(*entry) } else { None }
}

/// The least entry that is due by now, by the map alone.
fn least_in(moments: &Moments, now: u64) -> Option<(u64, u64)>
    ensures { IsFirst now (listed moments.now.entries) result }
{
    let mut least = None;
    for (n, due) in moments {
        least = lesser(least, (*due, *n), now);
    }
    least
}

/// The one that comes first of those that are due by now: one more entry, or the least one so far.
fn lesser(least: Option<(u64, u64)>, entry: (u64, u64), now: u64) -> Option<(u64, u64)>
    ensures { result ≡ lesser now least entry }
{
    match least {
        None => { if entry.0 <= now { Some(entry) } else { None } }
        Some(first) => {
            if is_before(entry, first) {
                Some(entry)
            } else {
                Some(first)
            }
        }
    }
}

/// Makes the index anew if it doesn't tell the entries. After an `Err` the map is all that tells them still.
pub fn reindex(moments: &Moments, index: &mut Index, indexed: &mut bool) -> Result<(), AllocError>
    requires { IsKept moments.now index.old indexed.old }
    ensures kept { IsKept moments.now index.new indexed.new }
    ensures tells { OnOk result (Tells moments.now index.new) }
{
    if *indexed {
        return Ok(());
    }
    fill(index, moments)?;
    *indexed = true;
    Ok(())
}

/// Puts all entries of the map into the index, in place of what it had. After an `Err` it has some of them.
fn fill(index: &mut Index, moments: &Moments) -> Result<(), AllocError>
    ensures ordered { AreByMoment index.new }
    ensures tells { OnOk result (Tells moments.now index.new) }
{
    index.clear();
    for (n, due) in moments {
        index.insert((*due, *n))?;
    }
    Ok(())
}

/// Gives a number a due moment, in place of the one that it has, if it has one. The new entry goes into the index before
/// the old one leaves it. After an `Err` the entries are as before. The condition: the index tells them.
pub fn put(moments: &mut Moments, index: &mut Index, due: u64, n: u64) -> Result<(), AllocError>
    requires { IsKept moments.old index.old true }
    ensures kept { IsKept moments.new index.new true }
    ensures ok { OnOk result (listed moments.new.entries ≡ put (due, n) (listed moments.old.entries)) }
    ensures err { OnErr result (listed moments.new.entries ≡ listed moments.old.entries) }
{
    match due_of(moments, n) {
        None => enter(moments, index, due, n),
        Some(old) => {
            shift(index, old, due, n)?;
            set(moments, n, due);
            Ok(())
        }
    }
}

/// Puts in the entry of a number. After an `Err` the entries are as before. The conditions: the number has none, and the
/// index tells the entries.
fn enter(moments: &mut Moments, index: &mut Index, due: u64, n: u64) -> Result<(), AllocError>
    requires kept { IsKept moments.old index.old true }
    requires none { get nat_cmp moments.old n ≡ None }
    ensures kept { IsKept moments.new index.new true }
    ensures ok { OnOk result (Sets moments.old moments.new n (Some due)) }
    ensures err { OnErr result (moments.new.entries ≡ moments.old.entries) }
{
    index.insert((due, n))?;
    match moments.insert(n, due) {
        Ok(_) => Ok(()),
        Err(_) => {
            index.remove(&(due, n));
            Err(AllocError)
        }
    }
}

/// Puts another entry of a number into the index, and then takes the old one out. After an `Err` it is as before.
fn shift(index: &mut Index, old: u64, due: u64, n: u64) -> Result<(), AllocError>
    ensures ordered { AreByMoment index.new }
    ensures ok { OnOk result (IsAt index.old n (Some old) → SetsEntry index.old index.new n (Some due)) }
    ensures err { OnErr result (index.new.keys ≡ index.old.keys) }
{
    index.insert((due, n))?;
    if old == due {
        return Ok(());
    }
    index.remove(&(old, n));
    Ok(())
}

/// Gives a number that has a due moment another one. Takes no memory.
fn set(moments: &mut Moments, n: u64, due: u64)
    requires { IsSome (get nat_cmp moments.old n) }
    ensures { Sets moments.old moments.new n (Some due) }
{
    let was: Result<_, _> = moments.insert(n, due);
    was.unwrap();
}

/// Gives a number another due moment, if it has one. Where there is no memory for the index, that doesn't tell the
/// entries from then on.
pub fn reschedule(moments: &mut Moments, index: &mut Index, indexed: &mut bool, due: u64, n: u64)
    requires { IsKept moments.old index.old indexed.old }
    ensures kept { IsKept moments.new index.new indexed.new }
    ensures moved { listed moments.new.entries ≡ moved (due, n) (listed moments.old.entries) }
{
    let Some(old) = due_of(moments, n) else {
        return;
    };
    *indexed = is_shifted(index, *indexed, old, due, n);
    set(moments, n, due);
}

/// Puts another entry of a number into an index that tells the entries, in place of the old one; whether it tells them
/// then.
fn is_shifted(index: &mut Index, indexed: bool, old: u64, due: u64, n: u64) -> bool
    requires { AreByMoment index.old }
    ensures ordered { AreByMoment index.new }
    ensures was { result ≡ true → indexed ≡ true }
    ensures ok { result ≡ true → IsAt index.old n (Some old) → SetsEntry index.old index.new n (Some due) }
{
    if !indexed {
        return false;
    }
    match shift(index, old, due, n) {
        Ok(()) => true,
        Err(_) => false,
    }
}

/// Takes the entry of a number out, if it has one. Takes no memory.
pub fn take_out(moments: &mut Moments, index: &mut Index, n: u64)
    ensures sets { Sets moments.old moments.new n None }
    ensures kept { (indexed : Bool) → IsKept moments.old index.old indexed → IsKept moments.new index.new indexed }
{
    let Some(due) = moments.remove(&n) else {
        return;
    };
    index.remove(&(due, n));
}
