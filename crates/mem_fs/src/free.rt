// The numbers that nothing uses.
ghost use Rattle.std.specs.Prelude.{◌≤◌, ◌<◌, ℕ, IfSome, IfNone, IsTrue};
ghost use Rattle.std.specs.Ordering.{nat_cmp};
ghost use Rattle.std.specs.BTreeSet.{contains};
ghost use Rattle.mem_files.specs.Tables.{AreNumbersInOrder};
ghost use Rattle.mem_files.specs.MemFiles.{NoneIdle};
ghost use Rattle.mem_fs.specs.MemDisk.{IsIndexed, IsIndexedBeside, IsIndexedWith, IsLeastIdle, IsLeastOf};

use mem_files::files::{self, Entry};
use std::collections::BTreeSet;

/// Numbers that nothing uses, in order.
pub type Free = BTreeSet<u64>;

/// The least number from 1 that nothing uses; None only if every u64 from 1 is used. The condition: each idle number below
/// `low` is among `free`, which are idle.
pub fn least(files: &[Entry], free: &Free, low: u64) -> Option<u64>
    requires in_order { AreNumbersInOrder files.now }
    requires indexed { IsIndexed files.now free.now low }
    ensures some { IfSome result (IsLeastIdle files.now) }
    ensures none { IfNone result (NoneIdle files.now) }
{
    if let Some(number) = first_below(free, low) {
        return Some(number);
    }
    let mut number = low;
    while !files::is_idle(files, number) {
        number = number.checked_add(1)?;
    }
    Some(number)
}

/// The least of these, if it is below `low`.
fn first_below(free: &Free, low: u64) -> Option<u64>
    ensures some { IfSome result (λ n. (n < low) × IsLeastOf free.now n) }
    ensures none { IfNone result ((m : ℕ) → IsTrue (contains nat_cmp free.now m) → low ≤ m) }
{
    let number = free.first()?;
    if *number < low { Some(*number) } else { None }
}

/// A number is used from now on. Gives the number below which each idle one is listed.
pub fn taken(free: &mut Free, low: u64, number: u64, files: &[Entry]) -> u64
    requires { IsIndexedWith files.now free.old low number }
    ensures { IsIndexed files.now free.new result }
{
    free.remove(&number);
    if number != low {
        return low;
    }
    low.saturating_add(1)
}

/// What uses a number became less. Gives the number below which each idle one is listed: where there is no memory for an
/// entry of this one, that is this number.
pub fn returned(free: &mut Free, low: u64, number: u64, files: &[Entry]) -> u64
    requires in_order { AreNumbersInOrder files.now }
    requires indexed { IsIndexedBeside files.now free.old low number }
    ensures { IsIndexed files.now free.new result }
{
    if number >= low || !files::is_idle(files, number) {
        return low;
    }
    match free.insert(number) {
        Ok(_) => low,
        Err(_) => number,
    }
}
