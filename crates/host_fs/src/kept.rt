// What is kept of a directory.
ghost use Rattle.std.specs.Prelude.{◌≡◌, ◌↔◌, IsTrue, string_bytes};
ghost use Rattle.std.specs.Duration.{as_nanos};
ghost use Rattle.host_fs.specs.Kept.{IsAtRest, IsPast, IsSame};

use crate::entries::Entries;
use crate::system::Facts;
use std::time::Duration;

/// How long a directory has to be at rest before its names are kept, in nanoseconds. File systems count the times of
/// changes in steps of up to a second, by a clock that may be some milliseconds late.
const REST: u128 = 2_000_000_000;

/// The names of a directory, and what the system told of the directory before it was listed.
#[derive(Drop)]
pub struct Kept {
    /// The path of the directory, with a `/` at its end.
    pub dir: String,
    /// What the system told of it.
    pub facts: Facts,
    /// Its names.
    pub entries: Entries,
}

impl Kept {
    /// Whether these are the names of that directory, and the system tells just the same of it as it told then.
    pub fn is_of(&self, dir: &str, facts: Facts) -> bool
        ensures { IsTrue result ↔ (string_bytes self.now.dir ≡ dir.now) × IsSame self.now.facts facts }
    {
        self.dir.as_str() == dir && is_same(self.facts, facts)
    }
}

/// Whether the system tells the same of a directory twice: its inode number, its length, and when it was modified and
/// changed, to the nanosecond.
fn is_same(old: Facts, new: Facts) -> bool
    ensures { IsTrue result ↔ IsSame old new }
{
    old.number == new.number
        && old.length == new.length
        && old.modified == new.modified
        && old.modified_nanos == new.modified_nanos
        && old.changed == new.changed
        && old.changed_nanos == new.changed_nanos
}

/// Whether a directory was changed for the last time at least two seconds before this time since 1970.
pub fn is_at_rest(facts: Facts, now: Duration) -> bool
    ensures { IsTrue result ↔ IsAtRest facts (as_nanos now) }
{
    let now = now.as_nanos();
    is_past(facts.modified, facts.modified_nanos, now)
        && is_past(facts.changed, facts.changed_nanos, now)
}

/// Whether a time, in seconds and nanoseconds, is at least two seconds before this one, in nanoseconds. One before 1970
/// isn't.
fn is_past(seconds: i64, nanos: i64, now: u128) -> bool
    ensures { IsTrue result ↔ IsPast seconds nanos now }
{
    let Ok(seconds) = u64::try_from(seconds) else {
        return false;
    };
    let Ok(nanos) = u64::try_from(nanos) else {
        return false;
    };
    seconds as u128 * 1_000_000_000 + nanos as u128 + REST <= now
}
