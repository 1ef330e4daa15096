// What an open pass has still to give.
ghost use Rattle.std.specs.Prelude.{◌≡◌, ◌++◌, [], slice_get, drop, IfOk, OnOk};
ghost use Rattle.std.specs.Option.{option_copied, option_to_list};
ghost use Rattle.envelope_records.specs.declared.channel.Record.{Record};
ghost use Rattle.send_jobs.specs.Passes.{attempt_at, attempt_of, attempts_of};

use crate::attempts::Attempt;
use envelope_records::Record;
use mail_bytes::{ByteText, Memory};
use std::alloc::Global;
use std::collections::VecDeque;
use std::marker::Model;

/// The attempts that the open pass of a channel has still to make, in order; contracts see their list. The pass is open as
/// long as there is one.
#[derive(Drop)]
pub struct Left {
    attempts: VecDeque<Attempt>,
}

impl Model for Left {
    ghost use Rattle.std.specs.Prelude.{List};
    ghost use Rattle.send_jobs.specs.declared.attempts.Attempt.{Attempt};

    ghost Value = { List Attempt };

    ghost view = { λ l. l.attempts.items };
}

impl Left {
    /// None: no pass is open. Takes no memory.
    pub fn new(alloc: Global) -> Self
        ensures { result ≡ [] }
    {
        Left {
            attempts: VecDeque::new(alloc),
        }
    }

    /// Those of a pass over these records of a message: the ones that read `T`. The error: out of memory.
    pub fn of(alloc: Global, n: u64, records: &[Record], dying: bool) -> Result<Self, Memory>
        ensures { IfOk result (λ left. left ≡ attempts_of n dying records.now) }
    {
        let mut attempts = VecDeque::new(alloc);
        for record in records {
            put_attempt(alloc, &mut attempts, n, record, dying)?;
        }
        Ok(Left { attempts })
    }

    /// The one that comes so many after the next one.
    pub fn get(&self, ahead: usize) -> Option<&Attempt>
        ensures { option_copied result ≡ slice_get self.now ahead }
    {
        self.attempts.get(ahead)
    }

    /// Takes the next one out.
    pub fn take_first(&mut self) -> Option<Attempt>
        ensures first { result ≡ slice_get self.old 0 }
        ensures rest { self.new ≡ drop 1 self.old }
    {
        self.attempts.pop_front()
    }
}

/// Puts the attempt at a record at the end, if the record reads `T`.
fn put_attempt(
    alloc: Global,
    attempts: &mut VecDeque<Attempt>,
    n: u64,
    it: &Record,
    dying: bool,
) -> Result<(), Memory>
    ensures { OnOk result (attempts.new.items ≡ attempts.old.items ++ option_to_list (attempt_of n dying it.now)) }
{
    if !it.done {
        attempts.push_back(attempt_at(alloc, n, it, dying)?)?;
    }
    Ok(())
}

/// The attempt at a record.
fn attempt_at(alloc: Global, n: u64, it: &Record, dying: bool) -> Result<Attempt, Memory>
    ensures { IfOk result (λ attempt. attempt ≡ attempt_at n dying it.now) }
{
    Ok(Attempt {
        n,
        place: it.place,
        dying,
        delivery: 0,
        address: ByteText::from_slice(alloc, it.address.as_slice())?,
    })
}
