// A drop as a machine.
ghost use Rattle.std.specs.Prelude.{◌≡◌};
ghost use Rattle.maildir_drop.specs.Table.{status_of};

use crate::names::{DropNames, pair};
use crate::pieces::Pieces;
use crate::steps::{begin_row, create_row, link_row, next_row, sync_row, why_of};
use crate::{Attempt, DEFER, End, Outcome, Row, Why};
use call_fs::{Answer, Call, Fd, Got, Machine, Need, Ready, UNREADY};
use mail_bytes::Memory;
use queue_limits::{DONE, MEMORY};
use std::alloc::Global;

/// The delivery of one message into a maildir, as a machine (maildir(5)). It creates a file in `tmp` under a name that no
/// other delivery uses, writes and syncs it, closes it, links it into `new` and unlinks it in `tmp`. What it does depends
/// neither on the moment nor on what is ready. It takes no memory after `new`.
#[derive(Drop)]
pub struct MaildirDrop {
    names: DropNames,
    left: Pieces,
    row: Row,
    present: u64,
    ready: Ready,
}

impl MaildirDrop {
    ghost use Rattle.std.specs.Prelude.{◌≡◌, ◌≤◌, ◌∷◌, [], List, ℕ, All, IfOk, IsOk, length};
    ghost use Rattle.mail_bytes.specs.Moments.{IsMoment};
    ghost use Rattle.call_fs.specs.declared.file_system.TheConstants.{PIECE};
    ghost use Rattle.call_fs.specs.declared.past.Own.{Own};
    ghost use Rattle.call_fs.specs.Program.{due_of, came_of, IsKind};
    ghost use Rattle.maildir_drop.specs.declared.arguments.Arguments.{Arguments};
    ghost use Rattle.mail_bytes.specs.Blocks.{joined};
    ghost use Rattle.maildir_drop.specs.Ends.{end_data, end_is, end_with, is_linked};
    ghost use Rattle.maildir_drop.specs.Stands.{Stands, due_now, place_of};
    ghost use Rattle.maildir_drop.specs.Table.{Next, appended, answered, link_due, moved};

    /// The drop of the blocks, one after the other, into the maildir of this path, which stands before `tmp/` and `new/` as
    /// it is. Moment, process number and host make its name. Takes all its memory; fails only if there is too little. The
    /// condition: a block has at most 8192 bytes.
    pub fn new(
        alloc: Global,
        dir: &[u8],
        moment: u64,
        pid: u32,
        host: &[u8],
        blocks: Vec<Vec<u8>>,
    ) -> Result<MaildirDrop, Memory>
        requires { All (λ block. length block.items ≤ PIECE) blocks.items }
        ensures stands { IfOk result (λ m. Stands m
            (record { dir = dir.now; moment = moment; pid = pid; host = host.now; bytes = joined blocks.items }) []) }
    {
        let left = Pieces::of(alloc, blocks)?;
        let names = DropNames {
            first: pair(alloc, dir, moment, pid, host, Attempt::First)?,
            second: pair(alloc, dir, moment, pid, host, Attempt::Second)?,
            third: pair(alloc, dir, moment, pid, host, Attempt::Third)?,
        };
        let row = begin_row(&names, Attempt::First);
        Ok(MaildirDrop {
            names,
            left,
            row,
            present: 0,
            ready: UNREADY,
        })
    }

    /// How it ended; `None` while it goes on.
    pub fn end(&self) -> Option<End<'_>>
        ensures { end_is self.now result }
    {
        match self.row {
            Row::Ended { attempt, outcome } => Some(self.end_of(attempt, outcome)),
            _ => None,
        }
    }

    /// The end of this outcome.
    fn end_of(&self, attempt: Attempt, outcome: Outcome) -> End<'_>
        ensures { end_data result ≡ end_with self.now.names attempt outcome }
    {
        match outcome {
            Outcome::Dropped => End::Dropped {
                name: self.names.pair(attempt).new.as_slice(),
            },
            Outcome::Failed(Why::Defer) => End::Defer,
            Outcome::Failed(Why::Memory) => End::Memory,
        }
    }

    /// Whether its link was made, and only the unlink is left: whatever comes of that, it ends dropped.
    pub fn is_linked(&self) -> bool
        ensures { result ≡ is_linked self.now.row }
    {
        matches!(
            self.row,
            Row::Unlink {
                outcome: Outcome::Dropped,
                ..
            }
        )
    }

    /// Tells it the moment, and what is ready. Takes no memory. The condition: a clock may tell the moment.
    pub fn look(&mut self, now: u64, ready: Ready)
        requires moment { IsMoment now }
        ensures stands { (args : Arguments) (past : List Own) → Stands self.old args past → Stands self.new args past }
        ensures rest { self.new ≡ record self.old { present = now; ready = ready } }
    {
        self.present = now;
        self.ready = ready;
    }

    /// What it does next: the next of its table, after any past that it stands for. Takes no memory.
    pub fn need(&self) -> Need<'_>
        ensures stands { (args : Arguments) (past : List Own) → Stands self.now args past
            → due_of result ≡ Next args past self.now.present self.now.ready }
        ensures due { due_of result ≡ due_now self.now }
    {
        self.asks()
    }

    /// The step of its row.
    fn asks(&self) -> Need<'_>
        ensures { due_of result ≡ due_now self.now }
    {
        match self.row {
            Row::Create { attempt } => {
                Need::File(Call::CreateExcl(self.names.pair(attempt).tmp.as_slice()))
            }
            Row::Append { fd, .. } => Need::File(Call::Append(fd, self.left.first())),
            Row::Sync { fd, .. } => Need::File(Call::Sync(fd)),
            Row::Close { fd, .. } | Row::Shut { fd, .. } => Need::File(Call::Close(fd)),
            Row::Link { attempt } => self.link(attempt),
            Row::Unlink { attempt, .. } => {
                Need::File(Call::Unlink(self.names.pair(attempt).tmp.as_slice()))
            }
            Row::Ended { outcome, .. } => Need::Ended(status_of(outcome)),
        }
    }

    /// The link into `new`.
    fn link(&self, attempt: Attempt) -> Need<'_>
        ensures { due_of result ≡ link_due self.now.names attempt }
    {
        let names = self.names.pair(attempt);
        Need::File(Call::Link(names.tmp.as_slice(), names.new.as_slice()))
    }

    /// Hands in what came of its need. It takes no memory and never answers `Memory`. The condition: this is of the kind of
    /// its need.
    pub fn done(&mut self, got: Got<'_>) -> Result<(), Memory>
        requires kind { IsKind (due_now self.old) (came_of got) }
        ensures ok { IsOk result }
        ensures stands { (args : Arguments) (past : List Own) → Stands self.old args past → Stands self.new args
            (record { read = self.old.present; ready = self.old.ready; due = due_now self.old; came = came_of got.entry } ∷ past) }
        ensures goes { place_of self.new ≡ moved self.old.names (place_of self.old) (came_of got.entry) }
        ensures names { self.new.names ≡ self.old.names }
    {
        self.go_on(&got);
        Ok(())
    }

    /// Goes where it leads.
    fn go_on(&mut self, got: &Got<'_>)
        ensures place { place_of self.new ≡ moved self.old.names (place_of self.old) (came_of got.now) }
        ensures names { self.new.names ≡ self.old.names }
    {
        if let Got::File(answer, _) = got {
            self.answered(answer);
        }
    }

    /// After the answer to a file call.
    fn answered(&mut self, answer: &Answer)
        ensures place { place_of self.new ≡ answered self.old.names self.old.row (place_of self.old) answer.now }
        ensures names { self.new.names ≡ self.old.names }
    {
        match self.row {
            Row::Create { attempt } => {
                let is_complete = self.left.is_empty();
                self.row = create_row(&self.names, attempt, is_complete, answer);
            }
            Row::Append { attempt, fd } => self.appended(attempt, fd, answer),
            Row::Sync { attempt, fd } => self.row = sync_row(attempt, fd, answer),
            Row::Close { attempt, .. } => self.row = Row::Link { attempt },
            Row::Link { attempt } => self.row = link_row(attempt, answer),
            Row::Shut { attempt, why, .. } => {
                let outcome = Outcome::Failed(why);
                self.row = Row::Unlink { attempt, outcome };
            }
            Row::Unlink { attempt, outcome } => self.row = Row::Ended { attempt, outcome },
            Row::Ended { .. } => {}
        }
    }

    /// After an append.
    fn appended(&mut self, attempt: Attempt, fd: Fd, answer: &Answer)
        ensures place { place_of self.new ≡ appended attempt fd self.old.left answer.now }
        ensures names { self.new.names ≡ self.old.names }
    {
        match answer {
            Answer::Done => {
                self.left.pass();
                self.row = next_row(attempt, fd, self.left.is_empty());
            }
            _ => {
                let why = why_of(answer);
                self.row = Row::Shut { attempt, fd, why };
            }
        }
    }
}

/// The exit status of an outcome.
fn status_of(outcome: Outcome) -> u8
    ensures { result ≡ status_of outcome }
{
    match outcome {
        Outcome::Dropped => DONE,
        Outcome::Failed(Why::Defer) => DEFER,
        Outcome::Failed(Why::Memory) => MEMORY,
    }
}

impl Machine for MaildirDrop {
    ghost use Rattle.std.specs.Prelude.{◌≡◌, true, None, List, ℕ};
    ghost use Rattle.call_fs.specs.declared.past.Own.{Own};
    ghost use Rattle.call_fs.specs.declared.program.Ready.{Ready as Found};
    ghost use Rattle.call_fs.specs.Past.{IsRunBy, UsesHeld, held};
    ghost use Rattle.maildir_drop.specs.declared.arguments.Arguments.{Arguments};
    ghost use Rattle.maildir_drop.specs.Stands.{Stands, due_now, place_of};
    ghost use Rattle.maildir_drop.specs.Table.{Next, moved};

    type Arguments = crate::Arguments;

    ghost present = { λ m. m.present };

    ghost found = { λ m. m.ready };

    ghost looked = { λ _. true };

    ghost can_find = { λ _ _. Unit {0} };

    ghost due = { due_now };

    ghost takes_at_most = { λ _. 18446744073709551615 };

    ghost has_room = { λ _. Unit {0} };

    ghost ahead = { λ _. None };

    ghost next = { Next };

    ghost looks = { λ m now ready n. n ≡ record m { present = now; ready = ready } };

    ghost goes = { λ m got n. place_of n ≡ moved m.names (place_of m) got };

    ghost stands = { Stands };

    fn look(&mut self, now: u64, ready: Ready) {
        self.look(now, ready)
    }

    fn need(&self) -> Need<'_> {
        self.need()
    }

    fn taking_room(&self) -> usize {
        usize::MAX
    }

    fn done(&mut self, _alloc: Global, got: Got<'_>) -> Result<(), Memory> {
        self.done(got)
    }

    fn uses_held()
        ensures uses { (args : Arguments) (past : List Own) (now : ℕ) (ready : Found) → IsRunBy (Next args) past
            → UsesHeld (held past) (Next args past now ready) }
    {}
}
