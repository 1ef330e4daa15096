// The cleaner as a machine.
ghost use Rattle.std.specs.Prelude.{◌≡◌, ◌≤◌, ◌∷◌, ◌↔◌, [], List, ℕ, Bool, IfSome, IsOk, IsTrue, length, option_map, if◌then◌else◌};
ghost use Rattle.mail_bytes.specs.Moments.{IsMoment};
ghost use Rattle.call_fs.specs.declared.past.Own.{Own};
ghost use Rattle.call_fs.specs.Program.{due_of, came_of, IsWithin};
ghost use Rattle.queue_clean.specs.Table.{Next, name_told, name_in, moment_told, moment_in, gone_told, is_gone, found, stated, took, gave, is_old, after_intd, after_second, search_after};
ghost use Rattle.queue_clean.specs.Table.Step.{Answers};
ghost use Rattle.queue_clean.specs.Machine.{due_now, gone_on, step_on, with_next};
ghost use Rattle.queue_clean.specs.Stands.{Stands};

use crate::intake::Intake;
use crate::named_row::NamedRow;
use crate::pid_name::PidName;
use crate::{Command, Reply, Row};
use call_fs::{Answer, Call, FsError, Got, Machine, Need, PIECE, Port, Ready};
use mail_bytes::Memory;
use queue_limits::{DONE, INPUT, OUTPUT, PID_NAME_AGE};
use std::alloc::Global;
use std::marker::Model;

/// The cleaner: the program that alone removes message files, as a machine.
///
/// It takes commands from its input, removes two names for each, and gives one byte to its output: `+` if both are gone, `!`
/// if one could not be removed, `x` if that was no command. Before commands 1, 32, 63 and so on it goes through `pid`,
/// and removes what was last written there more than 36 hours ago.
///
/// A taking may bring at most 8192 bytes (`call_fs::PIECE`): they and all else that it keeps are held in place.
#[derive(Drop)]
pub struct Cleaner {
    place: NamedRow,
    pid: PidName,
    intake: Intake,
    present: u64,
    ready: Ready,
}

impl Model for Cleaner {
    ghost use Rattle.queue_clean.specs.Machine.{Machine};

    ghost Value = { Machine };

    ghost use Rattle.queue_clean.specs.Inside.{machine_of};

    ghost view = { machine_of };
}

impl Cleaner {
    /// A cleaner that has done nothing yet. Takes no memory.
    pub fn new() -> Cleaner
        ensures { (args : Unit {0}) → Stands result args [] }
    {
        Cleaner {
            place: NamedRow::new(),
            pid: PidName::new(),
            intake: Intake::new(),
            present: 0,
            ready: Ready {
                links: [false; 4],
                child: None,
            },
        }
    }

    /// Tells it the moment, and what is ready, which doesn't matter to it. The condition: a clock may tell the moment.
    /// Takes no memory.
    pub fn look(&mut self, now: u64, ready: Ready)
        requires { IsMoment now }
        ensures stands { (args : Unit {0}) (past : List Own) → Stands self.old args past → Stands self.new args past }
        ensures rest { self.new ≡ record self.old { present = now; ready = ready } }
    {
        self.present = now;
        self.ready = ready;
    }

    /// What it does next: the next of its table, after any past that it stands for. It never asks for `Wait`: when it needs
    /// more of its input, it asks for a taking. Takes no memory.
    pub fn need(&self) -> Need<'_>
        ensures stands { (args : Unit {0}) (past : List Own) → Stands self.now args past
            → due_of result ≡ Next args past self.now.present self.now.ready }
        ensures due { due_of result ≡ due_now self.now }
    {
        match self.place.row() {
            Row::FindPid => self.search(),
            Row::StatPid => Need::File(Call::Stat(self.pid.path())),
            Row::JudgePid { moment } if is_old(moment, self.present) => Need::File(Call::Unlink(
                self.pid.path(),
            )),
            Row::JudgePid { .. } => self.search(),
            Row::TakeInput => Need::Take(Port::Input),
            Row::UnlinkIntd { .. } => Need::File(Call::Unlink(self.place.name())),
            Row::UnlinkSecond { .. } => Need::File(Call::Unlink(self.place.name())),
            Row::Answer { reply } => Need::Give(Port::Output, reply.text()),
            Row::Ended { status } => Need::Ended(status),
        }
    }

    /// The search of the next name in `pid`.
    fn search(&self) -> Need<'_>
        ensures { due_of result ≡ search_after self.now.name }
    {
        Need::File(Call::NextName(b"pid", self.pid.name()))
    }

    /// Hands in what came of it. It takes no memory and never answers `Memory`. The condition: a taking brought at most 8192
    /// bytes. What isn't of the kind of its need counts as a failure.
    pub fn done(&mut self, got: Got<'_>) -> Result<(), Memory>
        requires { IsWithin PIECE (came_of got) }
        ensures ok { IsOk result }
        ensures stands { (args : Unit {0}) (past : List Own) → Stands self.old args past → Stands self.new args
            (record { read = self.old.present; ready = self.old.ready; due = due_now self.old; came = came_of got.entry } ∷ past) }
        ensures on { self.new ≡ gone_on self.old (came_of got.entry) }
    {
        self.go_on(&got);
        Ok(())
    }

    /// Goes where it leads.
    fn go_on(&mut self, got: &Got<'_>)
        requires { IsWithin PIECE (came_of got.now) }
        ensures { self.new ≡ gone_on self.old (came_of got.now) }
    {
        match self.place.row() {
            Row::FindPid => self.found(got),
            Row::StatPid => self.place.go(stated(moment_in(got))),
            Row::JudgePid { moment } if is_old(moment, self.present) => {
                self.place.go(Row::FindPid)
            }
            Row::JudgePid { .. } => self.found(got),
            Row::TakeInput => self.took(got),
            Row::UnlinkIntd { command } => self.place.go(after_intd(command, is_gone(got))),
            Row::UnlinkSecond { .. } => self.place.go(after_second(is_gone(got))),
            Row::Answer { .. } => self.gave(got),
            Row::Ended { status } => self.place.go(Row::Ended { status }),
        }
    }

    /// After a search of `pid`.
    fn found(&mut self, got: &Got<'_>)
        ensures { self.new ≡ step_on (found (name_in (came_of got.now))) self.old }
    {
        match name_in(got) {
            None => self.go_to_next(),
            Some(name) => {
                self.pid.set(name);
                self.place.go(Row::StatPid);
            }
        }
    }

    /// After a taking.
    fn took(&mut self, got: &Got<'_>)
        requires { IsWithin PIECE (came_of got.now) }
        ensures { self.new ≡ step_on (took (came_of got.now)) self.old }
    {
        match got {
            Got::Took(bytes) => {
                self.intake.take(bytes);
                self.go_to_next();
            }
            Got::End => self.place.go(Row::Ended { status: DONE }),
            _ => self.place.go(Row::Ended { status: INPUT }),
        }
    }

    /// After a giving.
    fn gave(&mut self, got: &Got<'_>)
        ensures { self.new ≡ step_on (gave (came_of got.now)) self.old }
    {
        match got {
            Got::Gave => self.go_on_answered(),
            _ => self.place.go(Row::Ended { status: OUTPUT }),
        }
    }

    /// After an answer: to a scan of `pid`, if it is time for one, else to the next command.
    fn go_on_answered(&mut self)
        ensures { self.new ≡ step_on Answers self.old }
    {
        if self.intake.turn() == 0 {
            self.pid.set(b"");
            self.place.go(Row::FindPid);
        } else {
            self.go_to_next();
        }
    }

    /// To the next command, or to a taking if there is none.
    fn go_to_next(&mut self)
        ensures { self.new ≡ with_next self.old }
    {
        let row = self.intake.next();
        self.place.go(row);
    }
}

/// Whether a file that was last written at this moment is old.
fn is_old(moment: u64, now: u64) -> bool
    ensures { result ≡ is_old moment now }
{
    now.saturating_sub(moment) > PID_NAME_AGE
}

/// The name that a search gave.
fn name_in<'a>(got: &'a Got<'_>) -> Option<&'a [u8]>
    ensures name { option_map (λ name. name.now) result ≡ name_in (came_of got.now) }
    ensures short { IfSome result (λ name. length name.now ≤ 255) }
{
    match got {
        Got::File(answer, _) => name_told(answer),
        _ => None,
    }
}

/// The name in an answer.
fn name_told(answer: &Answer) -> Option<&[u8]>
    ensures name { option_map (λ name. name.now) result ≡ name_told answer.now }
    ensures short { IfSome result (λ name. length name.now ≤ 255) }
{
    match answer {
        Answer::Name(name) => Some(name.as_slice()),
        _ => None,
    }
}

/// The moment that a stat gave.
fn moment_in(got: &Got<'_>) -> Option<u64>
    ensures { result ≡ moment_in (came_of got.now) }
{
    match got {
        Got::File(answer, _) => moment_told(answer),
        _ => None,
    }
}

/// The moment in an answer.
fn moment_told(answer: &Answer) -> Option<u64>
    ensures { result ≡ moment_told answer.now }
{
    match answer {
        Answer::Stat(stat) => Some(stat.moment),
        _ => None,
    }
}

/// Whether a name that was to be unlinked is gone.
fn is_gone(got: &Got<'_>) -> bool
    ensures { result ≡ is_gone (came_of got.now) }
{
    match got {
        Got::File(answer, _) => gone_told(answer),
        _ => false,
    }
}

/// Whether an answer tells so.
fn gone_told(answer: &Answer) -> bool
    ensures { result ≡ gone_told answer.now }
{
    match answer {
        Answer::Done => true,
        Answer::Refused(why) => matches!(why, FsError::NotThere),
        _ => false,
    }
}

/// After a stat.
fn stated(moment: Option<u64>) -> Row
    ensures { result ≡ stated moment }
{
    match moment {
        None => Row::FindPid,
        Some(moment) => Row::JudgePid { moment },
    }
}

/// After the unlink of `intd/N`.
fn after_intd(command: Command, is_gone: bool) -> Row
    ensures { result ≡ after_intd command is_gone }
{
    if is_gone {
        Row::UnlinkSecond { command }
    } else {
        Row::Answer {
            reply: Reply::Failed,
        }
    }
}

/// After the unlink of the second name.
fn after_second(is_gone: bool) -> Row
    ensures { result ≡ after_second is_gone }
{
    let reply = if is_gone {
        Reply::Removed
    } else {
        Reply::Failed
    };
    Row::Answer { reply }
}

impl Machine for Cleaner {
    ghost use Rattle.std.specs.Prelude.{◌≡◌, true, None};
    ghost use Rattle.queue_clean.specs.Machine.{due_now, gone_on};
    ghost use Rattle.queue_clean.specs.Stands.{Stands};
    ghost use Rattle.call_fs.specs.declared.file_system.TheConstants.{PIECE};
    ghost use Rattle.queue_clean.specs.Table.{Next};

    type Arguments = ();

    ghost present = { λ m. m.present };

    ghost found = { λ m. m.ready };

    ghost looked = { λ _. true };

    ghost can_find = { λ _ _. Unit {0} };

    ghost due = { due_now };

    ghost takes_at_most = { λ _. PIECE };

    ghost has_room = { λ _. Unit {0} };

    ghost ahead = { λ _. None };

    ghost next = { Next };

    ghost looks = { λ m now ready n. n ≡ record m { present = now; ready = ready } };

    ghost goes = { λ m came n. n ≡ gone_on m came };

    ghost stands = { Stands };

    fn look(&mut self, now: u64, ready: Ready) {
        self.look(now, ready)
    }

    fn need(&self) -> Need<'_> {
        self.need()
    }

    fn taking_room(&self) -> usize {
        PIECE
    }

    fn done(&mut self, _alloc: Global, got: Got<'_>) -> Result<(), Memory> {
        self.done(got)
    }

    fn uses_held() {}
}
