// A sender that knows many messages, over a table of answers.
ghost use Rattle.std.specs.Prelude.{◌≡◌, true};

use call_fs::{Answer, Call, Fd, FsError, Got, Need, Port, Ready, Stat};
use mail_bytes::{NameBuf, dec, undec};
use send_core::Sender;
use std::alloc::Global;

/// How many messages there are, what the file that was opened last holds, what waits on the link to the remote spawner, and how
/// many messages were removed.
#[derive(Drop)]
struct Table {
    crowd: u64,
    held: &'static [u8],
    reports: Vec<u8>,
    removed: u64,
}

/// The numbers of the messages are the multiples of this, so all their files lie in directories of the number 0.
const APART: u64 = 23;

/// The next of the messages after this name.
fn next_of(crowd: u64, after: &[u8]) -> Answer {
    let n = undec(after).unwrap_or(0);
    if n / APART >= crowd {
        return Answer::NoName;
    }
    let mut digits = [0; 20];
    let len = dec(n.saturating_add(APART), &mut digits);
    let mut name = NameBuf::new();
    match name.extend(&digits[..len]) {
        Ok(()) => Answer::Name(name),
        Err(_) => Answer::NoName,
    }
}

/// What a file call is answered: each message has a file of the remote channel, and none of the local one.
fn answer_of(table: &mut Table, call: Call<'_>) -> Answer {
    match call {
        Call::NextName(b"info/0", after) => next_of(table.crowd, after),
        Call::NextName(..) => Answer::NoName,
        Call::Stat(name) => told(name),
        Call::Open(name, _) => opened(table, name),
        Call::ReadAt(..) => Answer::Count(table.held.len() as u64),
        _ => Answer::Done,
    }
}

/// What a stat is answered: there is no file in todo, and none of the local channel.
fn told(name: &[u8]) -> Answer {
    if name.starts_with(b"todo/") || name.starts_with(b"local/") {
        return Answer::Refused(FsError::NotThere);
    }
    Answer::Stat(Stat {
        number: 1,
        length: 5,
        moment: 0,
    })
}

/// What an open is answered: there is no control file, and no bounce file.
fn opened(table: &mut Table, name: &[u8]) -> Answer {
    if name.starts_with(b"info/") {
        table.held = b"Fa@x\0";
    } else if name.starts_with(b"remote/") {
        table.held = b"Tb@y\0";
    } else {
        return Answer::Refused(FsError::NotThere);
    }
    Answer::Opened(Fd(3))
}

/// What is given is answered: a request by a report, and the removal of a message is counted.
fn given(table: &mut Table, port: Port, bytes: &[u8]) {
    match (port, bytes) {
        (Port::Rspawn, [slot, ..]) => {
            table.reports.extend_from_slice(&[*slot, b'K', 0]).ok();
        }
        _ => table.removed = table.removed.saturating_add(1),
    }
}

/// What waits on the link to the remote spawner is taken; whether there was memory for that.
fn is_taken(alloc: Global, sender: &mut Sender, table: &mut Table) -> bool
    requires { sender.old.looked ≡ true }
{
    let is_done = sender
        .done(alloc, Got::Took(table.reports.as_slice()))
        .is_ok();
    table.reports.clear();
    is_done
}

/// Makes the next step of a sender; whether it went on.
fn makes_step(alloc: Global, sender: &mut Sender, table: &mut Table) -> bool {
    let ready = Ready {
        links: [false, false, !table.reports.is_empty(), false],
        child: None,
    };
    sender.look(5, ready);
    match sender.need() {
        Need::File(call) => {
            let answer = answer_of(table, call);
            sender.done(alloc, Got::File(answer, table.held)).is_ok()
        }
        Need::Give(port, bytes) => {
            given(table, port, bytes);
            sender.done(alloc, Got::Gave).is_ok()
        }
        Need::Take(Port::Clean) => sender.done(alloc, Got::Took(b"+")).is_ok(),
        Need::Take(Port::Lspawn) => sender.done(alloc, Got::Took(b"x")).is_ok(),
        Need::Take(_) => is_taken(alloc, sender, table),
        _ => false,
    }
}

/// A sender makes steps until it ends, or so many; its log is cleared after each.
fn run(alloc: Global, sender: &mut Sender, table: &mut Table, steps: u64) {
    for _ in 0..steps {
        if !makes_step(alloc, sender, table) {
            return;
        }
        sender.clear_log();
    }
}

/// How many of so many messages are removed in so many turns.
pub(crate) fn removed(alloc: Global, crowd: u64, turns: u64) -> u64 {
    let mut table = Table {
        crowd,
        held: b"",
        reports: Vec::new(alloc),
        removed: 0,
    };
    if table.reports.push(b'x').is_ok() {
        run_through(alloc, &mut table, turns);
    }
    let removed = table.removed;
    drop(table);
    removed
}

/// A new sender runs over this table for so many turns.
fn run_through(alloc: Global, table: &mut Table, turns: u64) {
    let steps = table.crowd.saturating_mul(100).saturating_add(1000);
    match Sender::new(alloc, Some(turns)) {
        Ok(mut sender) => {
            run(alloc, &mut sender, table, steps);
            drop(sender);
        }
        Err(_) => {}
    }
}
