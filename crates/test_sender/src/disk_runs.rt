// A sender over a disk, with what plays the cleaner and the spawners.
ghost use Rattle.std.specs.Prelude.{◌≡◌, ◌≤◌};
ghost use Rattle.std.specs.Bool.{OnTrue};
ghost use Rattle.call_fs.specs.Program.{came_of};
ghost use Rattle.mail_bytes.specs.Moments.{IsMoment};
ghost use Rattle.test_sender.specs.Runs.{IsRunning, KeepsOpen, taken_of};

use call_fs::{Answer, CallFs, FsError, Got, Need, PIECE, Port, Ready, perform};
use send_core::Sender;
use std::alloc::Global;
use std::mem::replace;

/// What waits on the links to the sender, what was taken last, and the letter that each delivery is reported with.
#[derive(Drop)]
pub(crate) struct Links {
    clean: Vec<u8>,
    local: Vec<u8>,
    remote: Vec<u8>,
    took: Vec<u8>,
    letter: u8,
}

/// The links before anything was said.
pub(crate) fn no_links(alloc: Global, letter: u8) -> Links {
    Links {
        clean: Vec::new(alloc),
        local: Vec::new(alloc),
        remote: Vec::new(alloc),
        took: Vec::new(alloc),
        letter,
    }
}

/// Each spawner says that it runs 120 deliveries at once; whether there was memory for that.
pub(crate) fn are_open(links: &mut Links) -> bool {
    links.local.push(b'x').is_ok() && links.remote.push(b'x').is_ok()
}

/// What is ready.
fn ready_of(links: &Links) -> Ready {
    Ready {
        links: [
            !links.clean.is_empty(),
            !links.local.is_empty(),
            !links.remote.is_empty(),
            false,
        ],
        child: None,
    }
}

/// What is given is answered: a command by `+` if its names are gone, else by `!`; and a request by a report.
fn answer(links: &mut Links, port: Port, bytes: &[u8], are_gone: bool) {
    let letter = links.letter;
    match port {
        Port::Clean => links.clean.push(if are_gone { b'+' } else { b'!' }).is_ok(),
        Port::Lspawn => is_reported(&mut links.local, bytes, letter),
        _ => is_reported(&mut links.remote, bytes, letter),
    };
}

/// Reports the delivery of a request by this letter; whether there was memory for that.
fn is_reported(link: &mut Vec<u8>, bytes: &[u8], letter: u8) -> bool {
    let slot = bytes.first().copied().unwrap_or(0);
    link.push(slot).is_ok()
        && link.push(letter).is_ok()
        && link.extend_from_slice(b"reported\0").is_ok()
}

/// What a link holds is taken.
fn take(alloc: Global, links: &mut Links, port: Port) {
    let link = match port {
        Port::Clean => &mut links.clean,
        Port::Lspawn => &mut links.local,
        _ => &mut links.remote,
    };
    links.took = replace(link, Vec::new(alloc));
}

/// What came of a taking: the bytes that were taken last, or a failure if it isn't one of a link.
fn taken(links: &Links, port: Port) -> Got<'_>
    ensures { came_of result ≡ taken_of port links.now.took.items }
{
    match port {
        Port::Clean | Port::Lspawn | Port::Rspawn => Got::Took(links.took.as_slice()),
        _ => Got::Failed,
    }
}

/// Whether a name is gone after its unlink.
fn is_gone(unlinked: Result<(), FsError>) -> bool {
    match unlinked {
        Ok(()) | Err(FsError::NotThere) => true,
        Err(_) => false,
    }
}

/// Removes a name; whether it is gone.
fn is_removed<D: CallFs>(disk: &mut D, name: &[u8]) -> bool
    ensures { KeepsOpen (D.disk disk.old) (D.disk disk.new) }
{
    is_gone(disk.unlink(name))
}

/// Removes a name if that is due; whether it was due and the name is gone.
fn is_removed_if<D: CallFs>(is_due: bool, disk: &mut D, name: &[u8]) -> bool
    ensures { KeepsOpen (D.disk disk.old) (D.disk disk.new) }
{
    if is_due {
        is_removed(disk, name)
    } else {
        false
    }
}

/// Removes `intd/1`, and then this name, as qmail-clean(8); whether both are gone.
fn are_removed<D: CallFs>(disk: &mut D, name: &[u8]) -> bool
    ensures { KeepsOpen (D.disk disk.old) (D.disk disk.new) }
{
    is_removed_if(is_removed(disk, b"intd/1"), disk, name)
}

/// The name that a command to the cleaner takes away besides `intd/1`, if it is one on message 1.
fn commanded(bytes: &[u8]) -> Option<&'static [u8]> {
    match bytes {
        b"todo/1\0" => Some(b"todo/1"),
        b"foop/1\0" => Some(b"mess/1/1"),
        _ => None,
    }
}

/// Carries out a command to the cleaner on message 1; whether it is one, and its names are gone.
fn is_cleaned<D: CallFs>(disk: &mut D, bytes: &[u8]) -> bool
    ensures { KeepsOpen (D.disk disk.old) (D.disk disk.new) }
{
    match commanded(bytes) {
        Some(name) => are_removed(disk, name),
        None => false,
    }
}

/// What is given is carried out and answered.
fn given<D: CallFs>(disk: &mut D, links: &mut Links, port: Port, bytes: &[u8])
    ensures { KeepsOpen (D.disk disk.old) (D.disk disk.new) }
{
    answer(links, port, bytes, is_cleaned(disk, bytes));
}

/// How many bytes of a piece were read.
fn count_of(answer: &Answer) -> usize
    ensures { result ≤ 8192 }
{
    match answer {
        Answer::Count(count) => (*count).min(PIECE as u64) as usize,
        _ => 0,
    }
}

/// Makes the next step of a sender; whether it went on.
fn makes_step<D: CallFs>(
    alloc: Global,
    sender: &mut Sender,
    disk: &mut D,
    links: &mut Links,
    now: u64,
) -> bool
    requires moment { IsMoment now }
    requires running { IsRunning sender.old (D.disk disk.old) }
    ensures { OnTrue result (IsRunning sender.new (D.disk disk.new)) }
{
    let mut into = [0; PIECE];
    sender.look(now, ready_of(links));
    match sender.need() {
        Need::File(call) => {
            let answer = perform(alloc, disk, now, call, &mut into);
            let count = count_of(&answer);
            sender
                .done(alloc, Got::File(answer, &into[..count]))
                .is_ok()
        }
        Need::Give(port, bytes) => {
            given(disk, links, port, bytes);
            sender.done(alloc, Got::Gave).is_ok()
        }
        Need::Take(port) => {
            take(alloc, links, port);
            sender.done(alloc, taken(links, port)).is_ok()
        }
        _ => false,
    }
}

/// Makes so many steps, a second after one another, or fewer if it ends before.
pub(crate) fn run<D: CallFs>(
    alloc: Global,
    sender: &mut Sender,
    disk: &mut D,
    links: &mut Links,
    steps: u64,
)
    requires few { steps ≤ 100000 }
    requires running { IsRunning sender.old (D.disk disk.old) }
{
    for now in 0..steps {
        if !makes_step(alloc, sender, disk, links, now) {
            return;
        }
    }
}
