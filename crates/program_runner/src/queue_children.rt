// The words by which the programs of a queue start their children.
ghost use Rattle.std.specs.Prelude.{◌≡◌, IfOk, OnErr, List, ℕ};
ghost use Rattle.call_fs.specs.Program.{child_data, words_data};
ghost use Rattle.mail_bytes.specs.Decimal.{digits};
ghost use Rattle.program_runner.specs.ChildWords.{dir_word, forward_words, local_words, marked, marked_words, remote_words};
ghost use Rattle.program_runner.specs.Serving.{IsBegun};

use crate::child_words::ChildWords;
use call_fs::{Child, DeliveryWords};
use mail_bytes::{ByteText, Memory, dec, escape};
use outside::{Spawner, Started};
use std::alloc::Global;

/// What stands in the place of a program's name for this same program.
const ITSELF: &[u8] = b"";

/// The children of the programs of a queue: the injectors of bounces and forwards, and local deliveries, are this same
/// program over the queue's directory; a remote delivery is a program of others (qmail-queue(8), qmail-local(8),
/// qmail-remote(8)).
#[derive(Clone, Copy)]
pub struct QueueChildren<'a> {
    /// The directory of the queue, as `dir_word` gives it: it begins with no `-`, which would be an option.
    pub dir: &'a [u8],
    /// The program of remote deliveries; if it has no name, none can be started.
    pub program: &'a [u8],
}

/// A directory as a child is told it: one that begins with `-`, and so would be an option there, with `./` before it. The
/// error: out of memory.
pub fn dir_word(alloc: Global, dir: &[u8]) -> Result<ByteText, Memory>
    ensures { IfOk result (λ word. word ≡ dir_word dir.now) }
{
    match dir.first() {
        Some(b'-') => {
            let mut word = ByteText::from_slice(alloc, b"./")?;
            word.extend(dir)?;
            Ok(word)
        }
        _ => ByteText::from_slice(alloc, dir),
    }
}

impl<'a> ChildWords for QueueChildren<'a> {
    ghost use Rattle.program_runner.specs.ChildWords.{words_of};

    ghost words = { λ c. words_of c.dir.now c.program.now };

    fn start<S: Spawner>(&self, alloc: Global, child: Child<'_>, spawner: &mut S) -> Started {
        match child {
            Child::Bounce { .. } => {
                spawner.start(alloc, &[ITSELF, b"queue", b"-", self.dir, b"--bounce"])
            }
            Child::Forward { uid, .. } => start_forward(alloc, self.dir, uid, spawner),
            Child::Local { words, uid, .. } => start_local(alloc, self.dir, &words, uid, spawner),
            Child::Remote {
                domain,
                sender,
                recipient,
                ..
            } => start_remote(alloc, self.program, domain, sender, recipient, spawner),
        }
    }
}

/// Starts the injector of what this user forwards.
fn start_forward<S: Spawner>(alloc: Global, dir: &[u8], uid: u32, spawner: &mut S) -> Started
    ensures { IsBegun (forward_words dir.now uid) result
        (record { children = S.children spawner.old; calls = S.calls spawner.old; faults = S.faults spawner.old })
        (record { children = S.children spawner.new; calls = S.calls spawner.new; faults = S.faults spawner.new }) }
{
    let mut number = [0; 20];
    let count = dec(u64::from(uid), &mut number);
    spawner.start(
        alloc,
        &[ITSELF, b"queue", b"-", dir, b"--uid", &number[..count]],
    )
}

/// Starts the program of others for a remote delivery.
fn start_remote<S: Spawner>(
    alloc: Global,
    program: &[u8],
    domain: &[u8],
    sender: &[u8],
    recipient: &[u8],
    spawner: &mut S,
) -> Started
    ensures { IsBegun (remote_words program.now domain.now sender.now recipient.now) result
        (record { children = S.children spawner.old; calls = S.calls spawner.old; faults = S.faults spawner.old })
        (record { children = S.children spawner.new; calls = S.calls spawner.new; faults = S.faults spawner.new }) }
{
    if program.is_empty() {
        return spawner.start(alloc, &[]);
    }
    spawner.start(alloc, &[program, domain, sender, recipient])
}

/// Starts a local delivery.
fn start_local<S: Spawner>(
    alloc: Global,
    dir: &[u8],
    words: &DeliveryWords<'_>,
    uid: u32,
    spawner: &mut S,
) -> Started
    ensures { IsBegun (local_words dir.now (words_data words.now) uid) result
        (record { children = S.children spawner.old; calls = S.calls spawner.old; faults = S.faults spawner.old })
        (record { children = S.children spawner.new; calls = S.calls spawner.new; faults = S.faults spawner.new }) }
{
    match try_local(alloc, dir, words, uid, spawner) {
        Ok(started) => started,
        Err(_) => Started::Memory,
    }
}

/// Starts a local delivery. Fails only if there is no memory for its words, and then the spawner wasn't asked.
fn try_local<S: Spawner>(
    alloc: Global,
    dir: &[u8],
    words: &DeliveryWords<'_>,
    uid: u32,
    spawner: &mut S,
) -> Result<Started, Memory>
    ensures ok { IfOk result (λ started. IsBegun (local_words dir.now (words_data words.now) uid) started
        (record { children = S.children spawner.old; calls = S.calls spawner.old; faults = S.faults spawner.old })
        (record { children = S.children spawner.new; calls = S.calls spawner.new; faults = S.faults spawner.new })) }
    ensures err { OnErr result (spawner.new ≡ spawner.old) }
{
    let user = marked(alloc, words.user)?;
    let home = marked(alloc, words.home)?;
    let local = marked(alloc, words.local)?;
    let dash = marked(alloc, words.dash)?;
    let ext = marked(alloc, words.ext)?;
    let domain = marked(alloc, words.domain)?;
    let sender = marked(alloc, words.sender)?;
    let line = marked(alloc, words.line)?;
    let marked = DeliveryWords {
        user: user.as_slice(),
        home: home.as_slice(),
        local: local.as_slice(),
        dash: dash.as_slice(),
        ext: ext.as_slice(),
        domain: domain.as_slice(),
        sender: sender.as_slice(),
        line: line.as_slice(),
    };
    Ok(start_marked(alloc, dir, &marked, uid, spawner))
}

/// Starts a local delivery by words that are as its command line has them.
fn start_marked<S: Spawner>(
    alloc: Global,
    dir: &[u8],
    words: &DeliveryWords<'_>,
    uid: u32,
    spawner: &mut S,
) -> Started
    ensures { IsBegun (marked_words dir.now (words_data words.now) uid) result
        (record { children = S.children spawner.old; calls = S.calls spawner.old; faults = S.faults spawner.old })
        (record { children = S.children spawner.new; calls = S.calls spawner.new; faults = S.faults spawner.new }) }
{
    let mut number = [0; 20];
    let count = dec(u64::from(uid), &mut number);
    spawner.start(
        alloc,
        &[
            ITSELF,
            b"local",
            dir,
            words.user,
            words.home,
            words.local,
            words.dash,
            words.ext,
            words.domain,
            words.sender,
            words.line,
            b"--uid",
            &number[..count],
        ],
    )
}

/// A word of a delivery as its command line has it. The error: out of memory.
fn marked(alloc: Global, word: &[u8]) -> Result<Vec<u8>, Memory>
    ensures { IfOk result (λ text. text.items ≡ marked word.now) }
{
    let mut text = Vec::new(alloc);
    text.push(b'=')?;
    text.extend_from_slice(escape(alloc, word)?.as_slice())?;
    Ok(text)
}
