// A local delivery is run.
ghost use Rattle.std.specs.Prelude.{◌≡◌, []};
ghost use Rattle.local_deliver.specs.Stands.{Stands};
ghost use Rattle.local_parts.specs.Arguments.{local_args};
ghost use Rattle.local_parts.specs.declared.arguments.LocalArgs.{LocalArgs as Words};
ghost use Rattle.program_runner.specs.ChildWords.{dir_word, words_of};
ghost use Rattle.local_command.specs.Delivered.{WasDelivered};
ghost use Rattle.local_command.specs.Running.{RanTo, status_of};

use crate::stepping::step;
use call_fs::{CallFs, DeliveryWordsData};
use local_deliver::{Local, LocalArgs, forwards_are_fed, statuses_have_causes};
use mail_bytes::Memory;
use outside::{Clock, Gate, Posts, Sink, Source, Spawner};
use program_runner::{ChildWords, QueueChildren, dir_word};
use queue_limits::MEMORY;
use std::alloc::Global;

/// The most events that a run has: at a million a second, those of 500,000 years.
const EVENTS: u64 = u64::MAX;

/// Delivers one message to one user, and answers the exit status, which is that of qmail-local(8).
///
/// The words are those of the command line: the user, the home, the address (`local`, `dash`, `ext`, `domain`), the sender, and
/// the default instructions; `uid` is the user's number, with which a forward is injected into the queue in `dir`. The message
/// is the input, which is one netstring. What the delivery tells goes to the output. Commands of the user, and the injector of
/// forwards, are children of the spawner, whose ends the posts tell. While it waits for one it rests at the gate, by
/// `pause(0, k)` before the k-th look in a row that finds nothing.
///
/// 0: the instructions were carried out. 100: no later try would go well. 111: a later try may go well. 51: out of memory.
pub fn deliver<D: CallFs, M: Source, O: Sink, K: Clock, P: Posts, S: Spawner, G: Gate>(
    alloc: Global,
    dir: &[u8],
    words: DeliveryWordsData,
    uid: u32,
    disk: &mut D,
    message: &mut M,
    out: &mut O,
    clock: &mut K,
    posts: &mut P,
    spawn: &mut S,
    gate: &G,
) -> u8
    ensures { WasDelivered (words_of (dir_word dir.now) []) (local_args words uid (K.pid clock.old))
        (record { disk = D.disk disk.old; calls = D.calls disk.old; disk_faults = D.faults disk.old; moments = K.calls clock.old; last = K.last clock.old; left = M.left message.old; input_faults = M.faults message.old; taken = O.taken out.old; output_faults = O.faults out.old })
        (record { disk = D.disk disk.new; calls = D.calls disk.new; disk_faults = D.faults disk.new; moments = K.calls clock.new; last = K.last clock.new; left = M.left message.new; input_faults = M.faults message.new; taken = O.taken out.new; output_faults = O.faults out.new })
        (record { posts = record { waiting = P.waiting posts.old; asked = P.calls posts.old; faults = P.faults posts.old }; spawner = record { children = S.children spawn.old; calls = S.calls spawn.old; faults = S.faults spawn.old } })
        (record { posts = record { waiting = P.waiting posts.new; asked = P.calls posts.new; faults = P.faults posts.new }; spawner = record { children = S.children spawn.new; calls = S.calls spawn.new; faults = S.faults spawn.new } })
        result }
{
    let args = arguments(words, uid, clock.pid());
    match Local::new(alloc, args) {
        Ok(mut machine) => {
            let status = run_machine(
                alloc,
                dir,
                &mut machine,
                disk,
                message,
                out,
                clock,
                posts,
                spawn,
                gate,
            );
            drop(machine);
            status
        }
        Err(_) => MEMORY,
    }
}

/// What a delivery is started with, by its words.
fn arguments(words: DeliveryWordsData, uid: u32, pid: u32) -> LocalArgs
    ensures { result ≡ local_args words uid pid }
{
    LocalArgs {
        user: words.user,
        home: words.home,
        local: words.local,
        dash: words.dash,
        ext: words.ext,
        domain: words.domain,
        sender: words.sender,
        line: words.line,
        uid,
        pid,
    }
}

/// Runs a delivery, whose forwards go into the queue in this directory, and answers its exit status. The condition: it has no
/// past yet.
fn run_machine<D: CallFs, M: Source, O: Sink, K: Clock, P: Posts, S: Spawner, G: Gate>(
    alloc: Global,
    dir: &[u8],
    machine: &mut Local,
    disk: &mut D,
    input: &mut M,
    output: &mut O,
    clock: &mut K,
    posts: &mut P,
    spawner: &mut S,
    gate: &G,
) -> u8
    requires { (args : Words) × Stands machine.old args [] }
    ensures { (args : Words) → Stands machine.old args [] → WasDelivered (words_of (dir_word dir.now) []) args
        (record { disk = D.disk disk.old; calls = D.calls disk.old; disk_faults = D.faults disk.old; moments = K.calls clock.old; last = K.last clock.old; left = M.left input.old; input_faults = M.faults input.old; taken = O.taken output.old; output_faults = O.faults output.old })
        (record { disk = D.disk disk.new; calls = D.calls disk.new; disk_faults = D.faults disk.new; moments = K.calls clock.new; last = K.last clock.new; left = M.left input.new; input_faults = M.faults input.new; taken = O.taken output.new; output_faults = O.faults output.new })
        (record { posts = record { waiting = P.waiting posts.old; asked = P.calls posts.old; faults = P.faults posts.old }; spawner = record { children = S.children spawner.old; calls = S.calls spawner.old; faults = S.faults spawner.old } })
        (record { posts = record { waiting = P.waiting posts.new; asked = P.calls posts.new; faults = P.faults posts.new }; spawner = record { children = S.children spawner.new; calls = S.calls spawner.new; faults = S.faults spawner.new } })
        result }
{
    statuses_have_causes();
    let Ok(word) = dir_word(alloc, dir) else {
        return MEMORY;
    };
    let words = QueueChildren {
        dir: word.as_slice(),
        program: b"",
    };
    let ran = run(
        alloc, machine, &words, disk, input, output, clock, posts, spawner, gate,
    );
    drop(word);
    status_of(ran)
}

/// The exit status after a run.
fn status_of(ran: Result<Option<u8>, Memory>) -> u8
    ensures { result ≡ status_of ran }
{
    match ran {
        Ok(Some(status)) => status,
        // after all the events that a run may have, which nobody lives to see
        Ok(None) => MEMORY,
        Err(_) => MEMORY,
    }
}

/// Runs a delivery to its end, and answers its exit status; `None` if it hasn't ended after `EVENTS` events. Fails only if
/// memory runs out for what came of an event. The condition: it has no past yet.
fn run<D: CallFs, C: ChildWords, M: Source, O: Sink, K: Clock, P: Posts, S: Spawner, G: Gate>(
    alloc: Global,
    machine: &mut Local,
    words: &C,
    disk: &mut D,
    input: &mut M,
    output: &mut O,
    clock: &mut K,
    posts: &mut P,
    spawner: &mut S,
    gate: &G,
) -> Result<Option<u8>, Memory>
    requires { (args : Words) × Stands machine.old args [] }
    ensures { (args : Words) → Stands machine.old args [] → RanTo result (C.words words.now) args (K.last clock.old)
        (record { disk = D.disk disk.old; calls = D.calls disk.old; disk_faults = D.faults disk.old; moments = K.calls clock.old; last = K.last clock.old; left = M.left input.old; input_faults = M.faults input.old; taken = O.taken output.old; output_faults = O.faults output.old })
        (record { disk = D.disk disk.new; calls = D.calls disk.new; disk_faults = D.faults disk.new; moments = K.calls clock.new; last = K.last clock.new; left = M.left input.new; input_faults = M.faults input.new; taken = O.taken output.new; output_faults = O.faults output.new })
        (record { posts = record { waiting = P.waiting posts.old; asked = P.calls posts.old; faults = P.faults posts.old }; spawner = record { children = S.children spawner.old; calls = S.calls spawner.old; faults = S.faults spawner.old } })
        (record { posts = record { waiting = P.waiting posts.new; asked = P.calls posts.new; faults = P.faults posts.new }; spawner = record { children = S.children spawner.new; calls = S.calls spawner.new; faults = S.faults spawner.new } }) }
{
    forwards_are_fed();
    let mut injector = None;
    for _ in 0..EVENTS {
        match step(
            alloc,
            machine,
            words,
            &mut injector,
            disk,
            input,
            output,
            clock,
            posts,
            spawner,
            gate,
        ) {
            Ok(None) => {}
            Ok(Some(status)) => return Ok(Some(status)),
            Err(memory) => return Err(memory),
        }
    }
    Ok(None)
}
