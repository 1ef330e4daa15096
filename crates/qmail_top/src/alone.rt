// The public call that needs no threads.
ghost use Rattle.std.specs.Prelude.{◌≡◌, ◌≢◌, ◌⊎◌, ◌++◌, ◌∷◌, [], List, ℕ, true, Contains, None, length, ◌<◌, map, string_bytes};
ghost use Rattle.mail_bytes.specs.Told.{Rose, Meets, OnTold};
ghost use Rattle.command_words.specs.declared.command.LocalWords.{LocalWords as Told};
ghost use Rattle.command_words.specs.declared.command.MakeWords.{MakeWords as Makes};
ghost use Rattle.command_words.specs.declared.command.QmqpdWords.{QmqpdWords as Receives};
ghost use Rattle.command_words.specs.declared.command.QueueWords.{QueueWords as Wanted};
ghost use Rattle.command_words.specs.declared.command.RspawnWords.{RspawnWords as Spawns};
ghost use Rattle.command_words.specs.declared.command.SendWords.{SendWords as Sends};
ghost use Rattle.command_words.specs.Reads.{IsNoCommand};
ghost use Rattle.script_lines.specs.Contents.{Content};
ghost use Rattle.script_lines.specs.Lines.{IsScript, IsRefused, most_bytes};
ghost use Rattle.scenario.specs.Text.{HasFewDeeds, IsTakenText, PrintsBadLine};
ghost use Rattle.audit_command.specs.Audited.{HasAudited};
ghost use Rattle.local_command.specs.Delivered.{WasDelivered};
ghost use Rattle.local_parts.specs.Arguments.{local_args};
ghost use Rattle.program_runner.specs.ChildWords.{dir_word, words_of};
ghost use Rattle.program_runner.specs.Members.{uncounted};
ghost use Rattle.qmail_top.specs.Families.{HasNoChannels, HasSent, IsDelivery, IsLocal, IsLspawn, IsParent, IsRspawn, IsSend, IsSender, IsSpawner, WasDelivery, WasLspawned, WasRspawned};
ghost use Rattle.qmail_top.specs.Making.{HasMade, IsMake, IsMaker};
ghost use Rattle.qmail_top.specs.SafePlays.{IsSafePrefixAtMost, PrintsSafely};
ghost use Rattle.qmail_top.specs.Works.{IsWork};
ghost use Rattle.qmail_top.specs.Command.{IsPlay, IsPrintedAtEnd, IsQueue, IsAudit, IsClean, IsQmqpd, HasRunQmqpd, HasRunQueue, NoneFailed, WasCleaned, usage_line};

use crate::making::make_script;
use crate::play_command::play_script;
use crate::sending::be_sender;
use audit_command::print_audit;
use call_fs::CallFs;
use clean_command::clean;
use command_words::{Command, LocalWords, QmqpdWords, QueueWords, WordsError, read_words};
use local_command::deliver;
use outside::{Clock, Gate, Posts, Sink, Source, Spawner};
use qmqp_server::receive;
use queue_command::{Form, inject};
use queue_limits::{DONE, INPUT, MALFORMED, MEMORY, NO_START, OUTPUT, USAGE};
use received_line::Invoked;
use spawn_command::{spawn_local, spawn_remote};
use std::alloc::Global;

/// Does what the words after the program's name say, as `qmail` does, but starts no thread and waits for none: each command but
/// `work`. That one needs threads, which this call isn't lent: it answers 84 then, and does nothing.
pub fn qmail_alone<
    D: CallFs,
    M: Source,
    E: Source,
    O: Sink,
    L: Sink,
    K: Clock,
    P: Posts,
    S: Spawner,
    G: Gate,
>(
    alloc: Global,
    words: &[String],
    disk: &mut D,
    message: &mut M,
    envelope: &mut E,
    out: &mut O,
    log: &mut L,
    clock: &mut K,
    posts: &mut P,
    spawn: &mut S,
    gate: &G,
) -> u8
    // 100 exactly if the words are no command, unless memory runs out; `local` has a cause of its own for it
    ensures usage { result ≡ USAGE → IsNoCommand (map string_bytes words.now) ⊎ IsDelivery words.now }
    ensures no_command { IsNoCommand (map string_bytes words.now) → (result ≡ USAGE) ⊎ (result ≡ MEMORY) }

    // then the log took the line `usage`, or a prefix of it if it failed
    ensures usage_line { IsNoCommand (map string_bytes words.now) → result ≡ USAGE → Meets (L.taken log.old) (L.taken log.new)
        (λ before after. (text : List ℕ) × IsTakenText usage_line text (Rose (L.faults log.old) (L.faults log.new))
        × (after ≡ before ++ text)) }

    // `make`: what it prints, and the causes of the statuses
    ensures make { (m : Makes) → IsMake words.now m → HasMade m
        (record { old = O.taken out.old; new = O.taken out.new; faults_old = O.faults out.old; faults_new = O.faults out.new })
        result }

    // `queue`: each file call, each reading of the clock, and why it ended so
    ensures queue { (q : Wanted) → IsQueue words.now q → HasRunQueue q (K.pid clock.old)
        (record { old = M.left message.old; new = M.left message.new; faults_old = M.faults message.old; faults_new = M.faults message.new })
        (record { old = E.left envelope.old; new = E.left envelope.new; faults_old = E.faults envelope.old; faults_new = E.faults envelope.new })
        (record { disk = D.disk disk.old; calls = D.calls disk.old; faults = D.faults disk.old; moments = K.calls clock.old })
        (record { disk = D.disk disk.new; calls = D.calls disk.new; faults = D.faults disk.new; moments = K.calls clock.new })
        result }

    // `qmqpd`: what it read, each file call, each reading of the clock, what it answered, and why it ended so
    ensures qmqpd { (w : Receives) → IsQmqpd words.now w → HasRunQmqpd w (K.pid clock.old)
        (record { old = M.left message.old; new = M.left message.new; faults_old = M.faults message.old; faults_new = M.faults message.new })
        (record { disk = D.disk disk.old; calls = D.calls disk.old; faults = D.faults disk.old; moments = K.calls clock.old })
        (record { disk = D.disk disk.new; calls = D.calls disk.new; faults = D.faults disk.new; moments = K.calls clock.new })
        (record { old = O.taken out.old; new = O.taken out.new; faults_old = O.faults out.old; faults_new = O.faults out.new })
        result }
    ensures qmqpd_beside { (w : Receives) → IsQmqpd words.now w → envelope.new ≡ envelope.old }

    // `audit`: what it does to the disk, what it prints, and the causes of the statuses
    ensures audit { IsAudit words.now → HasAudited
        (record { disk = D.disk disk.old; calls = D.calls disk.old; faults = D.faults disk.old })
        (record { disk = D.disk disk.new; calls = D.calls disk.new; faults = D.faults disk.new })
        (record { old = O.taken out.old; new = O.taken out.new; faults_old = O.faults out.old; faults_new = O.faults out.new })
        result }
    ensures audit_unwritten { IsAudit words.now → (result ≡ MEMORY) ⊎ (result ≡ INPUT) → out.new ≡ out.old }

    // `clean`: each file call, each reading of the clock, what it took and gave, and why it ended so
    ensures clean { IsClean words.now → WasCleaned
        (record { disk = D.disk disk.old; calls = D.calls disk.old; disk_faults = D.faults disk.old; moments = K.calls clock.old; last = K.last clock.old; left = M.left message.old; input_faults = M.faults message.old; taken = O.taken out.old; output_faults = O.faults out.old })
        (record { disk = D.disk disk.new; calls = D.calls disk.new; disk_faults = D.faults disk.new; moments = K.calls clock.new; last = K.last clock.new; left = M.left message.new; input_faults = M.faults message.new; taken = O.taken out.new; output_faults = O.faults out.new })
        result }

    // the spawners: each file call, each asking of the posts and of the spawner, what was given, and why it ended so
    ensures lspawn { (dir : List ℕ) → IsLspawn words.now dir → WasLspawned dir result
        (record { disk = D.disk disk.old; calls = D.calls disk.old; disk_faults = D.faults disk.old; moments = None; last = K.last clock.old; left = None; input_faults = uncounted; taken = O.taken out.old; output_faults = O.faults out.old })
        (record { disk = D.disk disk.new; calls = D.calls disk.new; disk_faults = D.faults disk.new; moments = None; last = K.last clock.new; left = None; input_faults = uncounted; taken = O.taken out.new; output_faults = O.faults out.new })
        (record { moments = K.calls clock.old; posts = record { waiting = P.waiting posts.old; asked = P.calls posts.old; faults = P.faults posts.old }; spawner = record { children = S.children spawn.old; calls = S.calls spawn.old; faults = S.faults spawn.old } })
        (record { moments = K.calls clock.new; posts = record { waiting = P.waiting posts.new; asked = P.calls posts.new; faults = P.faults posts.new }; spawner = record { children = S.children spawn.new; calls = S.calls spawn.new; faults = S.faults spawn.new } }) }
    ensures rspawn { (w : Spawns) → IsRspawn words.now w → WasRspawned w result
        (record { disk = D.disk disk.old; calls = D.calls disk.old; disk_faults = D.faults disk.old; moments = None; last = K.last clock.old; left = None; input_faults = uncounted; taken = O.taken out.old; output_faults = O.faults out.old })
        (record { disk = D.disk disk.new; calls = D.calls disk.new; disk_faults = D.faults disk.new; moments = None; last = K.last clock.new; left = None; input_faults = uncounted; taken = O.taken out.new; output_faults = O.faults out.new })
        (record { moments = K.calls clock.old; posts = record { waiting = P.waiting posts.old; asked = P.calls posts.old; faults = P.faults posts.old }; spawner = record { children = S.children spawn.old; calls = S.calls spawn.old; faults = S.faults spawn.old } })
        (record { moments = K.calls clock.new; posts = record { waiting = P.waiting posts.new; asked = P.calls posts.new; faults = P.faults posts.new }; spawner = record { children = S.children spawn.new; calls = S.calls spawn.new; faults = S.faults spawn.new } }) }

    // `send`: the same, without the output; its log took the lines of its past
    ensures send { (w : Sends) → IsSend words.now w → HasSent w result
        (record { disk = D.disk disk.old; calls = D.calls disk.old; disk_faults = D.faults disk.old; moments = None; last = K.last clock.old; left = None; input_faults = uncounted; taken = None; output_faults = 0 })
        (record { disk = D.disk disk.new; calls = D.calls disk.new; disk_faults = D.faults disk.new; moments = None; last = K.last clock.new; left = None; input_faults = uncounted; taken = None; output_faults = 0 })
        (record { moments = K.calls clock.old; posts = record { waiting = P.waiting posts.old; asked = P.calls posts.old; faults = P.faults posts.old }; spawner = record { children = S.children spawn.old; calls = S.calls spawn.old; faults = S.faults spawn.old } })
        (record { moments = K.calls clock.new; posts = record { waiting = P.waiting posts.new; asked = P.calls posts.new; faults = P.faults posts.new }; spawner = record { children = S.children spawn.new; calls = S.calls spawn.new; faults = S.faults spawn.new } })
        (record { taken = L.taken log.old; faults = L.faults log.old })
        (record { taken = L.taken log.new; faults = L.faults log.new }) }

    // `local`: the same as the spawners, and what it took
    ensures local { (d : Told) → IsLocal words.now d → WasDelivery d (K.pid clock.old)
        (record { disk = D.disk disk.old; calls = D.calls disk.old; disk_faults = D.faults disk.old; moments = K.calls clock.old; last = K.last clock.old; left = M.left message.old; input_faults = M.faults message.old; taken = O.taken out.old; output_faults = O.faults out.old })
        (record { disk = D.disk disk.new; calls = D.calls disk.new; disk_faults = D.faults disk.new; moments = K.calls clock.new; last = K.last clock.new; left = M.left message.new; input_faults = M.faults message.new; taken = O.taken out.new; output_faults = O.faults out.new })
        (record { posts = record { waiting = P.waiting posts.old; asked = P.calls posts.old; faults = P.faults posts.old }; spawner = record { children = S.children spawn.old; calls = S.calls spawn.old; faults = S.faults spawn.old } })
        (record { posts = record { waiting = P.waiting posts.new; asked = P.calls posts.new; faults = P.faults posts.new }; spawner = record { children = S.children spawn.new; calls = S.calls spawn.new; faults = S.faults spawn.new } })
        result }

    // `play`: the causes of the statuses
    ensures input { IsPlay words.now → result ≡ INPUT → Rose (M.faults message.old) (M.faults message.new) }
    ensures output { IsPlay words.now → result ≡ OUTPUT → Rose (O.faults out.old) (O.faults out.new) }
    ensures unfailed { IsPlay words.now → result ≡ MEMORY → NoneFailed
        (record { before = M.faults message.old; after = M.faults message.new }) (record { before = O.faults out.old; after = O.faults out.new }) }
    ensures malformed { IsPlay words.now → OnTold (M.left message.old) (λ script. result ≡ MALFORMED → IsRefused script) }
    ensures checked { IsPlay words.now → OnTold (M.left message.old)
        (λ script. (result ≡ DONE) ⊎ (result ≡ OUTPUT) → ¬ (IsRefused script)) }
    ensures known { IsPlay words.now → Contains (DONE ∷ MEMORY ∷ OUTPUT ∷ INPUT ∷ MALFORMED ∷ []) result }
    ensures complete { IsPlay words.now → OnTold (M.left message.old) (λ script. (content : Content) → IsScript script content
        → ¬ (Rose (M.faults message.old) (M.faults message.new)) → ¬ (Rose (O.faults out.old) (O.faults out.new))
        → (result ≡ DONE) ⊎ (result ≡ MEMORY)) }

    // What `play` prints: the text of the script, whose history is legal, and as promised at each prefix; or a prefix of that
    // text; or the number of the first bad line; and nothing before the script was read to its end, or is too long.
    ensures prints { IsPlay words.now → OnTold (M.left message.old) (λ script. result ≡ DONE
        → Meets (O.taken out.old) (O.taken out.new)
        (λ before after. (text : List ℕ) × PrintsSafely script text × (after ≡ before ++ text))) }
    ensures few { IsPlay words.now → OnTold (M.left message.old) (λ script. result ≡ DONE → HasFewDeeds script) }
    ensures begins { IsPlay words.now → OnTold (M.left message.old) (λ script. result ≢ DONE → result ≢ MALFORMED
        → Meets (O.taken out.old) (O.taken out.new)
        (λ before after. (text : List ℕ) × IsSafePrefixAtMost script text × (after ≡ before ++ text))) }
    ensures refuses { IsPlay words.now → OnTold (M.left message.old) (λ script. result ≡ MALFORMED
        → Meets (O.taken out.old) (O.taken out.new)
        (λ before after. (text : List ℕ) × PrintsBadLine script text (Rose (O.faults out.old) (O.faults out.new))
        × (after ≡ before ++ text))) }
    ensures reached { IsPlay words.now → Meets (M.left message.old) (M.left message.new) (λ script rest. rest ≢ []
        → (out.new ≡ out.old) ⊎ ((result ≡ MALFORMED) × (most_bytes < length script))) }

    // the same if the source tells whether it has ended, also if it has no more bytes to give
    ensures unended { IsPlay words.now → IsPrintedAtEnd (M.ended message.new) (out.new ≡ out.old) (result ≡ MALFORMED) (M.left message.old) }

    // 0 of `play` says that the script was read to its end
    ensures ended { IsPlay words.now → Meets (M.left message.old) (M.left message.new)
        (λ script rest. result ≡ DONE → rest ≡ []) }
    ensures told_end { IsPlay words.now → result ≡ DONE → OnTold (M.ended message.new) (λ is. is ≡ true) }

    // what stays untouched
    ensures unread { IsNoCommand (map string_bytes words.now)
        ⊎ (IsMaker words.now ⊎ (IsAudit words.now ⊎ (IsSpawner words.now ⊎ IsSender words.now)))
        → message.new ≡ message.old }
    ensures unwritten { IsNoCommand (map string_bytes words.now) ⊎ (IsPlay words.now × (result ≡ INPUT)) → out.new ≡ out.old }
    ensures unprinted { (q : Wanted) → IsQueue words.now q → out.new ≡ out.old }
    ensures unsaid { IsSender words.now → out.new ≡ out.old }
    ensures unlogged { ¬ (IsSender words.now) → (result ≢ USAGE) ⊎ IsDelivery words.now → log.new ≡ log.old }
    ensures disk { IsNoCommand (map string_bytes words.now) ⊎ (IsPlay words.now ⊎ IsMaker words.now) → disk.new ≡ disk.old }
    ensures envelope { IsNoCommand (map string_bytes words.now)
        ⊎ (IsPlay words.now ⊎ (IsMaker words.now ⊎ (IsAudit words.now ⊎ (IsClean words.now ⊎ IsParent words.now))))
        → envelope.new ≡ envelope.old }
    ensures beside { (q : Wanted) → IsQueue words.now q → q.env ≡ None → envelope.new ≡ envelope.old }
    ensures clock { IsNoCommand (map string_bytes words.now) ⊎ (IsPlay words.now ⊎ (IsMaker words.now ⊎ IsAudit words.now))
        → clock.new ≡ clock.old }
    ensures posts { HasNoChannels words.now → posts.new ≡ posts.old }
    ensures spawn { HasNoChannels words.now → spawn.new ≡ spawn.old }

    // `work` isn't done
    ensures unworked { IsWork words.now → ((result ≡ NO_START) ⊎ (result ≡ MEMORY))
        × ((message.new ≡ message.old) × (out.new ≡ out.old))
        × ((disk.new ≡ disk.old) × (envelope.new ≡ envelope.old) × (clock.new ≡ clock.old)) }
{
    match read_words(alloc, words) {
        Ok(Command::Play) => play_script(alloc, message, out),
        Ok(Command::Make(told)) => make_script(alloc, told, out),
        // no threads
        Ok(Command::Work(_)) => NO_START,
        Ok(Command::Queue(queue)) => queue_message(alloc, queue, disk, message, envelope, clock),
        Ok(Command::Qmqpd(told)) => receive_package(alloc, told, disk, message, out, clock),
        Ok(Command::Send(told)) => be_sender(alloc, told, disk, log, clock, posts, spawn, gate),
        Ok(Command::Audit(_)) => print_audit(alloc, disk, out),
        Ok(Command::Clean(_)) => clean(alloc, disk, message, out, clock),
        Ok(Command::Lspawn(dir)) => {
            spawn_local(alloc, dir.as_slice(), disk, clock, posts, spawn, out, gate)
        }
        Ok(Command::Rspawn(spawner)) => {
            let program = spawner.program.as_slice();
            spawn_remote(alloc, program, disk, clock, posts, spawn, out, gate)
        }
        Ok(Command::Local(told)) => {
            deliver_message(alloc, told, disk, message, out, clock, posts, spawn, gate)
        }
        Err(WordsError::Usage) => {
            let _ = log.give(b"usage\n");
            USAGE
        }
        Err(WordsError::Memory) => MEMORY,
    }
}

/// Injects the message of the command `queue`.
fn queue_message<D: CallFs, M: Source, E: Source, K: Clock>(
    alloc: Global,
    queue: QueueWords,
    disk: &mut D,
    message: &mut M,
    envelope: &mut E,
    clock: &mut K,
) -> u8
    ensures queued { HasRunQueue queue (K.pid clock.old)
        (record { old = M.left message.old; new = M.left message.new; faults_old = M.faults message.old; faults_new = M.faults message.new })
        (record { old = E.left envelope.old; new = E.left envelope.new; faults_old = E.faults envelope.old; faults_new = E.faults envelope.new })
        (record { disk = D.disk disk.old; calls = D.calls disk.old; faults = D.faults disk.old; moments = K.calls clock.old })
        (record { disk = D.disk disk.new; calls = D.calls disk.new; faults = D.faults disk.new; moments = K.calls clock.new })
        result }
    ensures beside { queue.env ≡ None → envelope.new ≡ envelope.old }
{
    let invoked = if queue.bounce {
        Invoked::Bounce
    } else {
        Invoked::Uid(queue.uid)
    };
    let form = match queue.env {
        Some(_) => Form::Beside,
        None => Form::Netstrings,
    };
    inject(
        alloc, queue.uid, invoked, form, disk, message, envelope, clock,
    )
}

/// Takes the package of the command `qmqpd`.
fn receive_package<D: CallFs, M: Source, O: Sink, K: Clock>(
    alloc: Global,
    told: QmqpdWords,
    disk: &mut D,
    message: &mut M,
    out: &mut O,
    clock: &mut K,
) -> u8
    ensures { HasRunQmqpd told (K.pid clock.old)
        (record { old = M.left message.old; new = M.left message.new; faults_old = M.faults message.old; faults_new = M.faults message.new })
        (record { disk = D.disk disk.old; calls = D.calls disk.old; faults = D.faults disk.old; moments = K.calls clock.old })
        (record { disk = D.disk disk.new; calls = D.calls disk.new; faults = D.faults disk.new; moments = K.calls clock.new })
        (record { old = O.taken out.old; new = O.taken out.new; faults_old = O.faults out.old; faults_new = O.faults out.new })
        result }
{
    receive(alloc, told.uid, disk, message, out, clock)
}

/// Makes the delivery of the command `local`.
fn deliver_message<D: CallFs, M: Source, O: Sink, K: Clock, P: Posts, S: Spawner, G: Gate>(
    alloc: Global,
    told: LocalWords,
    disk: &mut D,
    message: &mut M,
    out: &mut O,
    clock: &mut K,
    posts: &mut P,
    spawn: &mut S,
    gate: &G,
) -> u8
    ensures { WasDelivered (words_of (dir_word told.dir) []) (local_args told.words told.uid (K.pid clock.old))
        (record { disk = D.disk disk.old; calls = D.calls disk.old; disk_faults = D.faults disk.old; moments = K.calls clock.old; last = K.last clock.old; left = M.left message.old; input_faults = M.faults message.old; taken = O.taken out.old; output_faults = O.faults out.old })
        (record { disk = D.disk disk.new; calls = D.calls disk.new; disk_faults = D.faults disk.new; moments = K.calls clock.new; last = K.last clock.new; left = M.left message.new; input_faults = M.faults message.new; taken = O.taken out.new; output_faults = O.faults out.new })
        (record { posts = record { waiting = P.waiting posts.old; asked = P.calls posts.old; faults = P.faults posts.old }; spawner = record { children = S.children spawn.old; calls = S.calls spawn.old; faults = S.faults spawn.old } })
        (record { posts = record { waiting = P.waiting posts.new; asked = P.calls posts.new; faults = P.faults posts.new }; spawner = record { children = S.children spawn.new; calls = S.calls spawn.new; faults = S.faults spawn.new } })
        result }
{
    let LocalWords { dir, words, uid } = told;
    deliver(
        alloc,
        dir.as_slice(),
        words,
        uid,
        disk,
        message,
        out,
        clock,
        posts,
        spawn,
        gate,
    )
}
