// The one public call.
ghost use Rattle.std.specs.Prelude.{◌≡◌, ◌≢◌, ◌⊎◌, ◌++◌, ◌∷◌, [], List, ℕ, true, Contains, None, length, ◌<◌, map, string_bytes};
ghost use Rattle.mail_bytes.specs.Told.{Rose, Meets, OnTold};
ghost use Rattle.command_words.specs.declared.command.LocalWords.{LocalWords as Told};
ghost use Rattle.command_words.specs.declared.command.MakeWords.{MakeWords as Makes};
ghost use Rattle.command_words.specs.declared.command.QmqpdWords.{QmqpdWords as Receives};
ghost use Rattle.command_words.specs.declared.command.QueueWords.{QueueWords as Wanted};
ghost use Rattle.command_words.specs.declared.command.RspawnWords.{RspawnWords as Spawns};
ghost use Rattle.command_words.specs.declared.command.SendWords.{SendWords as Sends};
ghost use Rattle.command_words.specs.Reads.{IsNoCommand};
ghost use Rattle.script_lines.specs.Contents.{Content};
ghost use Rattle.script_lines.specs.Lines.{IsScript, IsRefused, most_bytes};
ghost use Rattle.scenario.specs.Text.{HasFewDeeds, IsTakenText, PrintsBadLine};
ghost use Rattle.audit_command.specs.Audited.{HasAudited};
ghost use Rattle.program_runner.specs.Members.{uncounted};
ghost use Rattle.qmail_top.specs.Families.{HasNoChannels, HasSent, IsDelivery, IsLocal, IsLspawn, IsParent, IsRspawn, IsSend, IsSender, IsSpawner, WasDelivery, WasLspawned, WasRspawned};
ghost use Rattle.qmail_top.specs.Making.{HasMade, IsMake, IsMaker};
ghost use Rattle.qmail_top.specs.SafePlays.{IsSafePrefixAtMost, PrintsSafely};
ghost use Rattle.qmail_top.specs.Works.{IsWork, WasWorked};
ghost use Rattle.qmail_top.specs.Command.{IsPlay, IsPrintedAtEnd, IsQueue, IsAudit, IsClean, IsQmqpd, HasRunQmqpd, HasRunQueue, NoneFailed, WasCleaned, usage_line};

use crate::alone::qmail_alone;
use crate::work_command::work_script;
use call_fs::CallFs;
use command_words::{WordsError, threads_told};
use outside::{Clock, Gate, Posts, Sink, Source, Spawner};
use queue_limits::{DONE, INPUT, MALFORMED, MEMORY, OUTPUT, USAGE};
use std::alloc::Global;
use std::sync::Wait;
use std::thread::Threads;

/// Does what the words after the program's name say, and answers the exit status.
///
/// `play` reads a script whole from `message`, checks it whole and plays it over a disk in memory; `out` gets what it
/// prints. 0: done. 51: out of memory. 53: `out` failed. 54: `message` failed. 91: a line isn't in the grammar, or the
/// script has over 16,777,216 bytes; `out` gets `script K`, whether it takes it or not.
///
/// `make` prints a script of as many mails as it is told, drawn from a seed, to `out`. 0: all was printed. 51: out of memory. 53:
/// `out` failed.
///
/// `work` reads and checks a script in the same way, and uses its lines `file`, `dir`, `mail` and `raw` alone. Over a disk in memory all
/// mails and then a generation start. So many threads run the mails to their ends, and pass `gate` before each step; four more step
/// the members, and pass it once. One thread at a time makes a step. When all have ended `settle K` is played. `out` gets a line for
/// each event, and what `show` prints. Its statuses are those of `play`.
///
/// `queue` injects the message that `message` gives, for the envelope that `envelope` gives, or if its word is `-` as
/// the second netstring of `message`, into the queue on `disk`; its exit statuses are those of qmail-queue(8).
///
/// `qmqpd` takes one package of `message`, injects its message into the queue on `disk`, and gives one answer to `out`. 0: it was
/// given. 31: the package is too long. 51: out of memory, before any file call. 53: `out` failed. 54: `message` failed, or ended
/// before the package did. 91: it is malformed. It is the program of qmail-qmqpd(8).
///
/// `audit` prints what the queue on `disk` holds to `out`: `pid COUNT`, then each number that has a file with its state, a
/// line each. 0: all was printed. 51: out of memory. 53: `out` failed. 54: `disk` failed, or a directory of the queue is
/// missing. It only searches for names.
///
/// `clean` runs the cleaner over the queue on `disk`, with commands from `message`; `out` gets a byte for each. It goes on
/// as long as `message` does. 0: `message` ended. 51: out of memory, before anything was done, or it hasn't ended after
/// 18,446,744,073,709,551,615 turns. 53: `out` failed. 54: `message` failed. It is the program of qmail-clean(8).
///
/// `lspawn` and `rspawn` run the spawners over the queue on `disk`, with requests from channel 0 of `posts`; `out` gets a byte
/// with their room, 120, and a report for each request. Deliveries are children of `spawn`, and what these print are channels
/// of `posts`. 0: the requests ended, and each has its report. 91: a field of a request has a 4097th byte, and each request
/// before has its report. 51: out of memory, or it hasn't ended after 18,446,744,073,709,551,615 turns. 53: `out` failed. 54:
/// `posts` failed. They are the programs of qmail-lspawn(8) and qmail-rspawn(8).
///
/// `send` starts the cleaner and the spawners of the queue as children of `spawn`, and is the sender over `disk` for as many turns
/// as it is told; `log` gets its lines. Their reports are channels of `posts`, and injectors of bounces are children too. 0: all
/// turns were made. 81, 82, 83: the link of the cleaner, the local or the remote spawner was lost. 84: a child couldn't be started,
/// or a file call failed in the start, or a directory of the queue is missing. 85: a control file is bad. 53: `log` failed. 51: out
/// of memory, or it hasn't ended after 18,446,744,073,709,551,615 events and looks. It is the program of qmail-send(8).
///
/// `local` makes one local delivery of the message that `message` gives, one netstring; `out` gets a line of what came of it.
/// Commands of the user and the injector of forwards are children of `spawn`, whose ends `posts` tell. 0: the instructions
/// were carried out. 100: no later try would go well. 111: a later try may go well. 51: out of memory. It is the program of
/// qmail-local(8).
///
/// A command that waits for children rests at `gate`; the sender also between its turns. Other words write the line `usage` to
/// `log`, with exit status 100. What a command doesn't use stays untouched.
///
/// Only `work` starts threads and waits for them; `qmail_alone` does every other command without, and ensures the same.
pub fn qmail<
    R: Threads + Wait + Sync,
    D: CallFs,
    M: Source,
    E: Source,
    O: Sink,
    L: Sink,
    K: Clock,
    P: Posts,
    S: Spawner,
    G: Gate + Sync,
>(
    rt: &R,
    alloc: Global,
    words: &[String],
    disk: &mut D,
    message: &mut M,
    envelope: &mut E,
    out: &mut O,
    log: &mut L,
    clock: &mut K,
    posts: &mut P,
    spawn: &mut S,
    gate: &G,
) -> u8
    // 100 exactly if the words are no command, unless memory runs out; `local` has a cause of its own for it
    ensures usage { result ≡ USAGE → IsNoCommand (map string_bytes words.now) ⊎ IsDelivery words.now }
    ensures no_command { IsNoCommand (map string_bytes words.now) → (result ≡ USAGE) ⊎ (result ≡ MEMORY) }

    // then the log took the line `usage`, or a prefix of it if it failed
    ensures usage_line { IsNoCommand (map string_bytes words.now) → result ≡ USAGE → Meets (L.taken log.old) (L.taken log.new)
        (λ before after. (text : List ℕ) × IsTakenText usage_line text (Rose (L.faults log.old) (L.faults log.new))
        × (after ≡ before ++ text)) }

    // `make`: what it prints, and the causes of the statuses
    ensures make { (m : Makes) → IsMake words.now m → HasMade m
        (record { old = O.taken out.old; new = O.taken out.new; faults_old = O.faults out.old; faults_new = O.faults out.new })
        result }

    // `queue`: each file call, each reading of the clock, and why it ended so
    ensures queue { (q : Wanted) → IsQueue words.now q → HasRunQueue q (K.pid clock.old)
        (record { old = M.left message.old; new = M.left message.new; faults_old = M.faults message.old; faults_new = M.faults message.new })
        (record { old = E.left envelope.old; new = E.left envelope.new; faults_old = E.faults envelope.old; faults_new = E.faults envelope.new })
        (record { disk = D.disk disk.old; calls = D.calls disk.old; faults = D.faults disk.old; moments = K.calls clock.old })
        (record { disk = D.disk disk.new; calls = D.calls disk.new; faults = D.faults disk.new; moments = K.calls clock.new })
        result }

    // `qmqpd`: what it read, each file call, each reading of the clock, what it answered, and why it ended so
    ensures qmqpd { (w : Receives) → IsQmqpd words.now w → HasRunQmqpd w (K.pid clock.old)
        (record { old = M.left message.old; new = M.left message.new; faults_old = M.faults message.old; faults_new = M.faults message.new })
        (record { disk = D.disk disk.old; calls = D.calls disk.old; faults = D.faults disk.old; moments = K.calls clock.old })
        (record { disk = D.disk disk.new; calls = D.calls disk.new; faults = D.faults disk.new; moments = K.calls clock.new })
        (record { old = O.taken out.old; new = O.taken out.new; faults_old = O.faults out.old; faults_new = O.faults out.new })
        result }
    ensures qmqpd_beside { (w : Receives) → IsQmqpd words.now w → envelope.new ≡ envelope.old }

    // `audit`: what it does to the disk, what it prints, and the causes of the statuses
    ensures audit { IsAudit words.now → HasAudited
        (record { disk = D.disk disk.old; calls = D.calls disk.old; faults = D.faults disk.old })
        (record { disk = D.disk disk.new; calls = D.calls disk.new; faults = D.faults disk.new })
        (record { old = O.taken out.old; new = O.taken out.new; faults_old = O.faults out.old; faults_new = O.faults out.new })
        result }
    ensures audit_unwritten { IsAudit words.now → (result ≡ MEMORY) ⊎ (result ≡ INPUT) → out.new ≡ out.old }

    // `clean`: each file call, each reading of the clock, what it took and gave, and why it ended so
    ensures clean { IsClean words.now → WasCleaned
        (record { disk = D.disk disk.old; calls = D.calls disk.old; disk_faults = D.faults disk.old; moments = K.calls clock.old; last = K.last clock.old; left = M.left message.old; input_faults = M.faults message.old; taken = O.taken out.old; output_faults = O.faults out.old })
        (record { disk = D.disk disk.new; calls = D.calls disk.new; disk_faults = D.faults disk.new; moments = K.calls clock.new; last = K.last clock.new; left = M.left message.new; input_faults = M.faults message.new; taken = O.taken out.new; output_faults = O.faults out.new })
        result }

    // the spawners: each file call, each asking of the posts and of the spawner, what was given, and why it ended so
    ensures lspawn { (dir : List ℕ) → IsLspawn words.now dir → WasLspawned dir result
        (record { disk = D.disk disk.old; calls = D.calls disk.old; disk_faults = D.faults disk.old; moments = None; last = K.last clock.old; left = None; input_faults = uncounted; taken = O.taken out.old; output_faults = O.faults out.old })
        (record { disk = D.disk disk.new; calls = D.calls disk.new; disk_faults = D.faults disk.new; moments = None; last = K.last clock.new; left = None; input_faults = uncounted; taken = O.taken out.new; output_faults = O.faults out.new })
        (record { moments = K.calls clock.old; posts = record { waiting = P.waiting posts.old; asked = P.calls posts.old; faults = P.faults posts.old }; spawner = record { children = S.children spawn.old; calls = S.calls spawn.old; faults = S.faults spawn.old } })
        (record { moments = K.calls clock.new; posts = record { waiting = P.waiting posts.new; asked = P.calls posts.new; faults = P.faults posts.new }; spawner = record { children = S.children spawn.new; calls = S.calls spawn.new; faults = S.faults spawn.new } }) }
    ensures rspawn { (w : Spawns) → IsRspawn words.now w → WasRspawned w result
        (record { disk = D.disk disk.old; calls = D.calls disk.old; disk_faults = D.faults disk.old; moments = None; last = K.last clock.old; left = None; input_faults = uncounted; taken = O.taken out.old; output_faults = O.faults out.old })
        (record { disk = D.disk disk.new; calls = D.calls disk.new; disk_faults = D.faults disk.new; moments = None; last = K.last clock.new; left = None; input_faults = uncounted; taken = O.taken out.new; output_faults = O.faults out.new })
        (record { moments = K.calls clock.old; posts = record { waiting = P.waiting posts.old; asked = P.calls posts.old; faults = P.faults posts.old }; spawner = record { children = S.children spawn.old; calls = S.calls spawn.old; faults = S.faults spawn.old } })
        (record { moments = K.calls clock.new; posts = record { waiting = P.waiting posts.new; asked = P.calls posts.new; faults = P.faults posts.new }; spawner = record { children = S.children spawn.new; calls = S.calls spawn.new; faults = S.faults spawn.new } }) }

    // `send`: the same, without the output; its log took the lines of its past
    ensures send { (w : Sends) → IsSend words.now w → HasSent w result
        (record { disk = D.disk disk.old; calls = D.calls disk.old; disk_faults = D.faults disk.old; moments = None; last = K.last clock.old; left = None; input_faults = uncounted; taken = None; output_faults = 0 })
        (record { disk = D.disk disk.new; calls = D.calls disk.new; disk_faults = D.faults disk.new; moments = None; last = K.last clock.new; left = None; input_faults = uncounted; taken = None; output_faults = 0 })
        (record { moments = K.calls clock.old; posts = record { waiting = P.waiting posts.old; asked = P.calls posts.old; faults = P.faults posts.old }; spawner = record { children = S.children spawn.old; calls = S.calls spawn.old; faults = S.faults spawn.old } })
        (record { moments = K.calls clock.new; posts = record { waiting = P.waiting posts.new; asked = P.calls posts.new; faults = P.faults posts.new }; spawner = record { children = S.children spawn.new; calls = S.calls spawn.new; faults = S.faults spawn.new } })
        (record { taken = L.taken log.old; faults = L.faults log.old })
        (record { taken = L.taken log.new; faults = L.faults log.new }) }

    // `local`: the same as the spawners, and what it took
    ensures local { (d : Told) → IsLocal words.now d → WasDelivery d (K.pid clock.old)
        (record { disk = D.disk disk.old; calls = D.calls disk.old; disk_faults = D.faults disk.old; moments = K.calls clock.old; last = K.last clock.old; left = M.left message.old; input_faults = M.faults message.old; taken = O.taken out.old; output_faults = O.faults out.old })
        (record { disk = D.disk disk.new; calls = D.calls disk.new; disk_faults = D.faults disk.new; moments = K.calls clock.new; last = K.last clock.new; left = M.left message.new; input_faults = M.faults message.new; taken = O.taken out.new; output_faults = O.faults out.new })
        (record { posts = record { waiting = P.waiting posts.old; asked = P.calls posts.old; faults = P.faults posts.old }; spawner = record { children = S.children spawn.old; calls = S.calls spawn.old; faults = S.faults spawn.old } })
        (record { posts = record { waiting = P.waiting posts.new; asked = P.calls posts.new; faults = P.faults posts.new }; spawner = record { children = S.children spawn.new; calls = S.calls spawn.new; faults = S.faults spawn.new } })
        result }

    // `play`: the causes of the statuses
    ensures input { IsPlay words.now → result ≡ INPUT → Rose (M.faults message.old) (M.faults message.new) }
    ensures output { IsPlay words.now → result ≡ OUTPUT → Rose (O.faults out.old) (O.faults out.new) }
    ensures unfailed { IsPlay words.now → result ≡ MEMORY → NoneFailed
        (record { before = M.faults message.old; after = M.faults message.new }) (record { before = O.faults out.old; after = O.faults out.new }) }
    ensures malformed { IsPlay words.now → OnTold (M.left message.old) (λ script. result ≡ MALFORMED → IsRefused script) }
    ensures checked { IsPlay words.now → OnTold (M.left message.old)
        (λ script. (result ≡ DONE) ⊎ (result ≡ OUTPUT) → ¬ (IsRefused script)) }
    ensures known { IsPlay words.now → Contains (DONE ∷ MEMORY ∷ OUTPUT ∷ INPUT ∷ MALFORMED ∷ []) result }
    ensures complete { IsPlay words.now → OnTold (M.left message.old) (λ script. (content : Content) → IsScript script content
        → ¬ (Rose (M.faults message.old) (M.faults message.new)) → ¬ (Rose (O.faults out.old) (O.faults out.new))
        → (result ≡ DONE) ⊎ (result ≡ MEMORY)) }

    // What `play` prints: the text of the script, whose history is legal, and as promised at each prefix; or a prefix of that
    // text; or the number of the first bad line; and nothing before the script was read to its end, or is too long.
    ensures prints { IsPlay words.now → OnTold (M.left message.old) (λ script. result ≡ DONE
        → Meets (O.taken out.old) (O.taken out.new)
        (λ before after. (text : List ℕ) × PrintsSafely script text × (after ≡ before ++ text))) }
    ensures few { IsPlay words.now → OnTold (M.left message.old) (λ script. result ≡ DONE → HasFewDeeds script) }
    ensures begins { IsPlay words.now → OnTold (M.left message.old) (λ script. result ≢ DONE → result ≢ MALFORMED
        → Meets (O.taken out.old) (O.taken out.new)
        (λ before after. (text : List ℕ) × IsSafePrefixAtMost script text × (after ≡ before ++ text))) }
    ensures refuses { IsPlay words.now → OnTold (M.left message.old) (λ script. result ≡ MALFORMED
        → Meets (O.taken out.old) (O.taken out.new)
        (λ before after. (text : List ℕ) × PrintsBadLine script text (Rose (O.faults out.old) (O.faults out.new))
        × (after ≡ before ++ text))) }
    ensures reached { IsPlay words.now → Meets (M.left message.old) (M.left message.new) (λ script rest. rest ≢ []
        → (out.new ≡ out.old) ⊎ ((result ≡ MALFORMED) × (most_bytes < length script))) }

    // the same if the source tells whether it has ended, also if it has no more bytes to give
    ensures unended { IsPlay words.now → IsPrintedAtEnd (M.ended message.new) (out.new ≡ out.old) (result ≡ MALFORMED) (M.left message.old) }

    // 0 of `play` says that the script was read to its end
    ensures ended { IsPlay words.now → Meets (M.left message.old) (M.left message.new)
        (λ script rest. result ≡ DONE → rest ≡ []) }
    ensures told_end { IsPlay words.now → result ≡ DONE → OnTold (M.ended message.new) (λ is. is ≡ true) }

    // `work`: what it prints, and the causes of the statuses
    ensures work { IsWork words.now → WasWorked
        (record { left = M.left message.old; ended = M.ended message.old; input_faults = M.faults message.old; taken = O.taken out.old; output_faults = O.faults out.old })
        (record { left = M.left message.new; ended = M.ended message.new; input_faults = M.faults message.new; taken = O.taken out.new; output_faults = O.faults out.new })
        (out.new ≡ out.old) result }

    // what stays untouched
    ensures unread { IsNoCommand (map string_bytes words.now)
        ⊎ (IsMaker words.now ⊎ (IsAudit words.now ⊎ (IsSpawner words.now ⊎ IsSender words.now)))
        → message.new ≡ message.old }
    ensures unwritten { IsNoCommand (map string_bytes words.now) ⊎ (IsPlay words.now × (result ≡ INPUT)) → out.new ≡ out.old }
    ensures unprinted { (q : Wanted) → IsQueue words.now q → out.new ≡ out.old }
    ensures unsaid { IsSender words.now → out.new ≡ out.old }
    ensures unlogged { ¬ (IsSender words.now) → (result ≢ USAGE) ⊎ IsDelivery words.now → log.new ≡ log.old }
    ensures disk { IsNoCommand (map string_bytes words.now) ⊎ (IsPlay words.now ⊎ IsMaker words.now) → disk.new ≡ disk.old }
    ensures envelope { IsNoCommand (map string_bytes words.now)
        ⊎ (IsPlay words.now ⊎ (IsMaker words.now ⊎ (IsAudit words.now ⊎ (IsClean words.now ⊎ IsParent words.now))))
        → envelope.new ≡ envelope.old }
    ensures beside { (q : Wanted) → IsQueue words.now q → q.env ≡ None → envelope.new ≡ envelope.old }
    ensures clock { IsNoCommand (map string_bytes words.now) ⊎ (IsPlay words.now ⊎ (IsMaker words.now ⊎ IsAudit words.now))
        → clock.new ≡ clock.old }
    ensures unused { IsWork words.now → (disk.new ≡ disk.old) × (envelope.new ≡ envelope.old) × (clock.new ≡ clock.old) }
    ensures posts { HasNoChannels words.now → posts.new ≡ posts.old }
    ensures spawn { HasNoChannels words.now → spawn.new ≡ spawn.old }
{
    match threads_told(alloc, words) {
        Ok(threads) => work_script(rt, alloc, threads, message, out, gate),
        Err(WordsError::Usage) => qmail_alone(
            alloc, words, disk, message, envelope, out, log, clock, posts, spawn, gate,
        ),
        Err(WordsError::Memory) => MEMORY,
    }
}
