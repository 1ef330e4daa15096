// The injector, call by call.
ghost use Rattle.call_fs.specs.Columns.{IsMomentIn};

use super::fields::{bytes, named, none_is_wrong, number_of};
use call_fs::{Answer, Call, Fd, FsError, Got, Need, Ready};
use mail_bytes::{LAST_MOMENT, Memory};
use queue_inject::{Injector, Part};
use received_line::Invoked;
use std::alloc::Global;

/// Whether this is what it needs: a call with its arguments, of an append the count of bytes; `end` with a status; or `wait`.
fn is_due(need: Need<'_>, due: &str) -> bool {
    let (kind, rest) = named(due);
    let (first, second) = named(rest);
    match (need, kind) {
        (Need::File(Call::CreateExcl(name)), "create") => name == first.as_bytes(),
        (Need::File(Call::Link(old, new)), "link") => {
            old == first.as_bytes() && new == second.as_bytes()
        }
        (Need::File(Call::Unlink(name)), "unlink") => name == first.as_bytes(),
        (Need::File(Call::Append(fd, bytes)), "append") => {
            fd.0 == number_of(first) && bytes.len() as u64 == number_of(second)
        }
        (Need::File(Call::Sync(fd)), "sync") => fd.0 == number_of(first),
        (Need::Ended(status), "end") => u64::from(status) == number_of(first),
        (Need::Wait, "wait") => true,
        _ => false,
    }
}

/// `c` the first file is created, `C` the second one, `d` done, else refused: `e` since it exists, `m` out of
/// memory, `n` since it isn't there, `f` by a fault.
fn answer_of(letter: u8) -> Answer
    ensures { IsMomentIn result }
{
    match letter {
        b'c' => Answer::Created(Fd(1), 1),
        b'C' => Answer::Created(Fd(2), 2),
        b'd' => Answer::Done,
        b'e' => Answer::Refused(FsError::Exists),
        b'm' => Answer::Refused(FsError::Memory),
        b'n' => Answer::Refused(FsError::NotThere),
        _ => Answer::Refused(FsError::Fault),
    }
}

/// Feeds it bytes, if there is room for them.
fn feed(injector: &mut Injector, bytes: &[u8]) -> bool {
    if bytes.len() > injector.room() {
        return false;
    }
    injector.feed(bytes);
    true
}

/// Tells it the moment, if a clock may tell that, and whether its input is ready.
fn look(injector: &mut Injector, moment: u64) -> bool {
    if moment > LAST_MOMENT {
        return false;
    }
    let links = [injector.room() == 0, false, false, false];
    injector.look(moment, Ready { links, child: None });
    true
}

/// Answers its call by a letter, if it needs one.
fn answer(injector: &mut Injector, letter: u8) -> bool {
    if let Need::File(_) = injector.need() {
        return injector.done(Got::File(answer_of(letter), &[])).is_ok();
    }
    false
}

/// Answers its calls by letters, if it needs so many at moment 0.
fn answer_all(injector: &mut Injector, letters: &[u8]) -> bool {
    let mut are_due = true;
    for letter in letters {
        are_due = look(injector, 0) && answer(injector, *letter) && are_due;
    }
    are_due
}

/// The bytes of a text in which `%` and two hexadecimal digits are one byte; `x*` and a number stand for so many letters `x`.
fn bytes_of(alloc: Global, text: &str) -> Vec<u8> {
    let Some(count) = text.strip_prefix("x*") else {
        return bytes(alloc, text);
    };
    let mut all = Vec::new(alloc);
    for _ in 0..number_of(count) {
        let _ = all.push(b'x');
    }
    all
}

/// Feeds it the bytes of a text, if there is room for them.
fn feed_text(alloc: Global, injector: &mut Injector, text: &str) -> bool {
    let bytes = bytes_of(alloc, text);
    let is_fed = feed(injector, &bytes);
    drop(bytes);
    is_fed
}

/// Whether, told moment 0, it needs this call, which is answered by the first letter of it then.
fn makes_call(injector: &mut Injector, letter: &str, due: &str) -> bool {
    look(injector, 0) && is_due(injector.need(), due) && answer_all(injector, letter.as_bytes())
}

/// Makes a step; whether that could be made: it is fed a text; its input ends, or fails, or is a malformed netstring; it is
/// told a moment; it needs this; it needs this call, which is answered by a letter; or it needs calls, which are.
fn makes(alloc: Global, injector: &mut Injector, step: &str) -> bool {
    let (kind, rest) = named(step);
    let (first, second) = named(rest);
    match kind {
        "feed" => feed_text(alloc, injector, rest),
        "ended" => {
            injector.end_input();
            true
        }
        "failed" | "malformed" => {
            injector.fail_input(kind == "malformed");
            true
        }
        "look" => look(injector, number_of(rest)),
        "needs" => is_due(injector.need(), rest),
        "makes" => makes_call(injector, first, second),
        "answers" => answer_all(injector, rest.as_bytes()),
        _ => false,
    }
}

/// Whether all steps can be made, one after the other.
fn makes_all(alloc: Global, injector: &mut Injector, steps: &str) -> bool {
    for step in steps.lines() {
        if !makes(alloc, injector, step) {
            return false;
        }
    }
    true
}

/// Feeds it as much as it asks for now of a message and an envelope, and tells it the end.
fn supply(injector: &mut Injector, message: &[u8], envelope: &[u8]) {
    let text = match injector.asks() {
        None => return,
        Some(Part::Message) => message,
        Some(Part::Envelope) => envelope,
    };
    let rest = &text[injector.fed().min(text.len())..];
    let count = rest.len().min(injector.room());
    injector.feed(&rest[..count]);
    if count == rest.len() {
        injector.end_input();
    }
}

/// Whether the injector does what a row says, of which the letters, the moment and what it needs then are these.
fn comes_to(
    injector: &mut Injector,
    message: &[u8],
    envelope: &[u8],
    letters: &str,
    moment: u64,
    due: &str,
) -> bool {
    let mut are_due = true;
    for letter in letters.as_bytes() {
        supply(injector, message, envelope);
        are_due = look(injector, moment) && answer(injector, *letter) && are_due;
    }
    supply(injector, message, envelope);
    look(injector, moment) && are_due && is_due(injector.need(), due)
}

/// Whether the injector does what a row says: the message, the envelope, the answers to its calls, the moment, and what it
/// needs then.
fn does(alloc: Global, injector: &mut Injector, row: &str) -> bool {
    let (message, rest) = row.split_once(" | ").unwrap_or((row, ""));
    let (envelope, rest) = rest.split_once(" | ").unwrap_or((rest, ""));
    let (letters, rest) = rest.split_once(" | ").unwrap_or((rest, ""));
    let (moment, due) = rest.split_once(" | ").unwrap_or((rest, "nothing"));
    let message = bytes_of(alloc, message);
    let envelope = bytes_of(alloc, envelope);
    let is_so = comes_to(
        injector,
        &message,
        &envelope,
        letters,
        number_of(moment),
        due,
    );
    drop(message);
    drop(envelope);
    is_so
}

/// Whether an injector with process number 77 that is started at moment 0 does what a row says, or makes steps.
fn is_right(alloc: Global, invoked: Invoked, text: &str, is_row: bool) -> bool {
    match Injector::new(alloc, 1000, 77, invoked, 0, 8192) {
        Ok(mut injector) => {
            let is_so = if is_row {
                does(alloc, &mut injector, text)
            } else {
                makes_all(alloc, &mut injector, text)
            };
            drop(injector);
            is_so
        }
        Err(_) => false,
    }
}

/// The first row that goes otherwise, if there is one.
fn first_wrong(alloc: Global, rows: &'static str) -> Option<&'static str> {
    for row in rows.lines() {
        if !is_right(alloc, Invoked::Uid(1000), row, true) {
            return Some(row);
        }
    }
    None
}

/// The calls of an injection that nothing goes wrong with, each on the last second of its day.
const CALLS: &str = "hi | Fa@x%00Tb@y%00%00 |  | 86400 | create pid/77.0.1
hi | Fa@x%00Tb@y%00%00 | c | 86400 | link pid/77.0.1 mess/1/1
hi | Fa@x%00Tb@y%00%00 | cd | 86400 | unlink pid/77.0.1
hi | Fa@x%00Tb@y%00%00 | cdd | 86400 | append 1 70
hi | Fa@x%00Tb@y%00%00 | cddd | 86400 | sync 1
hi | Fa@x%00Tb@y%00%00 | cdddd | 86400 | create intd/1
hi | Fa@x%00Tb@y%00%00 | cddddC | 86400 | append 2 20
hi | Fa@x%00Tb@y%00%00 | cddddCd | 86400 | sync 2
hi | Fa@x%00Tb@y%00%00 | cddddCdd | 86400 | link intd/1 todo/1
hi | Fa@x%00Tb@y%00%00 | cddddCddd | 86400 | end 0";

#[test]
fn each_call_is_its_row(rt: HostRuntime) {
    none_is_wrong(&rt, first_wrong(rt.alloc(), CALLS));
}

/// Which call is due after failures of calls; after a whole envelope nothing counts.
const FAILURES: &str = "hi | Fa@x%00Tb@y%00%00 | eeeeeeeee | 0 | end 63
hi | Fa@x%00Tb@y%00%00 | cf | 0 | end 64
hi | Fa@x%00Tb@y%00%00 | cdf | 0 | unlink mess/1/1
hi | Fa@x%00Tb@y%00%00 | cddddfd | 0 | end 65
hi | Fa@x%00Tb@y%00%00 | cdddfd | 0 | end 53
hi | Fa@x%00Tb@y%00%00 | m | 0 | end 51
hi | Fa@x%00Tb@y%00%00 | cdmd | 0 | end 51
hi | Fa@x%00Tb@y%00%00 | cddddcf | 0 | unlink intd/1
hi | Fa@x%00Tb@y%00%00 | cddddcfnd | 0 | end 53
hi | Fa@x%00Tb@y%00%00 | cddddcff | 0 | end 53
hi | Fa@x%00Tb@y%00%00 | cddddcddf | 0 | end 66
hi | Fa@x%00Tb@y%00%00 |  | 86401 | end 52
hi | X | cddddcdd | 0 | end 91
hi | Fa@x%00Tb@y%00 | cddddcdd | 0 | end 54
hi | Fa@x%00Tb@y%00%00X | cddddcddd | 0 | end 0";

#[test]
fn each_failure_has_its_status(rt: HostRuntime) {
    none_is_wrong(&rt, first_wrong(rt.alloc(), FAILURES));
}

/// Which write is due of a message in pieces; its first line has 68 bytes.
const PIECES: &str = "x*20000 | Fa@x%00Tb@y%00%00 | cdd | 0 | append 1 8192
x*20000 | Fa@x%00Tb@y%00%00 | cddd | 0 | append 1 8192
x*20000 | Fa@x%00Tb@y%00%00 | cdddd | 0 | append 1 3684
x*20000 | Fa@x%00Tb@y%00%00 | cddddd | 0 | sync 1
x*8124 | Fa@x%00Tb@y%00%00 | cdd | 0 | append 1 8192
x*8124 | Fa@x%00Tb@y%00%00 | cddd | 0 | sync 1
x*8125 | Fa@x%00Tb@y%00%00 | cddd | 0 | append 1 1
 | Fa@x%00Tb@y%00%00 | cdd | 0 | append 1 68";

#[test]
fn a_text_is_written_in_pieces(rt: HostRuntime) {
    none_is_wrong(&rt, first_wrong(rt.alloc(), PIECES));
}

/// The input of a bounce fails within the message, or is malformed there.
const UNREAD: [&str; 2] = [
    "feed hi
failed
answers cddd
look 0
needs end 54",
    "feed hi
malformed
answers cddd
look 0
needs end 91",
];

#[test]
fn an_input_that_cannot_be_read_ends_it(rt: HostRuntime) {
    for steps in UNREAD {
        assert!(rt;
            is_right(rt.alloc(), Invoked::Bounce, steps, false),
            "{steps}"
        );
    }
}

/// Steps of other injectors.
const STEPS: [&str; 3] = [
    // the message fails after its first piece, before the envelope has come
    "feed x*8124
makes c create pid/77.0.1
makes d link pid/77.0.1 mess/1/1
makes d unlink pid/77.0.1
makes d append 1 8192
feed x*68
failed
makes d unlink mess/1/1
needs end 54",
    // a message that ends with a full piece, which goes out before the next byte
    "feed x*8124
makes c create pid/77.0.1
makes d link pid/77.0.1 mess/1/1
makes d unlink pid/77.0.1
makes d append 1 8192
look 0
needs wait
ended
makes d sync 1
makes C create intd/1
look 0
needs wait
feed Fa@x%00Tb@y%00%00
makes d append 2 20
makes d sync 2
makes d link intd/1 todo/1
needs end 0",
    // nothing is fed, at the start and more than a day after it
    "needs wait
look 0
needs wait
look 86401
needs wait",
];

#[test]
fn an_injector_makes_its_steps(rt: HostRuntime) {
    for steps in STEPS {
        assert!(rt;
            is_right(rt.alloc(), Invoked::Uid(1000), steps, false),
            "{steps}"
        );
    }
}
