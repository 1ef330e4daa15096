// When a sender rests.
ghost use Rattle.std.specs.Prelude.{◌≤◌, length};

use crate::lines::first_line;
use mail_bytes::{dec, undec};
use outside::Gate;

/// As what it pauses at its gate when a look found nothing to do, since the answer of a link or the end of an injector hasn't come:
/// `pause(0, k)`, before the k-th look in a row.
pub const AT_WAITS: u64 = 0;

/// As what it pauses after a turn in which nothing happened that its log tells, besides alerts: `pause(1, k)`, after the k-th
/// such turn in a row. Not after one that left a message in `todo` which comes after the one that was left before it: others may
/// wait behind it.
pub const AT_IDLE_TURNS: u64 = 1;

/// As what it pauses before each of its last turns while deliveries are in flight: `pause(2, k)`, before the k-th turn from the
/// end, 1 for the last one.
pub const AT_LAST_TURNS: u64 = 2;

/// Before how many of its last turns it waits for reports. Each turn takes one piece of what each spawner reports, and no more than
/// 240 deliveries are in flight.
const LAST_TURNS: u64 = 1000;

/// How a line of the log begins that tells that a request was given.
const STARTING: &[u8] = b"starting delivery ";

/// How one begins that tells what was reported of it.
const REPORTED: &[u8] = b"delivery ";

/// How one begins that tells what couldn't be done.
const ALERT: &[u8] = b"alert: ";

/// How such a one begins that tells which message couldn't be preprocessed.
const LEFT: &[u8] = b"alert: left ";

/// What a sender's log has told so far of when it may rest.
#[derive(Clone, Copy)]
pub struct Resting {
    /// How many turns are left, and one more before the first.
    left: u64,
    /// How many deliveries are in flight.
    flying: u64,
    /// Whether something happened in this turn that the log tells, besides alerts. Before the first turn it has.
    is_busy: bool,
    /// How many turns in a row were idle.
    idle: u64,
    /// The message that was left last.
    last: Option<u64>,
    /// Whether this turn left one that comes after the one that was left before it.
    is_amid: bool,
}

impl Resting {
    /// Of a sender of so many turns, before its first event.
    pub(crate) fn new(turns: u64) -> Self {
        Resting {
            left: turns.saturating_add(1),
            flying: 0,
            is_busy: true,
            idle: 0,
            last: None,
            is_amid: false,
        }
    }

    /// Hears the lines of an event.
    pub(crate) fn hear(&mut self, text: &[u8]) {
        let mut at = 0;
        while at < text.len() {
            let end = at + first_line(&text[at..]);
            self.hear_line(&text[at..end]);
            at = end;
        }
    }

    /// Hears a line.
    fn hear_line(&mut self, line: &[u8]) {
        if line.starts_with(STARTING) {
            self.flying = self.flying.saturating_add(1);
        } else if line.starts_with(REPORTED) {
            self.flying = self.flying.saturating_sub(1);
        } else if line.starts_with(LEFT) {
            self.hear_left(line.get(LEFT.len()..).unwrap_or(&[]));
        }
        self.is_busy = self.is_busy || !line.starts_with(ALERT);
    }

    /// Hears that this message was left; a newline follows its number.
    fn hear_left(&mut self, line: &[u8]) {
        let number = undec(line.get(..line.len().saturating_sub(1)).unwrap_or(&[]));
        self.is_amid = match (number, self.last) {
            (Some(number), Some(last)) => is_after(number, last),
            (number, _) => number.is_some(),
        };
        self.last = number;
    }

    /// A turn is over, or the start: rests at this gate if there is nothing to do, or waits for reports. Whether something of a
    /// spawner has come that wasn't taken is told.
    pub(crate) fn rest<G: Gate>(&mut self, has_come: bool, gate: &G) {
        let is_idle = !self.is_busy;
        let is_amid = self.is_amid;
        self.is_busy = false;
        self.is_amid = false;
        self.left = self.left.saturating_sub(1);
        self.idle = if is_idle {
            self.idle.saturating_add(1)
        } else {
            0
        };
        if has_come || self.left == 0 {
            return;
        }
        if self.flying > 0 && self.left <= LAST_TURNS {
            gate.pause(AT_LAST_TURNS, self.left);
        } else if is_idle && !is_amid {
            gate.pause(AT_IDLE_TURNS, self.idle);
        }
    }
}

/// Whether the first of these messages comes after the second where `todo` is searched: by the bytes of their names.
fn is_after(one: u64, other: u64) -> bool {
    let mut name = [0; 20];
    let length = dec(one, &mut name);
    let mut other_name = [0; 20];
    let other_length = dec(other, &mut other_name);
    name[..length].cmp(&other_name[..other_length]).is_gt()
}
