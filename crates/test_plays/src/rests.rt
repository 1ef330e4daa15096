// Whether the messages of a script rest at its end, by the events and the files that it prints.

use crate::fields::field;
use crate::passes::{Channel, after_path, birth_of, last_pass, length_of, moment_of};
use crate::told::next_told;

const LOCAL: Channel = Channel {
    name: "local",
    spawner: "lspawn",
    skip: 10,
};

const REMOTE: Channel = Channel {
    name: "remote",
    spawner: "rspawn",
    skip: 20,
};

/// Whether a script ended with an idle turn, showed then what a row says, and left messages that rest just if the row says so.
pub(crate) fn is_so(text: &str, lines: &str) -> bool {
    let Some((events, shown)) = text.rsplit_once("\npid ") else {
        return false;
    };
    let (pids, shown) = shown.split_once('\n').unwrap_or((shown, ""));
    events.ends_with("\nsender next todo = none")
        && are_told(pids, shown, lines)
        && are_resting(events, shown) == (field(lines, "rests") == "yes")
}

/// Whether the count of names in `pid`, and what was shown after it, are what a row says.
fn are_told(pids: &str, shown: &str, lines: &str) -> bool {
    let mut expected = lines.lines();
    let first = next_told(&mut expected).unwrap_or("");
    if first.strip_prefix("pid ") != Some(pids) {
        return false;
    }
    for line in shown.lines() {
        if next_told(&mut expected) != Some(line) {
            return false;
        }
    }
    next_told(&mut expected).is_none()
}

/// Whether the newest sender has nothing in flight, and each message that is shown waits for its next retry.
fn are_resting(events: &str, shown: &str) -> bool {
    let Some((before, life)) = events.rsplit_once("sender start\n") else {
        return false;
    };
    are_reported(life, &LOCAL)
        && are_reported(life, &REMOTE)
        && shown
            .lines()
            .all(|line| waits_by(line, before, life, events, shown))
}

/// Whether a line of what was shown is of no message, or of one that is preprocessed and waits for its next retry.
fn waits_by(line: &str, before: &str, life: &str, events: &str, shown: &str) -> bool {
    let (number, state) = line.split_once(' ').unwrap_or((line, ""));
    if number.parse::<u64>().is_err() {
        return true;
    }
    let (Some(local), Some(remote)) = (
        undone_in(shown, &LOCAL, number),
        undone_in(shown, &REMOTE, number),
    ) else {
        return false;
    };
    state == "S5"
        && (local > 0 || remote > 0)
        && is_later(before, life, events, &LOCAL, number, local)
        && is_later(before, life, events, &REMOTE, number, remote)
}

/// Whether each request that a sender gave was reported on, and it took all that was reported. A spawner gives one byte first.
fn are_reported(life: &str, channel: &Channel) -> bool {
    let (asked, _) = count(life, "sender give ", channel.spawner);
    let (told, given) = count(life, channel.spawner, " give output");
    let (_, taken) = count(life, "sender take ", channel.spawner);
    told == asked.saturating_add(1) && taken == given
}

/// How many events begin with these words, and of how many bytes they are.
fn count(life: &str, first: &str, second: &str) -> (u64, u64) {
    let mut events = 0u64;
    let mut bytes = 0u64;
    for line in life.lines() {
        if let Some(length) = length_of(line, first, second) {
            events = events.saturating_add(1);
            bytes = bytes.saturating_add(length);
        }
    }
    (events, bytes)
}

/// How many records of a message's channel file read `T`, by what was shown of that file. `None` if it wasn't shown.
fn undone_in(shown: &str, channel: &Channel, number: &str) -> Option<u64> {
    for line in shown.lines() {
        if let Some(records) = after_path(line, channel.name, number) {
            return Some(undone(records));
        }
    }
    None
}

/// How many records of a file read `T`.
fn undone(records: &str) -> u64 {
    let mut undone = 0u64;
    for record in records.split("%00") {
        if record.starts_with('T') || record.starts_with(": T") {
            undone = undone.saturating_add(1);
        }
    }
    undone
}

/// Whether none of the records of a message on a channel reads `T`, or all that did at its last pass there were tried, and the next
/// retry comes later than now.
fn is_later(
    before: &str,
    life: &str,
    events: &str,
    channel: &Channel,
    number: &str,
    undone: u64,
) -> bool {
    if undone == 0 {
        return true;
    }
    match last_pass(life, channel, number, moment_of(before)) {
        Some(pass) => {
            pass.asked == pass.marked.saturating_add(undone)
                && moment_of(events)
                    < next_retry(birth_of(events, number), pass.begun, channel.skip)
        }
        None => false,
    }
}

/// The moment of the next retry of a message, after a pass that began at this moment.
fn next_retry(birth: u64, begun: u64, skip: u64) -> u64 {
    let wait = root(begun.saturating_sub(birth)).saturating_add(skip);
    birth.saturating_add(wait.saturating_mul(wait))
}

/// The greatest number up to a million whose square is at most this one.
fn root(square: u64) -> u64 {
    let mut root = 0;
    for next in 1..1_000_001u64 {
        if next.saturating_mul(next) > square {
            return root;
        }
        root = next;
    }
    root
}
