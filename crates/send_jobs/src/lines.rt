// The lines of the log that speak of deliveries.
ghost use Rattle.std.specs.Prelude.{◌≡◌, ◌≤◌, ◌+◌, ◌++◌, length, is_some, IfOk, OnOk, OnErr};
ghost use Rattle.send_jobs.specs.Lanes.{in_flight, next};
ghost use Rattle.send_jobs.specs.Lines.{channel_word, settled_lines, settled_room, starting_if, status_if, status_line};
ghost use Rattle.send_jobs.specs.Sending.{lane};
ghost use Rattle.send_log.specs.Lines.{address_of, channel_of};

use crate::{Attempt, Slots};
use mail_bytes::Memory;
use send_known::Channel;
use send_log::{LINE_ROOM, Line, Load, Log, Outcome, Target};

/// Puts the line of what is in flight. The condition: there is room for it.
pub fn put_status(log: &mut Log, slots: &Slots)
    requires { LINE_ROOM ≤ log.old.room }
    ensures text { log.new.text ≡ log.old.text ++ status_line slots.now }
    ensures room { log.old.room ≤ log.new.room + LINE_ROOM }
{
    log.put(&Line::Status {
        local: load(slots, Channel::Local),
        remote: load(slots, Channel::Remote),
    });
}

/// Puts the line of what is in flight, if a request was given. The condition: there is room for it.
pub fn status_if(log: &mut Log, given: bool, slots: &Slots)
    requires { LINE_ROOM ≤ log.old.room }
    ensures { log.new.text ≡ log.old.text ++ status_if given slots.now }
{
    if given {
        put_status(log, slots);
    }
}

/// What is in flight, and how many deliveries may be, of one channel.
fn load(slots: &Slots, channel: Channel) -> Load
    ensures busy { result.busy ≡ in_flight (lane channel slots.now) }
    ensures limit { result.limit ≡ length (lane channel slots.now).slots }
{
    Load {
        busy: slots.in_flight(channel),
        limit: slots.limit(channel),
    }
}

/// Puts the line of the request that comes next, if there is one, and keeps room for what is then in flight; answers whether
/// there is one. After an `Err` the text is as before.
pub fn put_starting(log: &mut Log, slots: &Slots, channel: Channel) -> Result<bool, Memory>
    ensures ok { IfOk result (λ starts. starts ≡ is_some (next (lane channel slots.now))) }
    ensures text { OnOk result (log.new.text ≡ log.old.text ++ starting_if (next (lane channel slots.now)) channel slots.now) }
    ensures room { OnOk result (LINE_ROOM ≤ log.new.room) }
    ensures err { OnErr result (log.new.text ≡ log.old.text) }
{
    match slots.upcoming(channel, 0) {
        None => {
            log.reserve(LINE_ROOM)?;
            Ok(false)
        }
        Some(attempt) => {
            let line = Line::Starting {
                delivery: slots.next_delivery(),
                message: attempt.n,
                target: target(channel, attempt),
            };
            log.reserve(LINE_ROOM + line.room())?;
            log.put(&line);
            Ok(true)
        }
    }
}

/// Where an attempt goes.
fn target(channel: Channel, attempt: &Attempt) -> Target<'_>
    ensures channel { channel_of result ≡ channel_word channel }
    ensures address { address_of result ≡ attempt.now.address }
{
    match channel {
        Channel::Local => Target::Local(attempt.address.as_slice()),
        Channel::Remote => Target::Remote(attempt.address.as_slice()),
    }
}

/// Puts the lines of a delivery that has ended, with this letter and text, after which the slots are so. The condition: there
/// is room for them.
pub fn put_settled(log: &mut Log, attempt: &Attempt, letter: u8, text: &[u8], after: &Slots)
    requires { settled_room text.now ≤ log.old.room }
    ensures text { log.new.text ≡ log.old.text ++ settled_lines attempt.now letter text.now after.now }
    ensures room { log.old.room ≤ log.new.room + settled_room text.now }
{
    log.put(&Line::Delivered {
        delivery: attempt.delivery,
        outcome: Outcome::of_report(letter, attempt.dying),
        report: text,
    });
    put_status(log, after);
}
