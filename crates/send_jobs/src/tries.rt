// When messages are tried again on a channel.
ghost use Rattle.std.specs.Prelude.{◌≡◌};
ghost use Rattle.mail_bytes.specs.Moments.{IsMoment};
ghost use Rattle.retry_schedule.specs.Due.{first_due};
ghost use Rattle.send_jobs.specs.Lanes.{ended};
ghost use Rattle.send_jobs.specs.Sending.{at_lane};
ghost use Rattle.send_jobs.specs.Tries.{due_on, due_then, file_gone, moment_of, retry_of};

use crate::channels::retry_at;
use crate::slots::Slots;
use mail_bytes::LAST_MOMENT;
use send_known::{Channel, Messages};

/// The message that is due first on a channel, with the moment before it.
pub fn first_due(messages: &Messages, channel: Channel, now: u64) -> Option<(u64, u64)>
    ensures { result ≡ first_due now (due_on channel messages.now) }
{
    match channel {
        Channel::Local => messages.local.first(now),
        Channel::Remote => messages.remote.first(now),
    }
}

/// A message that is due on the channel is due there then. Takes no memory.
pub fn due_then(messages: &mut Messages, channel: Channel, n: u64, due: u64)
    ensures { messages.new ≡ due_then channel n due messages.old }
{
    match channel {
        Channel::Local => messages.local.reschedule(n, due),
        Channel::Remote => messages.remote.reschedule(n, due),
    }
}

/// No job is on the message, and it is due then. Takes no memory.
pub fn due_again(slots: &mut Slots, messages: &mut Messages, channel: Channel, n: u64, due: u64)
    ensures job { slots.new ≡ at_lane channel (ended n) slots.old }
    ensures due { messages.new ≡ due_then channel n due messages.old }
{
    slots.end_job(channel, n);
    due_then(messages, channel, n, due);
}

/// A job that left a place `T` is over: the message is due at the next retry, reckoned at its pass's begin. Takes no memory.
pub fn retry(slots: &mut Slots, messages: &mut Messages, channel: Channel, n: u64, begun: u64)
    ensures job { slots.new ≡ at_lane channel (ended n) slots.old }
    ensures due { messages.new ≡ due_then channel n (retry_of channel n begun messages.old) messages.old }
{
    let birth = moment_of(messages.known.birth_of(n));
    let due = retry_at(channel, birth, moment_of(begun));
    due_again(slots, messages, channel, n, due);
}

/// A job that left no place `T` is over, and the channel file is gone. Takes no memory.
pub fn done_with(slots: &mut Slots, messages: &mut Messages, channel: Channel, n: u64)
    ensures job { slots.new ≡ at_lane channel (ended n) slots.old }
    ensures gone { messages.new ≡ file_gone channel n messages.old }
{
    slots.end_job(channel, n);
    match channel {
        Channel::Local => messages.local_gone(n),
        Channel::Remote => messages.remote_gone(n),
    }
}

/// A moment that a clock may tell: one past the last counts as the last.
fn moment_of(moment: u64) -> u64
    ensures is { result ≡ moment_of moment }
    ensures moment { IsMoment result }
{
    moment.min(LAST_MOMENT)
}
