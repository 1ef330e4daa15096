// The schedule of a channel.
ghost use Rattle.std.specs.Prelude.{◌≡◌, ◌≤◌};
ghost use Rattle.mail_bytes.specs.Moments.{IsMoment};
ghost use Rattle.retry_schedule.specs.Retry.{next_retry};
ghost use Rattle.send_jobs.specs.Channels.{skip_of};

use retry_schedule::next_retry;
use send_known::Channel;

/// By how much the root of a message's age grows from one try to the next.
fn skip_of(channel: Channel) -> u64
    ensures is { result ≡ skip_of channel }
    ensures small { result ≤ 20 }
{
    match channel {
        Channel::Local => 10,
        Channel::Remote => 20,
    }
}

/// When a message is due again after a pass that left a place `T`: the next retry, reckoned at the beginning of that pass, by
/// the schedule of qmail-send(8). The conditions: a clock may tell both moments. Takes no memory.
pub fn retry_at(channel: Channel, birth: u64, begun: u64) -> u64
    requires birth { IsMoment birth }
    requires begun { IsMoment begun }
    ensures { result ≡ next_retry birth begun (skip_of channel) }
{
    next_retry(birth, begun, skip_of(channel))
}
