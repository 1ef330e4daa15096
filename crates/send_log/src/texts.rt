// The texts of the lines.
ghost use Rattle.std.specs.Prelude.{◌≡◌, ◌+◌, ◌≤◌, ◌++◌, ◌∷◌, [], codes, length, vec_len, vec_capacity};
ghost use Rattle.mail_bytes.specs.Decimal.{digits};
ghost use Rattle.send_log.specs.Lines.{address_of, bounced, channel_of, delivered, line, line_room, message_info, shown, starting, status, text_of};

use crate::lines::{LINE_ROOM, Line, Load, Outcome, Target};
use crate::pieces::Piece::{Number, Shown, Words};
use crate::pieces::put_line;

/// Puts the text of a line at the end of another. The condition: there is room for it.
pub fn put_text(text: &mut Vec<u8>, line: &Line<'_>)
    requires { vec_len text.old + line_room line.now ≤ vec_capacity text.old }
    ensures items { text.new.items ≡ text.old.items ++ text_of line.now }
    ensures short { vec_len text.new ≤ vec_len text.old + line_room line.now }
    ensures capacity { vec_capacity text.old ≤ vec_capacity text.new }
{
    match *line {
        Line::NewMessage { message } => put_numbered(text, b"new msg ", message),
        Line::MessageInfo {
            message,
            bytes,
            sender,
            pid,
            uid,
        } => put_message_info(text, message, bytes, sender, pid, uid),
        Line::Starting {
            delivery,
            message,
            target,
        } => put_starting(text, delivery, message, &target),
        Line::Status { local, remote } => put_status(text, local, remote),
        Line::Delivered {
            delivery,
            outcome,
            report,
        } => put_delivered(text, delivery, outcome, report),
        Line::Bounced { message, pid } => put_bounced(text, message, pid),
        Line::TripleBounce { message } => {
            put_numbered(text, b"triple bounce: discarding bounce/", message)
        }
        Line::EndMessage { message } => put_numbered(text, b"end msg ", message),
        Line::StrayReport { slot } => put_numbered(text, b"alert: report ", u64::from(slot)),
        Line::Skipped { message } => put_numbered(text, b"alert: skip ", message),
        Line::Left { message } => put_numbered(text, b"alert: left ", message),
    }
}

/// Puts words and a number.
fn put_numbered(text: &mut Vec<u8>, words: &[u8], number: u64)
    requires short { length words.now ≤ 40 }
    requires room { vec_len text.old + LINE_ROOM ≤ vec_capacity text.old }
    ensures items { text.new.items ≡ text.old.items ++ line (words.now ∷ digits number ∷ []) }
    ensures short { vec_len text.new ≤ vec_len text.old + LINE_ROOM }
    ensures capacity { vec_capacity text.old ≤ vec_capacity text.new }
{
    put_line(text, &[Words(words), Number(number)]);
}

/// Puts what a message is.
fn put_message_info(text: &mut Vec<u8>, message: u64, bytes: u64, sender: &[u8], pid: u32, uid: u32)
    requires { vec_len text.old + (LINE_ROOM + length sender.now) ≤ vec_capacity text.old }
    ensures items { text.new.items ≡ text.old.items ++ message_info message bytes sender.now pid uid }
    ensures short { vec_len text.new ≤ vec_len text.old + (LINE_ROOM + length sender.now) }
    ensures capacity { vec_capacity text.old ≤ vec_capacity text.new }
{
    put_line(
        text,
        &[
            Words(b"info msg "),
            Number(message),
            Words(b": bytes "),
            Number(bytes),
            Words(b" from <"),
            Shown(sender),
            Words(b"> qp "),
            Number(u64::from(pid)),
            Words(b" uid "),
            Number(u64::from(uid)),
        ],
    );
}

/// Puts that a delivery begins.
fn put_starting(text: &mut Vec<u8>, delivery: u64, message: u64, target: &Target<'_>)
    requires { vec_len text.old + (LINE_ROOM + length (address_of target.now)) ≤ vec_capacity text.old }
    ensures items { text.new.items ≡ text.old.items ++ starting delivery message (channel_of target.now) (address_of target.now) }
    ensures short { vec_len text.new ≤ vec_len text.old + (LINE_ROOM + length (address_of target.now)) }
    ensures capacity { vec_capacity text.old ≤ vec_capacity text.new }
{
    put_line(
        text,
        &[
            Words(b"starting delivery "),
            Number(delivery),
            Words(b": msg "),
            Number(message),
            Words(b" to "),
            Words(target.channel()),
            Words(b" "),
            Shown(target.address()),
        ],
    );
}

/// Puts what is in flight.
fn put_status(text: &mut Vec<u8>, local: Load, remote: Load)
    requires { vec_len text.old + LINE_ROOM ≤ vec_capacity text.old }
    ensures items { text.new.items ≡ text.old.items ++ status local.busy local.limit remote.busy remote.limit }
    ensures short { vec_len text.new ≤ vec_len text.old + LINE_ROOM }
    ensures capacity { vec_capacity text.old ≤ vec_capacity text.new }
{
    put_line(
        text,
        &[
            Words(b"status: local "),
            Number(u64::from(local.busy)),
            Words(b"/"),
            Number(u64::from(local.limit)),
            Words(b" remote "),
            Number(u64::from(remote.busy)),
            Words(b"/"),
            Number(u64::from(remote.limit)),
        ],
    );
}

/// Puts that a delivery ended.
fn put_delivered(text: &mut Vec<u8>, delivery: u64, outcome: Outcome, report: &[u8])
    requires { vec_len text.old + (LINE_ROOM + length report.now) ≤ vec_capacity text.old }
    ensures items { text.new.items ≡ text.old.items ++ delivered delivery outcome report.now }
    ensures short { vec_len text.new ≤ vec_len text.old + (LINE_ROOM + length report.now) }
    ensures capacity { vec_capacity text.old ≤ vec_capacity text.new }
{
    put_line(
        text,
        &[
            Words(b"delivery "),
            Number(delivery),
            Words(b": "),
            Words(outcome.word()),
            Words(b": "),
            Shown(report),
        ],
    );
}

/// Puts that a bounce was queued.
fn put_bounced(text: &mut Vec<u8>, message: u64, pid: u32)
    requires { vec_len text.old + LINE_ROOM ≤ vec_capacity text.old }
    ensures items { text.new.items ≡ text.old.items ++ bounced message pid }
    ensures short { vec_len text.new ≤ vec_len text.old + LINE_ROOM }
    ensures capacity { vec_capacity text.old ≤ vec_capacity text.new }
{
    put_line(
        text,
        &[
            Words(b"bounce msg "),
            Number(message),
            Words(b" qp "),
            Number(u64::from(pid)),
        ],
    );
}
