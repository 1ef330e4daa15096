// How long the children of a command may run after their inputs ended.

use command_words::Member;

/// How much longer a child that has children may run than these, in milliseconds.
const MARGIN: u64 = 60_000;

/// How many programs of others, one after the other, a local delivery has time for.
const COMMANDS: u64 = 4;

/// How long children of this member, or of a local delivery, may run, where a program of others may run for so long. A child that has
/// children itself gets more than these, so that what ends them is whoever knows them.
pub(crate) fn child_limit(member: Option<Member>, drain: u64) -> u64 {
    let delivery = drain.saturating_mul(COMMANDS).saturating_add(MARGIN);
    match member {
        Some(Member::Send) => delivery.saturating_add(MARGIN),
        Some(Member::Lspawn) => delivery,
        Some(Member::Rspawn | Member::Clean) | None => drain,
    }
}
