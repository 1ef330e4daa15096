// Attempts, and the marks that their reports lead to.
ghost use Rattle.std.specs.Prelude.{◌≡◌};
ghost use Rattle.send_jobs.specs.Failures.{failure_in, is_final};

use mail_bytes::ByteText;
use spawn_protocol::Report;

/// An attempt at a recipient of a message.
#[derive(Drop)]
pub struct Attempt {
    /// The number of the message.
    pub n: u64,
    /// Where the letter of the recipient's record is in the channel file, from 0.
    pub place: u64,
    /// Whether its pass is a dying one, so that a report of a temporary failure counts as a permanent one.
    pub dying: bool,
    /// Which delivery of the sender it is, from 1; 0 until it goes out.
    pub delivery: u64,
    /// The recipient, as its record has it.
    pub address: ByteText,
}

/// What a note says of a recipient that couldn't be delivered to.
#[derive(Drop)]
pub struct Failure {
    /// The text of the report, as it was taken.
    pub report: ByteText,
    /// Whether the note adds that the message is too old to be tried again: the report was of a temporary failure.
    pub is_late: bool,
}

/// A mark that is to be made: a report has come, and the record of its attempt is to become `D`.
#[derive(Drop)]
pub struct Mark {
    /// The attempt that was reported.
    pub attempt: Attempt,
    /// What is noted before the mark is made; `None` if the recipient was delivered to.
    pub note: Option<Failure>,
}

/// Whether a recipient of which this letter was reported, in a pass that is dying or not, isn't tried again.
pub fn is_final(letter: u8, dying: bool) -> bool
    ensures { result ≡ is_final letter dying }
{
    letter == b'K' || letter == b'D' || dying
}

/// What is noted of a recipient that isn't tried again after this report.
pub fn failure_in(report: Report) -> Option<Failure>
    ensures { result ≡ failure_in report }
{
    let letter = report.counts_as();
    if letter == b'K' {
        return None;
    }
    Some(Failure {
        report: report.text,
        is_late: letter != b'D',
    })
}
