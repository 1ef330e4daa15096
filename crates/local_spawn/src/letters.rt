// The letter of a local delivery's report.
ghost use Rattle.std.specs.Prelude.{◌≡◌};
ghost use Rattle.local_spawn.specs.Letters.{letter_of};

use outside::Status;

/// The letter of the report of a local delivery that ended like this: `K` for a success, `Z` for a later try, `D` for a failure. A
/// status that couldn't be had counts as a crash. Takes no memory.
pub fn letter_of_status(status: Status) -> u8
    ensures { result ≡ letter_of status }
{
    match status {
        Status::Ended(0) => b'K',
        Status::Ended(51 | 71 | 74 | 75 | 111) => b'Z',
        Status::Ended(_) => b'D',
        Status::Crashed | Status::Failed => b'Z',
    }
}
