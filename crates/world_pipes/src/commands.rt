// How the command of a user ends.
ghost use Rattle.std.specs.Prelude.{◌≡◌};
ghost use Rattle.mail_bytes.specs.Decimal.{number_of};
ghost use Rattle.world_pipes.specs.Commands.{command_exits, exits_with};

use mail_bytes::undec;

/// With what a shell exits that finds no such command.
const NOT_FOUND: u8 = 127;

/// The exit status of a command line: `exit N` exits with N, if that is a decimal text from 0 to 255 without leading zeros, and
/// every other one with 127.
pub fn command_exits(command: &[u8]) -> u8
    ensures { result ≡ command_exits command.now }
{
    if command.starts_with(b"exit ") {
        exits_with(&command[5..])
    } else {
        NOT_FOUND
    }
}

/// The exit status that this text is, or else 127.
fn exits_with(number: &[u8]) -> u8
    ensures { result ≡ exits_with (number_of number.now) }
{
    match undec(number) {
        Some(status) if status <= 255 => status as u8,
        _ => NOT_FOUND,
    }
}
