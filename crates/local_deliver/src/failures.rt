// The texts of failures, and their exit statuses.
ghost use Rattle.std.specs.Prelude.{◌≡◌};
ghost use Rattle.local_deliver.specs.Failures.{status_of, text_of};

use crate::Failure;
use local_parts::{PERMANENT, TEMPORARY};

/// What is printed of a failure.
pub fn text_of(failure: Failure) -> &'static [u8]
    ensures { result.now ≡ text_of failure }
{
    match failure {
        Failure::Unreadable => b"Unable to read the message. (#4.3.0)\n",
        Failure::Looping => {
            b"This message is looping: it already has my Delivered-To line. (#5.4.6)\n"
        }
        Failure::Home => b"Unable to read the home. (#4.3.0)\n",
        Failure::NoMailbox => b"Sorry, no mailbox here by that name. (#5.1.1)\n",
        Failure::BlankFirst => b"Uh-oh: first line of .qmail file is blank. (#4.2.1)\n",
        Failure::Mailbox => b"Mailbox files are not delivered to here. (#4.3.0)\n",
        Failure::Maildir => b"Temporary error on maildir delivery. (#4.3.0)\n",
    }
}

/// The exit status of a failure.
pub fn status_of(failure: Failure) -> u8
    ensures { result ≡ status_of failure }
{
    match failure {
        Failure::Looping | Failure::NoMailbox => PERMANENT,
        Failure::Unreadable
        | Failure::Home
        | Failure::BlankFirst
        | Failure::Mailbox
        | Failure::Maildir => TEMPORARY,
    }
}
