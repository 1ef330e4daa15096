// The command `make`.
ghost use Rattle.std.specs.Prelude.{◌≡◌, ◌≤◌};
ghost use Rattle.qmail_top.specs.Making.{HasMade, status_of};

use command_words::MakeWords;
use outside::Sink;
use queue_limits::{DONE, MEMORY, OUTPUT};
use script_maker::{MakeError, make};
use std::alloc::Global;

/// Gives the output the script that the words of `make` tell, and answers the exit status. The condition: the seed is one.
pub fn make_script<O: Sink>(alloc: Global, told: MakeWords, out: &mut O) -> u8
    requires { told.seed ≤ 65536 }
    ensures { HasMade told
        (record { old = O.taken out.old; new = O.taken out.new; faults_old = O.faults out.old; faults_new = O.faults out.new })
        result }
{
    match make(alloc, told.seed, told.count, out) {
        Ok(()) => DONE,
        Err(why) => status_of(why),
    }
}

/// The exit status of an error.
fn status_of(why: MakeError) -> u8
    ensures { result ≡ status_of why }
{
    match why {
        MakeError::Failed => OUTPUT,
        MakeError::Memory => MEMORY,
    }
}
