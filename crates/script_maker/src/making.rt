// A script is made piece by piece.
ghost use Rattle.std.specs.Prelude.{◌≡◌, ◌≢◌, ◌≤◌, OnErr, OnOk, Err};
ghost use Rattle.mail_bytes.specs.Told.{Meets};
ghost use Rattle.outside.specs.Streams.{CountsFailures, Gives};
ghost use Rattle.script_maker.specs.Script.{script_of};
ghost use Rattle.script_maker.specs.inside.Pieces.{GivesBut};
ghost use Rattle.script_maker.specs.declared.draws.TheConstants.{LAST_SEED};

use crate::MakeError;
use crate::draws::Draws;
use crate::mails::put_mail;
use outside::{Gave, Sink};
use std::alloc::Global;

/// The lines before the mails.
const OPENING: &[u8] = b"file users/assign : +u:u:1000:1000:home/u:-::%0A.%0A\n\
    file home/u/.qmail-default : ./Maildir/%0A\n\
    dir home/u/Maildir/tmp\n\
    dir home/u/Maildir/new\n\
    dir home/u/Maildir/cur\n";

/// The lines after the mails.
const CLOSING: &[u8] = b"sender\nsettle K\nsum\n";

/// A piece has at least so many bytes, and at most one mail more.
const PIECE: usize = 8192;

/// Gives the output the script of this seed with so many mails, in pieces: a user `u` with a maildir, mails from `s0` to `s99`,
/// each to one to three recipients among ten local users and ten remote ones, and a sender that delivers them. After an
/// error it took a prefix of the script.
pub fn make<O: Sink>(alloc: Global, seed: u64, count: u64, out: &mut O) -> Result<(), MakeError>
    requires { seed ≤ LAST_SEED }
    ensures all { OnOk result (Meets (O.taken out.old) (O.taken out.new) (Gives Gave.Done (script_of seed count))) }
    ensures part { OnErr result (Meets (O.taken out.old) (O.taken out.new) (Gives Gave.Failed (script_of seed count))) }
    ensures cause { CountsFailures (O.faults out.old) (O.faults out.new) (result ≡ Err MakeError.Failed) }
{
    let mut text = Vec::new(alloc);
    let mut draws = Draws::new(seed);
    text.extend_from_slice(OPENING)?;
    for made in 0..count {
        put_mail(&mut text, &mut draws, made + 1)?;
        give_piece(&mut text, out)?;
    }
    text.extend_from_slice(CLOSING)?;
    give(&text, out)
}

/// Gives a text to the output, and empties it, if it has the bytes of a piece.
fn give_piece<O: Sink>(text: &mut Vec<u8>, out: &mut O) -> Result<(), MakeError>
    ensures all { OnOk result (Meets (O.taken out.old) (O.taken out.new) (GivesBut text.new.items text.old.items)) }
    ensures part { OnErr result (Meets (O.taken out.old) (O.taken out.new) (Gives Gave.Failed text.old.items)) }
    ensures cause { CountsFailures (O.faults out.old) (O.faults out.new) (result ≡ Err MakeError.Failed) }
    ensures failed { OnErr result (result ≡ Err MakeError.Failed) }
{
    if text.len() >= PIECE {
        give(text, out)?;
        text.clear();
    }
    Ok(())
}

/// Gives a text to the output.
fn give<O: Sink>(text: &[u8], out: &mut O) -> Result<(), MakeError>
    ensures all { OnOk result (Meets (O.taken out.old) (O.taken out.new) (Gives Gave.Done text.now)) }
    ensures part { OnErr result (Meets (O.taken out.old) (O.taken out.new) (Gives Gave.Failed text.now)) }
    ensures cause { CountsFailures (O.faults out.old) (O.faults out.new) (result ≡ Err MakeError.Failed) }
    ensures failed { OnErr result (result ≡ Err MakeError.Failed) }
{
    match out.give(text) {
        Gave::Done => Ok(()),
        Gave::Failed => Err(MakeError::Failed),
    }
}
