// The lines of refusals.
ghost use Rattle.std.specs.Prelude.{◌≡◌, ◌++◌, OnOk, codes};
ghost use Rattle.mail_bytes.specs.Decimal.{digits};
ghost use Rattle.scenario.specs.Steps.{Refusal, IsRefusalOf, refusal_line};
ghost use Rattle.scenario.specs.Shown.{line_of};

use mail_bytes::{Memory, dec};
use mail_world::{ActorName, WorldError};
use queue_states::put_line;
use std::alloc::AllocError;

/// Puts the line of a refusal at the end of a text. That memory ran out is no line.
pub fn refuse(text: &mut Vec<u8>, why: WorldError, name: &ActorName) -> Result<(), Memory>
    ensures { OnOk result ((refusal : Refusal) × IsRefusalOf why refusal × (text.new.items ≡ text.old.items ++ refusal_line refusal name.now)) }
{
    match why {
        WorldError::Gone(_, _) => put_refusal(text, b"gone", name.as_slice()),
        WorldError::NotWaiting(_) => put_refusal(text, b"notwaiting", name.as_slice()),
        WorldError::Unknown => put_refusal(text, b"unknown", name.as_slice()),
        WorldError::Taken => put_refusal(text, b"taken", name.as_slice()),
        WorldError::Past(_) => put_refusal(text, b"past", name.as_slice()),
        WorldError::Alive(_) => put_refusal(text, b"alive", name.as_slice()),
        WorldError::Memory => Err(AllocError),
    }
}

/// Puts the line `refused WORD NAME` at the end of a text.
pub fn put_refusal(text: &mut Vec<u8>, word: &[u8], name: &[u8]) -> Result<(), Memory>
    ensures { OnOk result (text.new.items ≡ text.old.items ++ (codes "refused " ++ line_of word.now name.now)) }
{
    text.extend_from_slice(b"refused ")?;
    put_line(text, word, name)
}

/// The same, with a number for a name.
pub fn refuse_number(text: &mut Vec<u8>, word: &[u8], number: u64) -> Result<(), Memory>
    ensures { OnOk result (text.new.items ≡ text.old.items ++ (codes "refused " ++ line_of word.now (digits number))) }
{
    let mut digits = [0; 20];
    let len = dec(number, &mut digits);
    put_refusal(text, word, &digits[..len])
}
