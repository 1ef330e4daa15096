// How a command and an injection end, by their exit statuses.
ghost use Rattle.std.specs.Prelude.{◌≡◌, ◌++◌, IfOk, OnOk};
ghost use Rattle.mail_bytes.specs.Decimal.{digits};
ghost use Rattle.local_parts.specs.Endings.{class_of, command_report, command_status, forward_report, forward_status, is_lasting_command, is_lasting_injection, status_by};

use mail_bytes::{ByteText, Memory, dec};
use std::alloc::Global;

/// The exit status of a delivery that no later try makes (qmail-command(8)).
pub const PERMANENT: u8 = 100;

/// The exit status of a delivery that a later try may make (qmail-command(8)).
pub const TEMPORARY: u8 = 111;

/// The exit status of a delivery whose command exited with this, neither 0 nor 99; 0 stands for one that crashed
/// (qmail-command(8)).
pub fn command_status(code: u8) -> u8
    ensures { result ≡ command_status code }
{
    status_by(is_lasting_command(code))
}

/// The exit status of a delivery whose forwards' injector exited with this, not 0; 0 stands for one that crashed.
pub fn forward_status(code: u8) -> u8
    ensures { result ≡ forward_status code }
{
    status_by(is_lasting_injection(code))
}

/// What is printed of such a command. Fails only if out of memory.
pub fn command_report(alloc: Global, code: u8) -> Result<ByteText, Memory>
    ensures { IfOk result (λ text. text ≡ command_report code) }
{
    let mut text = ByteText::from_slice(alloc, b"Command failed with status ")?;
    put_number(&mut text, u64::from(code))?;
    text.extend(class_of(is_lasting_command(code)))?;
    Ok(text)
}

/// What is printed of such an injector. Fails only if out of memory.
pub fn forward_report(alloc: Global, code: u8) -> Result<ByteText, Memory>
    ensures { IfOk result (λ text. text ≡ forward_report code) }
{
    let mut text = ByteText::from_slice(alloc, b"Unable to forward: status ")?;
    put_number(&mut text, u64::from(code))?;
    text.extend(class_of(is_lasting_injection(code)))?;
    Ok(text)
}

/// Whether no later try will go well after a command that exited with this.
fn is_lasting_command(code: u8) -> bool
    ensures { result ≡ is_lasting_command code }
{
    matches!(code, 100 | 64 | 65 | 70 | 76 | 77 | 78 | 112)
}

/// Whether no later try will go well after an injector that exited with this.
fn is_lasting_injection(code: u8) -> bool
    ensures { result ≡ is_lasting_injection code }
{
    (11..=40).contains(&code)
}

/// The exit status of the delivery.
fn status_by(is_lasting: bool) -> u8
    ensures { result ≡ status_by is_lasting }
{
    if is_lasting { PERMANENT } else { TEMPORARY }
}

/// The class of the failure.
fn class_of(is_lasting: bool) -> &'static [u8]
    ensures { result.now ≡ class_of is_lasting }
{
    if is_lasting {
        b". (#5.3.0)\n"
    } else {
        b". (#4.3.0)\n"
    }
}

/// Puts a number at the end of a text. After an `Err` it is to be let go.
pub fn put_number(text: &mut ByteText, number: u64) -> Result<(), Memory>
    ensures { OnOk result (text.new ≡ text.old ++ digits number) }
{
    let mut into = [0; 20];
    let len = dec(number, &mut into);
    text.extend(&into[..len])
}
