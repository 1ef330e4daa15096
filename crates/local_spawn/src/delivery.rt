// The delivery of a request.
ghost use Rattle.std.specs.Prelude.{◌≡◌, ◌==◌, drop, IfOk};
ghost use Rattle.std.specs.List.{before_first, position};
ghost use Rattle.local_spawn.specs.Deliveries.{default_line, delivery_by, delivery_for, delivery_of, local_of, local_report};
ghost use Rattle.mail_bytes.specs.Netstring.{netstring};

use crate::assign::{Assign, Assignment};
use crate::finding::{Found, find};
use crate::letters::letter_of_status;
use call_fs::DeliveryWordsData;
use mail_bytes::{ByteText, Memory, dec};
use outside::Status;
use spawn_protocol::Request;
use spawner_parts::domain_of;
use std::alloc::Global;

/// What is followed if the user has no .qmail file.
const DEFAULT_LINE: &[u8] = b"./Maildir/";

/// What is told of a delivery that crashed, or couldn't be started.
pub const CRASHED: &[u8] = b"Zqmail-local crashed.\n";

/// A delivery that is to be started: the words of its command line, and the user's number, for forwards.
#[derive(Drop)]
pub struct Delivery {
    /// The words.
    pub words: DeliveryWordsData,
    /// The user's number.
    pub uid: u32,
}

/// The delivery of a request to one of these users; `None` if none of them has its local part, or if they couldn't be read.
/// Fails only if out of memory.
pub fn delivery_for(
    alloc: Global,
    users: &Option<Assign>,
    request: &Request,
) -> Result<Option<Delivery>, Memory>
    ensures { IfOk result (λ delivery. delivery ≡ delivery_for users.now request.now) }
{
    match users {
        None => Ok(None),
        Some(assign) => {
            let found = find(assign, local_of(request.recipient.as_slice()));
            delivery_of(alloc, assign, request, found)
        }
    }
}

/// The same, of the line that was found.
fn delivery_of(
    alloc: Global,
    assign: &Assign,
    request: &Request,
    found: Option<Found>,
) -> Result<Option<Delivery>, Memory>
    ensures { IfOk result (λ delivery. delivery ≡ delivery_of assign.now request.now found) }
{
    let Some(found) = found else {
        return Ok(None);
    };
    match assign.as_slice().get(found.line as usize) {
        None => Ok(None),
        Some(user) => Ok(Some(delivery_by(alloc, user, found.rest, request)?)),
    }
}

/// The delivery to this user, of whose line so many bytes of the local part have matched.
fn delivery_by(
    alloc: Global,
    user: &Assignment,
    matched: u64,
    request: &Request,
) -> Result<Delivery, Memory>
    ensures { IfOk result (λ delivery. delivery ≡ delivery_by user.now matched request.now) }
{
    let recipient = request.recipient.as_slice();
    let local = local_of(recipient);
    let mut ext = ByteText::from_slice(alloc, user.ext.as_slice())?;
    ext.extend(rest_of(local, matched))?;
    Ok(Delivery {
        words: DeliveryWordsData {
            user: ByteText::from_slice(alloc, user.user.as_slice())?,
            home: ByteText::from_slice(alloc, user.home.as_slice())?,
            local: ByteText::from_slice(alloc, local)?,
            dash: ByteText::from_slice(alloc, user.dash.as_slice())?,
            ext,
            domain: ByteText::from_slice(alloc, domain_of(recipient))?,
            sender: ByteText::from_slice(alloc, request.sender.as_slice())?,
            line: ByteText::from_slice(alloc, DEFAULT_LINE)?,
        },
        uid: user.uid,
    })
}

/// What comes before the last `@` of an address that has one.
fn local_of(address: &[u8]) -> &[u8]
    ensures { result.now ≡ local_of address.now }
{
    let length = address.len().saturating_sub(domain_of(address).len() + 1);
    &address[..length]
}

/// What comes after so many bytes.
fn rest_of(bytes: &[u8], count: u64) -> &[u8]
    ensures { result.now ≡ drop count bytes.now }
{
    let count = count as usize;
    if count < bytes.len() {
        &bytes[count..]
    } else {
        &[]
    }
}

/// The netstring of these bytes. Fails only if out of memory.
pub fn netstring(alloc: Global, bytes: &[u8]) -> Result<ByteText, Memory>
    ensures { IfOk result (λ text. text ≡ netstring bytes.now) }
{
    let mut digits = [0; 20];
    let count = dec(bytes.len() as u64, &mut digits);
    let mut text = ByteText::from_slice(alloc, &digits[..count])?;
    text.extend(b":")?;
    text.extend(bytes)?;
    text.extend(b",")?;
    Ok(text)
}

/// The report of a delivery that ended like this and printed this. Fails only if out of memory.
pub fn local_report(alloc: Global, status: Status, output: &[u8]) -> Result<ByteText, Memory>
    ensures { IfOk result (λ report. report ≡ local_report status output.now) }
{
    match status {
        Status::Crashed | Status::Failed => ByteText::from_slice(alloc, CRASHED),
        Status::Ended(_) => {
            let mut report = ByteText::from_slice(alloc, &[letter_of_status(status)])?;
            report.extend(up_to_nul(output))?;
            Ok(report)
        }
    }
}

/// What comes before the first NUL.
fn up_to_nul(output: &[u8]) -> &[u8]
    ensures { result.now ≡ before_first (λ b. b == 0) output.now }
{
    match first_nul(output) {
        Some(at) => &output[..at],
        None => output,
    }
}

/// The place of the first NUL.
fn first_nul(output: &[u8]) -> Option<usize>
    ensures { result ≡ position (λ b. b == 0) output.now }
{
    output.iter().position(|byte| *byte == 0)
}
