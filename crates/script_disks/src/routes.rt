// Where the record of each recipient of a mail stands.
ghost use Rattle.std.specs.Prelude.{◌≡◌, ◌++◌, ◌∷◌, [], List, ℕ, IfOk, OnOk, length};
ghost use Rattle.envelope_records.specs.Envelope.{record_of};
ghost use Rattle.script_disks.specs.Routes.{AreLanes, put_there, recipients_in, routes_in};

use address_rules::{Controls, Route, rewrite, strip_prefix};
use bounce_record::note_name;
use envelope_records::{EnvStep, EnvelopeReader};
use mail_bytes::{ByteText, Memory};
use queue_limits::MOST_BYTES;
use send_jobs::Channel;
use std::alloc::Global;

/// Where the record of a recipient stands once its mail is preprocessed.
#[derive(Drop)]
pub struct Routed {
    /// Its channel.
    pub channel: Channel,
    /// Where the record begins in the file of that channel, from 0.
    pub place: u64,
    /// The record as preprocessing writes it: `T`, the routed address, NUL.
    pub text: ByteText,
    /// The name by which a note tells the recipient: the routed address without the prefix of its virtual domain, by the control files
    /// that route its mail. The sender that writes its mark has read the same: no event of a script changes a control file.
    pub name: ByteText,
}

/// Where the record of each recipient of a mail with this envelope stands once it is preprocessed under these control files
/// (INTERNALS, "How messages are preprocessed"), in the order of the envelope. A mail whose envelope doesn't end within the limit
/// has no recipients. The error: out of memory.
pub fn routes_of(alloc: Global, controls: &Controls, envelope: &[u8]) -> Result<Vec<Routed>, Memory>
    ensures { IfOk result (λ routes. routes.items ≡ routes_in controls.now (recipients_in envelope.now)) }
{
    let read = &envelope[..MOST_BYTES.min(envelope.len())];
    let mut reader = EnvelopeReader::new();
    let mut lanes = Lanes::new(alloc);
    for byte in read {
        match reader.feed(*byte) {
            EnvStep::Recipient => lanes.add(alloc, controls, reader.text())?,
            EnvStep::End => return Ok(lanes.into_routed()),
            EnvStep::More | EnvStep::Sender | EnvStep::Fault(_) => {}
        }
    }
    Ok(Vec::new(alloc))
}

/// The files of both channels as far as they are written, and where each record stands. How long a file is so far is the place of
/// its next record.
#[derive(Drop)]
struct Lanes {
    local: Vec<u8>,
    remote: Vec<u8>,
    routed: Vec<Routed>,
}

impl Lanes {
    /// Of no recipient. Takes no memory.
    fn new(alloc: Global) -> Lanes
        ensures local { result.local.items ≡ [] }
        ensures remote { result.remote.items ≡ [] }
        ensures routed { result.routed.items ≡ [] }
    {
        Lanes {
            local: Vec::new(alloc),
            remote: Vec::new(alloc),
            routed: Vec::new(alloc),
        }
    }

    /// Where each record stands.
    fn into_routed(self) -> Vec<Routed>
        ensures { result ≡ self.routed }
    {
        self.routed
    }

    /// One recipient more.
    fn add(&mut self, alloc: Global, controls: &Controls, address: &[u8]) -> Result<(), Memory>
        ensures { OnOk result ((recipients : List (List ℕ)) → AreLanes controls.now recipients self.old
            → AreLanes controls.now (recipients ++ address.now ∷ []) self.new) }
    {
        match rewrite(alloc, controls, address)? {
            Route::Local(routed) => put(
                alloc,
                controls,
                &mut self.local,
                &mut self.routed,
                Channel::Local,
                routed.as_slice(),
            ),
            Route::Remote(routed) => put(
                alloc,
                controls,
                &mut self.remote,
                &mut self.routed,
                Channel::Remote,
                routed.as_slice(),
            ),
        }
    }
}

/// Puts the record of an address at the end of the file of a channel, and where it stands at the end of the list.
fn put(
    alloc: Global,
    controls: &Controls,
    text: &mut Vec<u8>,
    routed: &mut Vec<Routed>,
    channel: Channel,
    address: &[u8],
) -> Result<(), Memory>
    ensures text { OnOk result (text.new.items ≡ text.old.items ++ record_of address.now) }
    ensures routed { OnOk result (routed.new.items ≡ routed.old.items
        ++ put_there controls.now channel (length text.old.items) address.now ∷ []) }
{
    let place = text.len() as u64;
    let own = record_of(alloc, address)?;
    let name = note_name(alloc, strip_prefix(controls, address))?;
    text.extend_from_slice(own.as_slice())?;
    routed.push(Routed {
        channel,
        place,
        text: own,
        name,
    })?;
    Ok(())
}

/// `T`, the address, NUL.
fn record_of(alloc: Global, address: &[u8]) -> Result<ByteText, Memory>
    ensures { IfOk result (λ text. text ≡ record_of address.now) }
{
    let mut text = ByteText::from_slice(alloc, b"T")?;
    text.extend(address)?;
    text.extend(b"\0")?;
    Ok(text)
}
