// Requests, byte by byte.
ghost use Rattle.std.specs.Prelude.{◌≡◌, ◌≢◌, ◌↔◌, ◌++◌, ◌∷◌, [], ℕ, List, All, IfOk, OnOk};
ghost use Rattle.spawn_protocol.specs.Request.{Start, Reader, HasRead, IsRequest, IsText, IsTooLong, field_text, request_text};
ghost use Rattle.spawn_protocol.specs.declared.request.Request.{Request};

use mail_bytes::{ByteText, Memory};
use std::alloc::{AllocError, Global};
use std::marker::Model;
use std::mem::replace;
use thiserror::Error;

/// What the sender asks of a spawner: one delivery.
#[derive(Drop)]
pub struct Request {
    /// The delivery number.
    pub slot: u8,
    /// The message's file, below `mess/`.
    pub mess: ByteText,
    /// The sender of the message.
    pub sender: ByteText,
    /// Where the message goes.
    pub recipient: ByteText,
}

/// Why no request came.
#[derive(Debug, Drop, Error)]
pub enum CodecError {
    /// A field has a 4097th byte.
    #[error("a field of over 4096 bytes")]
    TooLong,
    /// Out of memory.
    #[error("out of memory")]
    Memory,
}

impl From<AllocError> for CodecError {
    ghost use Rattle.std.specs.Prelude.{◌≡◌};
    ghost use Rattle.spawn_protocol.specs.declared.request.CodecError.TheVariants.{Memory};

    ghost from_gives = { λ _ why. why ≡ Memory };

    fn from(_: AllocError) -> Self {
        CodecError::Memory
    }
}

/// Where a reader stands.
#[derive(Clone, Copy)]
enum Place {
    Begin,
    InMess,
    InSender,
    InRecipient,
    Refused,
}

/// Reads requests byte by byte. Once a field was too long it stays so.
#[derive(Drop)]
pub struct RequestReader {
    place: Place,
    slot: u8,
    mess: ByteText,
    sender: ByteText,
    begun: ByteText,
}

impl Model for RequestReader {
    ghost use Rattle.spawn_protocol.specs.Request.{Reader, standing};

    ghost Value = { Reader };

    ghost view = { λ r. standing r.place r.slot r.mess r.sender r.begun };
}

impl RequestReader {
    ghost use Rattle.std.specs.Prelude.{◌≡◌, ◌≢◌, ◌↔◌, ◌++◌, ◌∷◌, [], ℕ, List, Err};
    ghost use Rattle.spawn_protocol.specs.Request.{HasRead, Takes, eaten, given};
    ghost use Rattle.spawn_protocol.specs.Request.Reader.{Reading, Refused};
    ghost use Rattle.spawn_protocol.specs.Request.Start.{NoByte, InMess, InSender, InRecipient};
    ghost use Rattle.spawn_protocol.specs.declared.request.Request.{Request};
    ghost use Rattle.spawn_protocol.specs.declared.request.CodecError.TheVariants.{TooLong, Memory};

    /// A reader of no bytes yet. Takes no memory.
    pub fn new(alloc: Global) -> Self
        ensures read { HasRead [] [] result }
        ensures begins { result ≡ Reading NoByte }
    {
        RequestReader {
            place: Place::Begin,
            slot: 0,
            mess: ByteText::new(alloc),
            sender: ByteText::new(alloc),
            begun: ByteText::new(alloc),
        }
    }

    /// Takes the next byte, and gives the request that it ended, if it ended one. `TooLong` exactly at the 4097th byte
    /// of a field, and for each byte after it. After `Memory` the reader is as before, and the byte isn't taken.
    pub fn feed(&mut self, alloc: Global, byte: u8) -> Result<Option<Request>, CodecError>
        ensures read { (bytes : List ℕ) (requests : List Request) → HasRead bytes requests self.old
            → HasRead (bytes ++ eaten result byte) (requests ++ given result) self.new }
        ensures takes { Takes self.old byte result self.new }
        ensures too_long { (result ≡ Err TooLong) ↔ (self.new ≡ Refused) }
        ensures stays { self.old ≡ Refused → result ≡ Err TooLong }
        ensures memory { result ≡ Err Memory → self.new ≡ self.old }
    {
        self.advance(alloc, byte)
    }

    /// Each place with the bytes that lead on from it.
    fn advance(&mut self, alloc: Global, byte: u8) -> Result<Option<Request>, CodecError>
        ensures { Takes self.old byte result self.new }
    {
        match (self.place, byte) {
            (Place::Begin, _) => {
                self.begin(alloc, byte);
                Ok(None)
            }
            (Place::InMess, 0) => {
                self.mess = replace(&mut self.begun, ByteText::new(alloc));
                self.place = Place::InSender;
                Ok(None)
            }
            (Place::InSender, 0) => {
                self.sender = replace(&mut self.begun, ByteText::new(alloc));
                self.place = Place::InRecipient;
                Ok(None)
            }
            (Place::InRecipient, 0) => Ok(Some(self.finish(alloc))),
            (Place::InMess | Place::InSender | Place::InRecipient, _) => self.go_on(byte),
            (Place::Refused, _) => Err(CodecError::TooLong),
        }
    }

    /// The first byte of a request: its delivery number.
    fn begin(&mut self, alloc: Global, slot: u8)
        ensures { self.new ≡ Reading (InMess slot []) }
    {
        self.slot = slot;
        self.begun = ByteText::new(alloc);
        self.place = Place::InMess;
    }

    /// A byte of a field. The conditions: it isn't NUL, the delivery number has come, and no field was too long.
    fn go_on(&mut self, byte: u8) -> Result<Option<Request>, CodecError>
        requires plain { byte ≢ 0 }
        requires begun { self.old ≢ Reading NoByte }
        requires open { self.old ≢ Refused }
        ensures { Takes self.old byte result self.new }
    {
        if self.begun.len() >= 4096 {
            self.place = Place::Refused;
            return Err(CodecError::TooLong);
        }
        self.begun.extend(&[byte])?;
        Ok(None)
    }

    /// The request whose last NUL has come; the next byte begins another.
    fn finish(&mut self, alloc: Global) -> Request
        ensures { (slot : ℕ) (mess sender begun : List ℕ) → self.old ≡ Reading (InRecipient slot mess sender begun)
            → (result ≡ record { slot = slot; mess = mess; sender = sender; recipient = begun }) × (self.new ≡ Reading NoByte) }
    {
        self.place = Place::Begin;
        Request {
            slot: self.slot,
            mess: replace(&mut self.mess, ByteText::new(alloc)),
            sender: replace(&mut self.sender, ByteText::new(alloc)),
            recipient: replace(&mut self.begun, ByteText::new(alloc)),
        }
    }
}

/// The text of a request. Fails only when out of memory.
pub fn request_text(alloc: Global, request: &Request) -> Result<Vec<u8>, Memory>
    ensures { IfOk result (λ text. text.items ≡ request_text request.now) }
{
    let mut text = Vec::new(alloc);
    text.push(request.slot)?;
    put_field(&mut text, request.mess.as_slice())?;
    put_field(&mut text, request.sender.as_slice())?;
    put_field(&mut text, request.recipient.as_slice())?;
    Ok(text)
}

/// Puts the bytes and NUL at the end.
fn put_field(text: &mut Vec<u8>, field: &[u8]) -> Result<(), Memory>
    ensures { OnOk result (text.new.items ≡ text.old.items ++ field_text field.now) }
{
    text.extend_from_slice(field)?;
    text.push(0)?;
    Ok(())
}
