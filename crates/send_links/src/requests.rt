// The requests that lie ready.
ghost use Rattle.std.specs.Prelude.{◌≡◌, ◌++◌, [], drop, slice_get, IfOk, OnOk};
ghost use Rattle.std.specs.Option.{option_to_list};
ghost use Rattle.mail_bytes.specs.Decimal.{digits};
ghost use Rattle.queue_paths.specs.Names.{split_text};
ghost use Rattle.send_links.specs.Requests.{addressed, first_text, request_for, request_of, requests_of, to_slot};

use address_rules::verp;
use envelope_records::Record;
use mail_bytes::{ByteText, Memory, dec};
use queue_paths::split;
use spawn_protocol::{Request, request_text};
use std::alloc::Global;
use std::collections::VecDeque;
use std::marker::Model;

/// The text of a request; contracts see the list of its bytes.
#[derive(Drop)]
pub struct RequestText {
    bytes: Vec<u8>,
}

impl Model for RequestText {
    ghost use Rattle.std.specs.Prelude.{List, ℕ};

    ghost Value = { List ℕ };

    ghost view = { λ t. t.bytes.items };
}

impl RequestText {
    /// Its bytes.
    pub fn as_slice(&self) -> &[u8]
        ensures { result.now ≡ self.now }
    {
        self.bytes.as_slice()
    }

    /// It is for this slot: that becomes its first byte. Takes no memory.
    fn name_slot(&mut self, slot: u8)
        ensures { self.new ≡ to_slot slot self.old }
    {
        if let Some(first) = self.bytes.first_mut() {
            *first = slot;
        }
    }
}

/// The texts of the requests that the open pass of a channel has still to give, in order; contracts see their list.
#[derive(Drop)]
pub struct Requests {
    texts: VecDeque<RequestText>,
}

impl Model for Requests {
    ghost use Rattle.std.specs.Prelude.{List, ℕ};

    ghost Value = { List (List ℕ) };

    ghost view = { λ r. r.texts.items };
}

impl Requests {
    /// None. Takes no memory.
    pub fn new(alloc: Global) -> Self
        ensures { result ≡ [] }
    {
        Requests {
            texts: VecDeque::new(alloc),
        }
    }

    /// Those of a pass over these records of message n, which has this sender: one for each record that reads `T`. The
    /// slot of each is 0 until it comes first. The error: out of memory.
    pub fn of(alloc: Global, n: u64, sender: &[u8], records: &[Record]) -> Result<Self, Memory>
        ensures { IfOk result (λ requests. requests ≡ requests_of n sender.now records.now) }
    {
        let mut texts = VecDeque::new(alloc);
        for record in records {
            put_request(alloc, &mut texts, n, sender, record)?;
        }
        Ok(Requests { texts })
    }

    /// The first one; empty if there is none.
    pub fn first(&self) -> &[u8]
        ensures { result.now ≡ first_text self.now }
    {
        match self.texts.front() {
            None => &[],
            Some(text) => text.as_slice(),
        }
    }

    /// The first one was given. Takes no memory.
    pub fn drop_first(&mut self)
        ensures { self.new ≡ drop 1 self.old }
    {
        self.texts.pop_front();
    }

    /// The first one is for this slot, if there is a slot. Takes no memory.
    pub fn name_slot(&mut self, slot: Option<u8>)
        ensures { self.new ≡ addressed slot self.old }
    {
        if let Some(slot) = slot {
            if let Some(text) = self.texts.front_mut() {
                text.name_slot(slot);
            }
        }
    }
}

/// Puts the request for a record at the end, if the record reads `T`.
fn put_request(
    alloc: Global,
    texts: &mut VecDeque<RequestText>,
    n: u64,
    sender: &[u8],
    it: &Record,
) -> Result<(), Memory>
    ensures { OnOk result (texts.new.items ≡ texts.old.items ++ option_to_list (request_for n sender.now it.now)) }
{
    if !it.done {
        texts.push_back(request_of(alloc, n, sender, it.address.as_slice())?)?;
    }
    Ok(())
}

/// The request for a recipient, for slot 0.
fn request_of(alloc: Global, n: u64, sender: &[u8], recipient: &[u8]) -> Result<RequestText, Memory>
    ensures { IfOk result (λ text. text ≡ request_of n sender.now recipient.now) }
{
    let request = Request {
        slot: 0,
        mess: mess_text(alloc, n)?,
        sender: ByteText::from_vec(verp(alloc, sender, recipient)?),
        recipient: ByteText::from_slice(alloc, recipient)?,
    };
    Ok(RequestText {
        bytes: request_text(alloc, &request)?,
    })
}

/// The message's file, below `mess/`: `S/N`.
fn mess_text(alloc: Global, n: u64) -> Result<ByteText, Memory>
    ensures { IfOk result (λ text. text ≡ split_text n) }
{
    let mut text = ByteText::new(alloc);
    put_digits(&mut text, split(n))?;
    text.extend(b"/")?;
    put_digits(&mut text, n)?;
    Ok(text)
}

/// Puts the digits of a number at the end. The error: out of memory.
fn put_digits(text: &mut ByteText, n: u64) -> Result<(), Memory>
    ensures { OnOk result (text.new ≡ text.old ++ digits n) }
{
    let mut room = [0; 20];
    let len = dec(n, &mut room);
    text.extend(&room[..len])
}
