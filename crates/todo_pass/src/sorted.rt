// What a todo text says, sorted by channel.
ghost use Rattle.std.specs.Prelude.{◌≡◌, ◌++◌, ◌∷◌, ◌+◌, ◌<◌, ◌^◌, [], OnOk};
ghost use Rattle.todo_pass.specs.Sorting.{none_sorted, with_sender, with_recipient, with_route, text_of};

use crate::Target;
use address_rules::{Controls, Route, rewrite};
use mail_bytes::{ByteText, Memory};
use std::alloc::Global;

/// What a todo text says, and the texts of the files that are made of it.
#[derive(Drop)]
pub struct Sorted {
    /// The user who injected the message.
    pub uid: u32,
    /// The injector's process number.
    pub pid: u32,
    /// The sender.
    pub sender: ByteText,
    /// The text of the info file: `F`, the sender, NUL.
    pub info: ByteText,
    /// The text of the local channel: for each local recipient, in the order of the envelope, `T`, its routed address, NUL.
    pub local: ByteText,
    /// The same of the remote channel.
    pub remote: ByteText,
    /// How many recipients are local.
    pub locals: u64,
    /// How many are remote.
    pub remotes: u64,
}

impl Sorted {
    /// Nothing but the numbers yet. Takes no memory.
    pub fn new(alloc: Global, uid: u32, pid: u32) -> Self
        ensures { result ≡ none_sorted uid pid }
    {
        Sorted {
            uid,
            pid,
            sender: ByteText::new(alloc),
            info: ByteText::new(alloc),
            local: ByteText::new(alloc),
            remote: ByteText::new(alloc),
            locals: 0,
            remotes: 0,
        }
    }

    /// The text of a file.
    pub fn text(&self, target: Target) -> &[u8]
        ensures { result.now ≡ text_of self.now target }
    {
        match target {
            Target::Info => self.info.as_slice(),
            Target::Local => self.local.as_slice(),
            Target::Remote => self.remote.as_slice(),
        }
    }

    /// Sets the sender. After an `Err` it is to be let go.
    pub(crate) fn begin(&mut self, alloc: Global, sender: &[u8]) -> Result<(), Memory>
        ensures { OnOk result (self.new ≡ with_sender self.old sender.now) }
    {
        let mut info = ByteText::new(alloc);
        put_record(&mut info, b'F', sender)?;
        self.sender = ByteText::from_slice(alloc, sender)?;
        self.info = info;
        Ok(())
    }

    /// Puts a recipient into its channel. After an `Err` it is to be let go. The conditions: one more can be counted.
    pub(crate) fn put(
        &mut self,
        alloc: Global,
        controls: &Controls,
        recipient: &[u8],
    ) -> Result<(), Memory>
        requires locals { self.old.locals + 1 < 2 ^ 64 }
        requires remotes { self.old.remotes + 1 < 2 ^ 64 }
        ensures { OnOk result (self.new ≡ with_recipient controls.now self.old recipient.now) }
    {
        self.put_route(rewrite(alloc, controls, recipient)?)
    }

    /// Puts a routed address into its channel.
    fn put_route(&mut self, route: Route) -> Result<(), Memory>
        requires locals { self.old.locals + 1 < 2 ^ 64 }
        requires remotes { self.old.remotes + 1 < 2 ^ 64 }
        ensures { OnOk result (self.new ≡ with_route self.old route) }
    {
        match route {
            Route::Local(address) => {
                put_record(&mut self.local, b'T', address.as_slice())?;
                self.locals += 1;
            }
            Route::Remote(address) => {
                put_record(&mut self.remote, b'T', address.as_slice())?;
                self.remotes += 1;
            }
        }
        Ok(())
    }
}

/// Puts a letter, an address and NUL at the end.
fn put_record(text: &mut ByteText, letter: u8, address: &[u8]) -> Result<(), Memory>
    ensures { OnOk result (text.new ≡ text.old ++ letter ∷ (address.now ++ 0 ∷ [])) }
{
    text.extend(&[letter])?;
    text.extend(address)?;
    text.extend(&[0])
}
