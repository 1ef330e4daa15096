// One pipe.
ghost use Rattle.std.specs.Prelude.{◌≡◌, ◌≤◌, ℕ, Some, IfOk, IsOk, OnOk, OnErr, length, take, drop};
ghost use Rattle.call_fs.specs.declared.past.GotData.{GotData};
ghost use Rattle.world_pipes.specs.Pipework.{fresh, given, closed, is_ready, Yields};
ghost use Rattle.world_pipes.specs.Pipes.{lies, HasRoom, told, offered, end_of, left_by};

use mail_bytes::{ByteText, Memory};
use std::alloc::Global;
use std::mem::replace;

/// What can be taken.
#[derive(Drop)]
pub enum Taken {
    /// These bytes, at least one.
    Bytes(ByteText),
    /// The end: nothing lies there, and nothing more will.
    End,
}

/// What was given and not yet taken, and whether the writer has ended, was stopped, or has given all.
#[derive(Drop)]
pub struct Pipe {
    bytes: Vec<u8>,
    shut: bool,
}

impl Pipe {
    /// A pipe in which nothing lies yet. Takes no memory.
    pub fn new(alloc: Global) -> Pipe
        ensures { lies result ≡ fresh }
    {
        Pipe {
            bytes: Vec::new(alloc),
            shut: false,
        }
    }

    /// Whether something can be taken, if only the end.
    pub fn is_ready(&self) -> bool
        ensures { result ≡ is_ready (lies self.now) }
    {
        !self.bytes.is_empty() || self.shut
    }

    /// Makes room for so many bytes more. The error: out of memory.
    pub fn make_room(&mut self, more: usize) -> Result<(), Memory>
        ensures same { lies self.new ≡ lies self.old }
        ensures room { OnOk result (HasRoom self.new more) }
    {
        self.bytes.reserve(more)
    }

    /// Bytes are given. Takes no memory. The condition: there is room for them.
    pub fn give(&mut self, bytes: &[u8])
        requires { HasRoom self.old (length bytes.now) }
        ensures { lies self.new ≡ given bytes.now (lies self.old) }
    {
        self.bytes.extend_from_slice(bytes).unwrap();
    }

    /// Takes what lies there, at most so many bytes, or else the end; `None` if neither is there. If that is all, it takes no
    /// memory.
    pub fn take(&mut self, alloc: Global, most: usize) -> Result<Option<Taken>, Memory>
        ensures came { IfOk result (λ what. told what ≡ offered most (lies self.old)) }
        ensures rest { IfOk result (λ what. lies self.new ≡ left_by (told what) (lies self.old)) }
        ensures yields { 1 ≤ most → IfOk result (λ what. (came : GotData) → told what ≡ Some came → Yields (lies self.old) came) }
        ensures ok { length (lies self.old).bytes ≤ most → IsOk result }
        ensures err { OnErr result (self.new ≡ self.old) }
    {
        if self.bytes.is_empty() {
            return Ok(self.end());
        }
        let bytes = self.first(alloc, most)?;
        Ok(Some(Taken::Bytes(bytes)))
    }

    /// The end, if nothing more will come.
    fn end(&self) -> Option<Taken>
        ensures { told result ≡ end_of self.now.shut }
    {
        if self.shut { Some(Taken::End) } else { None }
    }

    /// Takes the first bytes out, at most so many. If that is all, it takes no memory.
    fn first(&mut self, alloc: Global, most: usize) -> Result<ByteText, Memory>
        ensures first { IfOk result (λ bytes. bytes ≡ take most self.old.bytes.items) }
        ensures rest { OnOk result (self.new.bytes.items ≡ drop most self.old.bytes.items) }
        ensures shut { self.new.shut ≡ self.old.shut }
        ensures ok { length self.old.bytes.items ≤ most → IsOk result }
        ensures err { OnErr result (self.new ≡ self.old) }
    {
        let rest = if self.bytes.len() <= most {
            Vec::new(alloc)
        } else {
            Vec::from_slice(alloc, &self.bytes[most..])?
        };
        let mut bytes = replace(&mut self.bytes, rest);
        bytes.truncate(most);
        Ok(ByteText::from_vec(bytes))
    }

    /// Nothing more will come. Takes no memory.
    pub fn close(&mut self)
        ensures { lies self.new ≡ closed (lies self.old) }
    {
        self.shut = true;
    }

    /// Nothing lies there any more, and something may come. Takes no memory.
    pub fn clear(&mut self)
        ensures { lies self.new ≡ fresh }
    {
        self.bytes.clear();
        self.shut = false;
    }
}
