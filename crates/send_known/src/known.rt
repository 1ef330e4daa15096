// The list of known messages.
ghost use Rattle.std.specs.Prelude.{◌≡◌, [], OnOk, OnErr};
ghost use Rattle.send_known.specs.Known.{is_known, learned, forgotten, birth_of, sender_of, put_off, local_gone, remote_gone, first_idle};

use crate::by_number;
use crate::by_number::ByNumber;
use mail_bytes::{ByteText, Memory};
use std::alloc::Global;
use std::collections::BTreeMap;
use std::marker::Model;

/// A message that the sender knows.
#[derive(Drop)]
pub struct Known {
    /// Its number.
    pub n: u64,
    /// When it was born, in seconds since 1 January 1970 UTC: the moment of its info file.
    pub birth: u64,
    /// The moment from which on it may be finished.
    pub finish_at: u64,
    /// Whether its file of the local channel is there.
    pub local: bool,
    /// Whether its file of the remote channel is there.
    pub remote: bool,
    /// Its sender.
    pub sender: ByteText,
}

/// The known messages; contracts see their list, in order of number.
///
/// They are kept in a map by number. Beside it stand the numbers of which no channel file is left, some of which may be
/// known no more: where there is no memory for one of them, `first_idle` walks over the whole map, until the next message
/// is learned.
#[derive(Drop)]
pub struct KnownList {
    /// By number.
    known: ByNumber,
    /// Among these is each number of which no channel file is left, if `listed` says so.
    done: Vec<u64>,
    /// Whether that is so.
    listed: bool,
}

impl Model for KnownList {
    ghost use Rattle.std.specs.Prelude.{List};
    ghost use Rattle.std.specs.Map.{values_of};
    ghost use Rattle.send_known.specs.declared.known.Known.{Known};
    ghost use Rattle.send_known.specs.ByNumber.{IsKept};

    ghost Value = { List Known };

    ghost view = { λ i. values_of i.known.entries };

    ghost invariant = { λ i. IsKept i.known i.done.items i.listed };
}

impl KnownList {
    /// None. Takes no memory.
    pub fn new(alloc: Global) -> Self
        ensures { result ≡ [] }
    {
        KnownList {
            known: BTreeMap::new(alloc),
            done: Vec::new(alloc),
            listed: true,
        }
    }

    /// Whether this number is known.
    pub fn is_known(&self, n: u64) -> bool
        ensures { result ≡ is_known n self.now }
    {
        self.known.contains_key(&n)
    }

    /// When a message was born; 0 if it isn't known.
    pub fn birth_of(&self, n: u64) -> u64
        ensures { result ≡ birth_of n self.now }
    {
        match self.known.get(&n) {
            None => 0,
            Some(known) => known.birth,
        }
    }

    /// The sender of a message; empty if it isn't known.
    pub fn sender_of(&self, n: u64) -> &[u8]
        ensures { result.now ≡ sender_of n self.now }
    {
        match self.known.get(&n) {
            None => &[],
            Some(known) => known.sender.as_slice(),
        }
    }

    /// This message is known from now on. After an `Err` all is as before.
    pub fn learn(&mut self, known: Known) -> Result<(), Memory>
        ensures ok { OnOk result (self.new ≡ learned known self.old) }
        ensures err { OnErr result (self.new ≡ self.old) }
    {
        by_number::relist(&self.known, &mut self.done, &mut self.listed)?;
        by_number::learn(&mut self.known, &mut self.done, known)
    }

    /// This number isn't known any more. Takes no memory.
    pub fn forget(&mut self, n: u64)
        ensures { self.new ≡ forgotten n self.old }
    {
        self.known.remove(&n);
        by_number::unlist(&mut self.done, n);
    }

    /// This message is finished no earlier than then. Takes no memory.
    pub fn put_off(&mut self, n: u64, moment: u64)
        ensures { self.new ≡ put_off n moment self.old }
    {
        by_number::put_off(&mut self.known, n, moment);
    }

    /// The message's file of the local channel is gone. Takes no memory that it couldn't do without.
    pub fn local_gone(&mut self, n: u64)
        ensures { self.new ≡ local_gone n self.old }
    {
        by_number::local_gone(&mut self.known, n);
        self.listed = by_number::is_listed(&self.known, &mut self.done, self.listed, n);
    }

    /// The message's file of the remote channel is gone. Takes no memory that it couldn't do without.
    pub fn remote_gone(&mut self, n: u64)
        ensures { self.new ≡ remote_gone n self.old }
    {
        by_number::remote_gone(&mut self.known, n);
        self.listed = by_number::is_listed(&self.known, &mut self.done, self.listed, n);
    }

    /// The least number whose channel files are both gone and whose finish moment has come. Takes no memory.
    pub fn first_idle(&self, now: u64) -> Option<u64>
        ensures { result ≡ first_idle now self.now }
    {
        if self.listed {
            by_number::least_idle(&self.known, &self.done, now)
        } else {
            by_number::first_idle(&self.known, now)
        }
    }
}
