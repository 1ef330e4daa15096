// Bytes with room for so many more.
ghost use Rattle.std.specs.Prelude.{◌≡◌, ◌<◌, ◌↔◌, [], IfOk, length};
ghost use Rattle.outside.specs.Forms.{filled, without_room};

use crate::sink::Gave;
use mail_bytes::Memory;
use std::alloc::Global;
use std::marker::Model;

/// Bytes that were taken, with room for so many more. That room is taken from memory when the value is made, so that
/// no later call needs any.
#[derive(Drop)]
pub struct BoundedBytes {
    bytes: Vec<u8>,
    room: usize,
}

impl Model for BoundedBytes {
    ghost use Rattle.std.specs.Prelude.{◌≤◌, ◌+◌, vec_len, vec_capacity};
    ghost use Rattle.outside.specs.Forms.{Bounded};

    ghost Value = { Bounded };

    ghost view = { λ b. record { bytes = b.bytes.items; room = b.room } };

    ghost invariant = { λ b. vec_len b.bytes + b.room ≤ vec_capacity b.bytes };
}

impl BoundedBytes {
    /// No bytes yet, and room for so many. The error: out of memory.
    pub fn new(alloc: Global, room: usize) -> Result<Self, Memory>
        ensures { IfOk result (λ b. b ≡ record { bytes = []; room = room }) }
    {
        Ok(BoundedBytes {
            bytes: Vec::with_capacity(alloc, room)?,
            room,
        })
    }

    /// The bytes so far.
    pub fn as_slice(&self) -> &[u8]
        ensures { result.now ≡ self.now.bytes }
    {
        self.bytes.as_slice()
    }

    /// Takes as many of these bytes as there is room for; fails if that isn't all of them.
    pub fn take(&mut self, bytes: &[u8]) -> Gave
        ensures failed { (result ≡ Gave.Failed) ↔ (self.old.room < length bytes.now) }
        ensures filled { self.new ≡ filled bytes.now self.old }
    {
        let count = bytes.len().min(self.room);
        self.bytes.extend_from_slice(&bytes[..count]).unwrap();
        self.room -= count;
        if count < bytes.len() {
            Gave::Failed
        } else {
            Gave::Done
        }
    }

    /// There is no more room.
    pub fn close(&mut self)
        ensures { self.new ≡ without_room self.old }
    {
        self.room = 0;
    }
}
