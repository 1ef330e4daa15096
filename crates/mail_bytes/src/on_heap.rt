// A value that is held apart.
ghost use Rattle.std.specs.Prelude.{◌≡◌, IfOk};
ghost use Rattle.std.specs.Borrow.{sem};
ghost use Rattle.mail_bytes.specs.Lending.{LendsWhole};

use crate::Memory;
use std::alloc::Global;
use std::marker::Model;

/// A value on the heap, so that whatever holds it is small; contracts see it as the value itself.
#[derive(Drop)]
pub struct OnHeap<T> {
    held: Box<T>,
}

impl<T> Model for OnHeap<T> {
    ghost use Rattle.std.specs.Prelude.{◌≡◌};

    ghost Value = { T };

    ghost view = { λ h. h.held.value };
}

impl<T: Drop> OnHeap<T> {
    /// This value, put on the heap. The error: out of memory.
    pub fn new(alloc: Global, value: T) -> Result<OnHeap<T>, Memory>
        ensures { IfOk result (λ held. held ≡ value) }
    {
        Ok(OnHeap {
            held: Box::new(alloc, value)?,
        })
    }
}

impl<T> OnHeap<T> {
    /// The value.
    pub fn get(&self) -> &T
        ensures { result.now ≡ self.now }
    {
        &*self.held
    }

    /// The value, to be changed.
    pub fn get_mut(&mut self) -> &mut T
        ensures* writes_back { sem 𝓛 (LendsWhole T.row self.entry result) }
        ensures value { result.now ≡ self.old }
    {
        self.held.as_mut()
    }
}
