// What a spawner holds of its requests.

use crate::cut::{Cut, cut_request};
use crate::request::Request;
use mail_bytes::{ByteText, Memory};
use std::alloc::Global;

/// Whether a spawner takes more requests.
#[derive(Clone, Copy, PartialEq, Eq)]
pub enum Intake {
    /// It does.
    Open,
    /// They have ended.
    Ended,
    /// A field had a 4097th byte.
    TooLong,
}

/// What a spawner holds of its requests. It reads a request anew from its first byte until it is whole, so that nothing is
/// half done when out of memory.
#[derive(Drop)]
pub struct Inbox {
    /// What it took and hasn't dealt with.
    pub ahead: ByteText,
    /// Whether it takes more.
    pub intake: Intake,
}

/// A request that was pulled out, if a whole one was there, and what is held then.
#[derive(Drop)]
pub struct Pulled {
    /// The request.
    pub request: Option<Request>,
    /// What is held then.
    pub inbox: Inbox,
}

impl Inbox {
    ghost use Rattle.std.specs.Prelude.{◌≡◌, IfOk};
    ghost use Rattle.spawn_protocol.specs.Inbox.{empty, ended, pull, with_more};

    /// Nothing was taken yet. Takes no memory.
    pub fn new(alloc: Global) -> Inbox
        ensures { result ≡ empty }
    {
        Inbox {
            ahead: ByteText::new(alloc),
            intake: Intake::Open,
        }
    }

    /// The requests have ended. Takes no memory.
    pub fn ended(alloc: Global) -> Inbox
        ensures { result ≡ ended }
    {
        Inbox {
            ahead: ByteText::new(alloc),
            intake: Intake::Ended,
        }
    }

    /// What is held once these bytes were taken too. Fails only if out of memory.
    pub fn with_more(&self, alloc: Global, bytes: &[u8]) -> Result<Inbox, Memory>
        ensures { IfOk result (λ inbox. inbox ≡ with_more bytes.now self.now) }
    {
        let mut ahead = ByteText::from_slice(alloc, self.ahead.as_slice())?;
        ahead.extend(bytes)?;
        Ok(Inbox {
            ahead,
            intake: self.intake,
        })
    }

    /// The next request, if a whole one is there, and what is held once it is pulled out. Fails only if out of memory.
    pub fn pull(&self, alloc: Global) -> Result<Pulled, Memory>
        ensures { IfOk result (λ it. it ≡ pull self.now) }
    {
        let ahead = self.ahead.as_slice();
        match cut_request(alloc, ahead)? {
            Cut::More => self.pulled(alloc, None, ahead),
            Cut::Whole(request, used) => self.pulled(alloc, Some(request), &ahead[used..]),
            Cut::TooLong => Ok(Pulled {
                request: None,
                inbox: Inbox {
                    ahead: ByteText::new(alloc),
                    intake: Intake::TooLong,
                },
            }),
        }
    }

    /// This request is pulled out, and these bytes are still held.
    fn pulled(
        &self,
        alloc: Global,
        request: Option<Request>,
        ahead: &[u8],
    ) -> Result<Pulled, Memory>
        ensures { IfOk result (λ it. it ≡ record { request = request; inbox = record self.now { ahead = ahead.now } }) }
    {
        let ahead = ByteText::from_slice(alloc, ahead)?;
        Ok(Pulled {
            request,
            inbox: Inbox {
                ahead,
                intake: self.intake,
            },
        })
    }
}
