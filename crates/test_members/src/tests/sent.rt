// What posts bring.

use mail_bytes::{ByteText, Memory};
use outside::Waiting;
use std::alloc::Global;

/// What a post brings, of this channel.
#[derive(Clone, Copy)]
pub enum Sent {
    /// These bytes.
    Bytes(u32, &'static [u8]),
    /// Its end.
    End(u32),
    /// Its failure.
    Failed(u32),
}

/// These posts, in order.
pub fn posts_of(alloc: Global, sent: &[Sent]) -> Result<Vec<Waiting>, Memory> {
    let mut posts = Vec::new(alloc);
    for one in sent {
        posts.push(waiting_of(alloc, *one)?)?;
    }
    Ok(posts)
}

/// This post.
fn waiting_of(alloc: Global, sent: Sent) -> Result<Waiting, Memory> {
    match sent {
        Sent::Bytes(chan, bytes) => {
            let bytes = ByteText::from_slice(alloc, bytes)?;
            Ok(Waiting::Bytes { chan, bytes })
        }
        Sent::End(chan) => Ok(Waiting::End { chan }),
        Sent::Failed(chan) => Ok(Waiting::Failed { chan }),
    }
}

/// Whether these are the same bytes.
pub fn same(one: &[u8], other: &[u8]) -> bool {
    one == other
}
