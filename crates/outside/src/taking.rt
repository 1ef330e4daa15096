// Taking more from a source than one call gives.
ghost use Rattle.std.specs.Prelude.{◌≡◌, ◌≤◌, ◌++◌, [], List, ℕ, true, IfOk, length};
ghost use Rattle.mail_bytes.specs.Told.{Meets, OnTold, Rose};

use crate::source::{Source, Took};
use mail_bytes::Memory;
use std::alloc::Global;

/// How many bytes are asked for at once.
const PIECE: usize = 8192;

/// Why no more was taken of a source.
#[derive(Clone, Copy, PartialEq, Eq)]
pub enum Stopped {
    /// The source has no more.
    End,
    /// As many bytes came as were asked for.
    Full,
    /// The source failed.
    Failed,
}

/// Takes bytes of a source until so many have come, or it ends or fails; answers them, and why no more were taken. Fails
/// only if memory runs out; some bytes may then be lost.
pub fn take_up_to<S: Source>(
    alloc: Global,
    source: &mut S,
    most: usize,
) -> Result<(Vec<u8>, Stopped), Memory>
    ensures later { S.faults source.old ≤ S.faults source.new }
    ensures bounded { Meets (S.left source.old) (S.left source.new)
        (λ before after. (taken : List ℕ) × (length taken ≤ most) × (before ≡ taken ++ after)) }
    ensures taken { IfOk result (λ got. Meets (S.left source.old) (S.left source.new)
        (λ before after. before ≡ got.0.items ++ after)) }
    ensures fits { IfOk result (λ got. length got.0.items ≤ most) }
    ensures end { IfOk result (λ got. got.1 ≡ Stopped.End → OnTold (S.left source.new) (λ after. after ≡ [])) }
    ensures end_told { IfOk result (λ got. got.1 ≡ Stopped.End → OnTold (S.ended source.new) (λ ended. ended ≡ true)) }
    ensures full { IfOk result (λ got. got.1 ≡ Stopped.Full → length got.0.items ≡ most) }
    ensures failed { IfOk result (λ got. got.1 ≡ Stopped.Failed → Rose (S.faults source.old) (S.faults source.new)) }
{
    let mut bytes = Vec::new(alloc);
    let mut piece = [0; PIECE];
    while bytes.len() < most {
        let room = (most - bytes.len()).min(piece.len());
        match source.take(&mut piece[..room]) {
            Took::Got(count) => bytes.extend_from_slice(&piece[..count])?,
            Took::End => return Ok((bytes, Stopped::End)),
            Took::Failed => return Ok((bytes, Stopped::Failed)),
        }
    }
    Ok((bytes, Stopped::Full))
}
