// What the reader of a channel does.
ghost use Rattle.std.specs.Prelude.{◌≡◌, ◌+◌, List, [], MatchBool, Option};
ghost use Rattle.crossbeam_queue.specs.Passes.{view, IsPassOf};
ghost use Rattle.mail_bytes.specs.Told.{Records};
ghost use Rattle.piece_queue.specs.Pieces.{FitsRoom, HasLast};
ghost use Rattle.piece_queue.specs.Readings.{HasPushed, MayRead, Reading, read_as};
ghost use Rattle.piece_queue.specs.Rule.{reader};

use crate::piece::{Brought, Piece, ROOM};
use crate::queue::{PieceQueue, QueuePass};
use std::sync::Wait;

/// Where the bytes of a channel come from.
pub trait Inflow {
    /// What was read so far, in order, if it keeps that.
    ghost readings: { Self → Option (List Reading) };

    /// Reads some bytes into this room: what came, its bytes at the start.
    fn read(&mut self, into: &mut [u8; ROOM]) -> Brought
        ensures fits { FitsRoom result }
        ensures told { Records (readings self.old) (readings self.new) (read_as result into.new) };
}

/// Reads a channel until it ends or fails, and pushes all that was read, in pieces numbered from 0.
pub fn read_channel<R: Wait, I: Inflow>(
    rt: &R,
    queue: &PieceQueue,
    mut pass: QueuePass,
    chan: u32,
    input: &mut I,
) -> QueuePass
    requires { IsPassOf queue.now.line pass × (view pass ≡ reader chan []) }
    ensures pass { IsPassOf queue.now.line result }
    ensures all { HasPushed chan (view result) (I.readings input.old) (I.readings input.new) }
    ensures over { HasLast (view result).sent }
{
    for number in 0..u64::MAX {
        let is_over = push_next(rt, queue, &mut pass, chan, number, input);
        if is_over {
            return pass;
        }
    }
    // No channel has so many pieces.
    for _ in rt.forever() {}
    unreachable!()
}

/// Reads once, and pushes what came as the piece of this number. Answers whether it is the last one. The condition: the
/// pass has pushed so many pieces of this channel, and none of them was the last.
fn push_next<R: Wait, I: Inflow>(
    rt: &R,
    queue: &PieceQueue,
    pass: &mut QueuePass,
    chan: u32,
    number: u64,
    input: &mut I,
) -> bool
    requires pass { IsPassOf queue.now.line pass.old }
    requires next { MayRead chan number (view pass.old) }
    ensures pass { IsPassOf queue.now.line pass.new }
    ensures all { (before : Option (List Reading)) → HasPushed chan (view pass.old) before (I.readings input.old)
        → HasPushed chan (view pass.new) before (I.readings input.new) }
    ensures over { MatchBool result (HasLast (view pass.new).sent) (MayRead chan (number + 1) (view pass.new)) }
{
    let mut bytes = [0; ROOM];
    let brought = input.read(&mut bytes);
    let piece = Piece {
        chan,
        number,
        brought,
        bytes,
    };
    queue.push(rt, pass, piece);
    brought.ends()
}
