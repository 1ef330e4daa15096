// What a pass of the queue shows.

use crate::piece::Piece;
use std::collections::LinkedList;

/// What a pass of the queue shows. No value of it is made.
pub struct Hand {
    /// It may take.
    pub takes: bool,
    /// It may open channels.
    pub opens: bool,
    /// It reads a channel.
    pub reads: bool,
    /// The next channel to be opened.
    pub next: u32,
    /// The channel that it reads.
    pub chan: u32,
    /// What it has pushed, in order.
    pub sent: LinkedList<Piece>,
    /// What it has taken, of all channels, in order.
    pub got: LinkedList<Piece>,
}
