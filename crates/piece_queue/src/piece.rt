// A piece of a channel.

/// How many bytes a piece has at most.
pub const ROOM: usize = 4096;

/// What a piece brought.
#[derive(Clone, Copy)]
pub enum Brought {
    /// So many bytes.
    Bytes(usize),
    /// The end of the channel.
    End,
    /// More came than may come: the channel is cut off there, and the rest isn't told.
    Cut,
    /// The channel couldn't be read.
    Failed,
}

/// A piece of a channel, its bytes held in place.
#[derive(Clone, Copy)]
pub struct Piece {
    /// The channel.
    pub chan: u32,
    /// Its number on this channel, from 0.
    pub number: u64,
    /// What it brought.
    pub brought: Brought,
    /// Its bytes stand at the start.
    pub bytes: [u8; ROOM],
}
