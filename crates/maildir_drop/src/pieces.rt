// A message in the pieces in which it is written.
ghost use Rattle.std.specs.Prelude.{◌≡◌, ◌≤◌, ◌++◌, ◌↔◌, [], IfOk, OnOk, IsTrue, All, take, drop, length};
ghost use Rattle.call_fs.specs.declared.file_system.TheConstants.{PIECE};
ghost use Rattle.mail_bytes.specs.Blocks.{joined};

use call_fs::PIECE;
use mail_bytes::{ByteText, Memory};
use std::alloc::Global;
use std::marker::Model;
use std::mem::replace;

/// What of a message is still to be written, in pieces of 8192 bytes, the last one shorter; contracts see its bytes. No
/// growth of it is larger than a piece. Once all were written they are let go.
#[derive(Drop)]
pub struct Pieces {
    pieces: Vec<ByteText>,
    next: usize,
}

impl Model for Pieces {
    ghost use Rattle.std.specs.Prelude.{List, ℕ};

    ghost Value = { List ℕ };

    ghost use Rattle.maildir_drop.specs.PiecesInside.{left_of, ArePieces};

    ghost view = { left_of };

    ghost invariant = { ArePieces };
}

impl Pieces {
    /// The bytes of these blocks, one after the other. Each block is let go once it was cut, so that no more than one is
    /// there twice. The condition: a block has at most 8192 bytes. The error: out of memory.
    pub fn of(alloc: Global, blocks: Vec<Vec<u8>>) -> Result<Pieces, Memory>
        requires { All (λ block. length block.items ≤ PIECE) blocks.items }
        ensures { IfOk result (λ pieces. pieces ≡ joined blocks.items) }
    {
        let mut cutter = Cutter::new(alloc);
        for block in blocks {
            cutter.put(alloc, block.as_slice())?;
        }
        cutter.finish()
    }

    /// The next piece; empty if nothing is left.
    pub fn first(&self) -> &[u8]
        ensures { result.now ≡ take PIECE self.now }
    {
        match self.pieces.get(self.next) {
            Some(piece) => piece.as_slice(),
            None => b"",
        }
    }

    /// Whether nothing is left.
    pub fn is_empty(&self) -> bool
        ensures { IsTrue result ↔ (self.now ≡ []) }
    {
        self.next == self.pieces.len()
    }

    /// Goes on past the next piece. After the last one all are let go.
    pub fn pass(&mut self)
        ensures { self.new ≡ drop PIECE self.old }
    {
        self.step();
        self.let_go();
    }

    /// Goes on past the next piece, which stays in memory.
    fn step(&mut self)
        ensures { self.new ≡ drop PIECE self.old }
    {
        if self.next < self.pieces.len() {
            self.next += 1;
        }
    }

    /// Lets the pieces go, if all were passed.
    fn let_go(&mut self)
        ensures { self.new ≡ self.old }
    {
        if self.next == self.pieces.len() {
            self.pieces.clear();
            self.next = 0;
        }
    }
}

/// Bytes that are cut into pieces as they come; contracts see them all.
#[derive(Drop)]
struct Cutter {
    full: Vec<ByteText>,
    last: ByteText,
}

impl Model for Cutter {
    ghost use Rattle.std.specs.Prelude.{List, ℕ};

    ghost Value = { List ℕ };

    ghost use Rattle.maildir_drop.specs.PiecesInside.{bytes_of, AreCut};

    ghost view = { bytes_of };

    ghost invariant = { AreCut };
}

impl Cutter {
    /// No bytes yet. Takes no memory.
    fn new(alloc: Global) -> Cutter
        ensures { result ≡ [] }
    {
        Cutter {
            full: Vec::new(alloc),
            last: ByteText::new(alloc),
        }
    }

    /// Puts bytes at the end. After an `Err` it is to be let go. The condition: there are at most 8192.
    fn put(&mut self, alloc: Global, block: &[u8]) -> Result<(), Memory>
        requires { length block.now ≤ PIECE }
        ensures { OnOk result (self.new ≡ self.old ++ block.now) }
    {
        let room = PIECE - self.last.len();
        if block.len() < room {
            return self.last.extend(block);
        }
        let mut rest = Vec::with_capacity(alloc, PIECE)?;
        rest.extend_from_slice(&block[room..])?;
        self.last.extend(&block[..room])?;
        let full = replace(&mut self.last, ByteText::from_vec(rest));
        self.full.push(full)?;
        Ok(())
    }

    /// The pieces of all bytes.
    fn finish(self) -> Result<Pieces, Memory>
        ensures { IfOk result (λ pieces. pieces ≡ self) }
    {
        let mut pieces = self.full;
        if !self.last.is_empty() {
            pieces.push(self.last)?;
        }
        Ok(Pieces { pieces, next: 0 })
    }
}
