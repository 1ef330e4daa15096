// A sink over a writer, as standard output and standard error.
ghost use Rattle.std.specs.Prelude.{◌≡◌, IsTrue};
ghost use Rattle.std.specs.Io.KnownBytes.{Appends};
ghost use Rattle.outside.specs.Streams.{CountsFailures};
ghost use Rattle.host_streams.specs.Written.{AppendsPrefix};

use outside::{Gave, Sink};
use std::io::{ErrorKind, Write};

/// A sink over a writer; it doesn't tell what was taken. A writer that tells what it holds has taken what the sink was
/// given.
#[derive(Drop)]
pub struct WriterSink<W: Write + Drop> {
    output: W,
    faults: u64,
}

impl<W: Write + Drop> WriterSink<W> {
    /// A sink over this writer.
    pub fn new(output: W) -> Self
        ensures { result.faults ≡ 0 }
    {
        WriterSink { output, faults: 0 }
    }

    /// Writes all of these bytes, and answers whether it could. A write that takes none of what is left fails; one that was
    /// interrupted is tried again.
    fn writes_all(&mut self, bytes: &[u8]) -> bool
        ensures faults { self.new.faults ≡ self.old.faults }
        ensures all { IsTrue result → Appends (W.contents self.old.output) (W.contents self.new.output) bytes.now }
        ensures some { AppendsPrefix (W.contents self.old.output) (W.contents self.new.output) bytes.now }
    {
        let mut left = bytes;
        for _ in 0..u64::MAX {
            if left.is_empty() {
                return self.output.flush().is_ok();
            }
            match self.output.write(left) {
                Ok(count) if count > 0 => left = &left[count..],
                Err(why) if why.kind() == ErrorKind::Interrupted => {}
                _ => return false,
            }
        }
        false
    }
}

impl<W: Write + Drop> Sink for WriterSink<W> {
    ghost use Rattle.std.specs.Prelude.{None};

    ghost taken = { λ _. None };

    ghost faults = { λ s. s.faults };

    fn faults(&self) -> u64 {
        self.faults
    }

    fn give(&mut self, bytes: &[u8]) -> Gave
        ensures cause { CountsFailures self.old.faults self.new.faults (result ≡ Gave.Failed) }
        ensures all { (result ≡ Gave.Done) → Appends (W.contents self.old.output) (W.contents self.new.output) bytes.now }
        ensures some { AppendsPrefix (W.contents self.old.output) (W.contents self.new.output) bytes.now }
    {
        if self.writes_all(bytes) {
            return Gave::Done;
        }
        self.faults = self.faults.saturating_add(1);
        Gave::Failed
    }
}
