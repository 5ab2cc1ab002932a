//! A writer that remembers what it accepted.

ghost use Rattle.std.specs.Prelude.{◌≡◌, [], Some, take};
ghost use Rattle.std.specs.Io.{WritesAtMost};
ghost use Rattle.std.specs.Io.KnownBytes.{Keeps, WriteAppends};

use crate::passed::Passed;
use std::io;
use std::io::Write;

/// A writer that remembers, for contracts alone, the bytes that the writer below accepted. Its own bytes are known to a contract, so a
/// contract over any writer says of it what it says of a writer in memory.
#[derive(Drop)]
pub struct Recording<W> {
    writer: W,
    taken: Passed,
}

impl<W: Write> Recording<W> {
    ghost use Rattle.jb_streams.specs.Recording.{taken_of, writer_of};

    /// A writer to which nothing was written yet.
    pub fn new(writer: W) -> Recording<W>
        ensures writer { writer_of result ≡ writer }
        ensures taken { taken_of result ≡ [] }
    {
        Recording {
            writer,
            taken: Passed::none(),
        }
    }
}

impl<W: Write> Write for Recording<W> {
    ghost use Rattle.std.specs.Prelude.{Some};
    ghost use Rattle.std.specs.Io.{WritesAtMost};
    ghost use Rattle.std.specs.Io.KnownBytes.{Keeps, WriteAppends};
    ghost use Rattle.jb_streams.specs.Recording.{taken_of, writer_of};

    ghost contents = { λ it. Some it.taken };

    fn write(&mut self, buf: &[u8]) -> io::Result<usize>
        ensures bound { WritesAtMost result buf.now }
        ensures bytes { WriteAppends (Some (taken_of self.old)) (Some (taken_of self.new)) result buf.now }
        // The writer below accepted the same bytes, if its bytes are known.
        ensures same { WriteAppends (W.contents (writer_of self.old)) (W.contents (writer_of self.new)) result buf.now }
    {
        let n = self.writer.write(buf)?;
        self.taken.add_all(&buf[..n]);
        Ok(n)
    }

    fn flush(&mut self) -> io::Result<()>
        ensures bytes { Keeps (Some (taken_of self.old)) (Some (taken_of self.new)) }
        ensures same { Keeps (W.contents (writer_of self.old)) (W.contents (writer_of self.new)) }
    {
        self.writer.flush()
    }
}
