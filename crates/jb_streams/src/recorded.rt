//! A reader that remembers what its reads gave.

ghost use Rattle.std.specs.Prelude.{◌≡◌, ◌++◌, ◌==◌, ◌&&◌, [], false, take, length, not, MatchResult};
ghost use Rattle.std.specs.Io.{ReadsAtMost};
ghost use Rattle.std.specs.Io.KnownBytes.{ReadConsumes};

use crate::passed::Passed;
use std::io::{Read, Result};

/// A reader that remembers, for contracts alone, the bytes that its reads gave, and whether the last read found the end.
#[derive(Drop)]
pub struct Recorded<R> {
    reader: R,
    given: Passed,
    is_over: bool,
}

impl<R: Read> Recorded<R> {
    ghost use Rattle.jb_streams.specs.Recorded.{given_of, is_over, reader_of};

    /// A reader of which nothing was read yet.
    pub fn new(reader: R) -> Recorded<R>
        ensures reader { reader_of result ≡ reader }
        ensures given { given_of result ≡ [] }
        ensures over { is_over result ≡ false }
    {
        Recorded {
            reader,
            given: Passed::none(),
            is_over: false,
        }
    }

    /// The reader below.
    pub fn get_ref(&self) -> &R
        ensures { result.now ≡ reader_of self.now }
    {
        &self.reader
    }

    /// Reads once. It is the end if the buffer has room and no byte was read.
    pub fn read(&mut self, buf: &mut [u8]) -> Result<usize>
        ensures bound { ReadsAtMost result buf.new }
        ensures given { MatchResult result (λ n. given_of self.new ≡ given_of self.old ++ take n buf.new) (λ _. given_of self.new ≡ given_of self.old) }
        ensures over { MatchResult result (λ n. is_over self.new ≡ ((n == 0) && not (length buf.new == 0))) (λ _. is_over self.new ≡ false) }
        // These bytes are the ones of the reader below, if its bytes are known.
        ensures bytes { ReadConsumes (R.remaining (reader_of self.old)) (R.remaining (reader_of self.new)) result buf.new }
    {
        self.is_over = false;
        let n = self.reader.read(buf)?;
        self.given.add_all(&buf[..n]);
        self.is_over = n == 0 && !buf.is_empty();
        Ok(n)
    }
}
