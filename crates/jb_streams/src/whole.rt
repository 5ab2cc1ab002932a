//! All that a reader gives until its end.

ghost use Rattle.std.specs.Prelude.{◌≡◌, [], IfOk, OnOk};
ghost use Rattle.std.specs.Io.KnownBytes.{Consumes, IsAtEnd};
ghost use Rattle.jb_streams.specs.Recorded.{IsRead, reader_of};

use crate::recorded::Recorded;
use std::alloc::Global;
use std::io;
use std::io::{ErrorKind, Read};
use std::marker::Model;

/// Bytes that a reader gave, which are read once more. With the last of them their memory is given back. A contract sees the bytes
/// that are left.
#[derive(Drop)]
pub struct Whole {
    alloc: Global,
    bytes: Vec<u8>,
    at: usize,
}

impl Model for Whole {
    ghost use Rattle.std.specs.Prelude.{◌≤◌, ℕ, List, drop, length};

    ghost Value = { List ℕ };

    ghost view = { λ w. drop w.at w.bytes.items };

    ghost invariant = { λ w. w.at ≤ length w.bytes.items };
}

impl Whole {
    /// No bytes.
    pub fn none(alloc: Global) -> Whole
        ensures { result ≡ [] }
    {
        Whole::of(alloc, Vec::new(alloc))
    }

    /// These bytes.
    fn of(alloc: Global, bytes: Vec<u8>) -> Whole
        ensures { result ≡ bytes.items }
    {
        Whole {
            alloc,
            bytes,
            at: 0,
        }
    }
}

impl Read for Whole {
    ghost use Rattle.std.specs.Prelude.{Some};

    ghost remaining = { λ whole. Some whole };

    fn read(&mut self, buf: &mut [u8]) -> io::Result<usize> {
        let mut rest = &self.bytes[self.at..];
        let n = rest.read(buf)?;
        self.at += n;
        if self.at >= self.bytes.len() {
            self.bytes = Vec::new(self.alloc);
            self.at = 0;
        }
        Ok(n)
    }
}

/// All bytes that the reader gives until its end. A read that was interrupted is made again.
pub fn read_whole<R: Read>(alloc: Global, reader: &mut Recorded<R>) -> io::Result<Whole>
    ensures read { IfOk result (IsRead reader.old reader.new) }
    // These bytes are all that the reader below had left, if its bytes are known.
    ensures known { IfOk result (Consumes (R.remaining (reader_of reader.old)) (R.remaining (reader_of reader.new))) }
    ensures at_end { OnOk result (IsAtEnd (R.remaining (reader_of reader.new))) }
{
    let mut bytes = Vec::new(alloc);
    let mut block = [0; 8192];
    for _ in 0..u64::MAX {
        match reader.read(&mut block) {
            Ok(0) => return Ok(Whole::of(alloc, bytes)),
            Ok(n) => bytes.extend_from_slice(&block[..n])?,
            Err(error) => {
                if error.kind() != ErrorKind::Interrupted {
                    return Err(error);
                }
            }
        }
    }
    Err(io::Error::from(ErrorKind::TimedOut))
}
