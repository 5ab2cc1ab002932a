//! The bytes of a stream that were read and not yet used.

ghost use Rattle.std.specs.Prelude.{◌≡◌, ◌≤◌, ◌<◌, ◌==◌, [], drop, length, option_map, take, IfOk, OnOk};
ghost use Rattle.std.specs.Io.KnownBytes.{Consumes, IsAtEnd, Keeps, prepend_known};
ghost use Rattle.csv.specs.Reading.{is_bom, strip_bom};

use std::io::{Read, Result};
use std::marker::Model;

/// How many bytes are read at a time, at most.
const ROOM: usize = 8192;

/// The bytes of a stream that were read and not yet used. A contract sees their list.
#[derive(Drop)]
pub(crate) struct Window {
    buffer: [u8; ROOM],
    at: usize,
    filled: usize,
}

impl Model for Window {
    ghost use Rattle.std.specs.Prelude.{ℕ, ◌≤◌, List, drop, take};

    ghost Value = { List ℕ };

    ghost view = { λ w. drop w.at (take w.filled w.buffer) };

    ghost invariant = { λ w. (w.at ≤ w.filled) × (w.filled ≤ 8192) };
}

/// Whether three bytes are a byte order mark.
fn is_mark(a: u8, b: u8, c: u8) -> bool
    ensures { result ≡ is_bom a b c }
{
    a == 0xef && b == 0xbb && c == 0xbf
}

/// How many bytes of a text are its byte order mark, if it begins with these.
fn mark_len(bytes: &[u8]) -> usize
    ensures within { result ≤ length bytes.now }
    ensures strips { drop result bytes.now ≡ strip_bom bytes.now }
{
    if bytes.len() < 3 {
        return 0;
    }
    if is_mark(bytes[0], bytes[1], bytes[2]) {
        return 3;
    }
    0
}

/// Reads the first bytes of a stream, three at least if it has as many.
fn read_head<R: Read>(stream: &mut R, buffer: &mut [u8; ROOM]) -> Result<usize>
    ensures within { IfOk result (λ filled. filled ≤ 8192) }
    ensures read { IfOk result (λ filled. Consumes (R.remaining stream.old) (R.remaining stream.new) (take filled buffer.new)) }
    ensures end { IfOk result (λ filled. filled < 3 → IsAtEnd (R.remaining stream.new)) }
{
    let mut filled = 0;
    while filled < 3 {
        let count = stream.read(&mut buffer[filled..])?;
        if count == 0 {
            return Ok(filled);
        }
        filled += count;
    }
    Ok(filled)
}

impl Window {
    /// No byte.
    pub(crate) fn new() -> Window
        ensures { result ≡ [] }
    {
        Window {
            buffer: [0; ROOM],
            at: 0,
            filled: 0,
        }
    }

    /// The first bytes of a stream, without a byte order mark.
    pub(crate) fn first<R: Read>(stream: &mut R) -> Result<Window>
        ensures { IfOk result (λ window. Keeps (option_map strip_bom (R.remaining stream.old)) (prepend_known window (R.remaining stream.new))) }
    {
        let mut buffer = [0; ROOM];
        let filled = read_head(stream, &mut buffer)?;
        let at = mark_len(&buffer[..filled]);
        Ok(Window { buffer, at, filled })
    }

    /// The bytes.
    pub(crate) fn bytes(&self) -> &[u8]
        ensures { result.now ≡ self.now }
    {
        &self.buffer[self.at..self.filled]
    }

    /// Whether there are no bytes.
    pub(crate) fn is_empty(&self) -> bool
        ensures { result ≡ (length self.now == 0) }
    {
        self.at == self.filled
    }

    /// Takes the first ones away, so many.
    pub(crate) fn skip(&mut self, count: usize)
        requires { count ≤ length self.old }
        ensures { self.new ≡ drop count self.old }
    {
        self.at += count;
    }

    /// Reads bytes of the stream in place of these. Only at its end are there none.
    pub(crate) fn read<R: Read>(&mut self, stream: &mut R) -> Result<()>
        ensures read { OnOk result (Consumes (R.remaining stream.old) (R.remaining stream.new) self.new) }
        ensures end { OnOk result (self.new ≡ [] → IsAtEnd (R.remaining stream.new)) }
    {
        let count = stream.read(&mut self.buffer)?;
        self.at = 0;
        self.filled = count;
        Ok(())
    }
}
