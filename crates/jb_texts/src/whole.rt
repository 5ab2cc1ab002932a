//! Writing a text whole.

ghost use Rattle.std.specs.Prelude.{◌≤◌, length, map, IfOk, OnErr, OnOk};
ghost use Rattle.std.specs.List.{concat};
ghost use Rattle.std.specs.Io.KnownBytes.{Appends, WriteAppends};
ghost use Rattle.jb_texts.specs.Front.{AppendsFront};

use std::io;
use std::io::{ErrorKind, Write};

/// Writes some of the bytes, and gives their number. It is 0 where the call was interrupted; a writer that takes none
/// fails.
fn write_some<W: Write>(bytes: &[u8], writer: &mut W) -> io::Result<usize>
    ensures bound { IfOk result (λ n. n ≤ length bytes.now) }
    ensures bytes { WriteAppends (W.contents writer.old) (W.contents writer.new) result bytes.now }
{
    match writer.write(bytes) {
        Ok(0) => Err(io::Error::from(ErrorKind::WriteZero)),
        Err(fault) if fault.kind() == ErrorKind::Interrupted => Ok(0),
        written => written,
    }
}

/// Writes all the bytes, as `write_all` does. Where the writer fails, it holds what it had taken: the front of them.
pub(crate) fn write_bytes<W: Write>(bytes: &[u8], writer: &mut W) -> io::Result<()>
    ensures whole { OnOk result (Appends (W.contents writer.old) (W.contents writer.new) bytes.now) }
    ensures front { OnErr result (AppendsFront (W.contents writer.old) (W.contents writer.new) bytes.now) }
{
    let mut written = 0;
    for _ in 0..u64::MAX {
        if written >= bytes.len() {
            return Ok(());
        }
        written += write_some(&bytes[written..], writer)?;
    }
    Err(io::Error::from(ErrorKind::Other))
}

/// Writes all the bytes and flushes the writer. Where it fails, it holds what it had taken: the front of them.
pub fn write_whole<W: Write>(bytes: &[u8], writer: &mut W) -> io::Result<()>
    ensures whole { OnOk result (Appends (W.contents writer.old) (W.contents writer.new) bytes.now) }
    ensures front { OnErr result (AppendsFront (W.contents writer.old) (W.contents writer.new) bytes.now) }
{
    write_bytes(bytes, writer)?;
    writer.flush()
}

/// Writes the texts, one after another, and flushes the writer. If it fails, it holds what it had taken: the front of them.
pub fn write_joined<W: Write>(texts: &[&[u8]], writer: &mut W) -> io::Result<()>
    ensures whole { OnOk result (Appends (W.contents writer.old) (W.contents writer.new) (concat (map (λ t. t.now) texts.now))) }
    ensures front { OnErr result (AppendsFront (W.contents writer.old) (W.contents writer.new) (concat (map (λ t. t.now) texts.now))) }
{
    for text in texts {
        write_bytes(text, writer)?;
    }
    writer.flush()
}
