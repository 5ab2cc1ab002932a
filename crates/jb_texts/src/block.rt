//! Text that is written in blocks.

ghost use Rattle.std.specs.Prelude.{◌≡◌, ℕ, List, ◌++◌, OnErr, OnOk};
ghost use Rattle.std.specs.Io.KnownBytes.{Appends};
ghost use Rattle.jb_texts.specs.Front.{AppendsFront};

use crate::whole::write_bytes;
use std::io;
use std::io::Write;

/// The memory of a block. The longest line of a plan has less than 1,024 bytes, so its block never grows past it.
pub const BLOCK_ROOM: usize = 65_536;

/// A block with this many bytes is handed on.
const FULL_BLOCK: usize = 64_512;

/// Hands a block on once it is full.
pub(crate) fn pass_on<W: Write>(block: &mut Vec<u8>, writer: &mut W) -> io::Result<()>
    ensures passed { OnOk result ((passed : List ℕ) × Appends (W.contents writer.old) (W.contents writer.new) passed × (block.old.items ≡ passed ++ block.new.items)) }
    ensures front { OnErr result (AppendsFront (W.contents writer.old) (W.contents writer.new) block.old.items) }
{
    if block.len() >= FULL_BLOCK {
        write_bytes(block, writer)?;
        block.clear();
    }
    Ok(())
}
