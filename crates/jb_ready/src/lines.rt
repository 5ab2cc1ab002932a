//! The lines of a text.

ghost use Rattle.std.specs.Prelude.{◌≡◌, map, IfOk};
ghost use Rattle.jb_ready.specs.Lines.{lines, parts, without_last};

use jb_base::PackedList;
use std::alloc::{AllocError, Global};

/// The records of a text: its lines, without their ends. A line ends at a line feed, or at a carriage return and a line
/// feed. No line is refused.
pub fn records_of(alloc: Global, text: &[u8]) -> Result<PackedList, AllocError>
    ensures { IfOk result (λ records. records ≡ lines text.now) }
{
    let lines = lines_of(alloc, text)?;
    packed(alloc, text.len(), &lines)
}

/// The lines of a text.
#[tactic(auto, unfolding(crate::specs::Lines::lines))]
fn lines_of(alloc: Global, text: &[u8]) -> Result<Vec<&[u8]>, AllocError>
    ensures { IfOk result (λ found. map (λ line. line.now) found.items ≡ lines text.now) }
{
    if text.is_empty() {
        return Ok(Vec::new(alloc));
    }
    parts_of(alloc, without_last(b'\n', text))
}

/// The parts of a text between its line feeds, each without a carriage return at its end.
fn parts_of(alloc: Global, text: &[u8]) -> Result<Vec<&[u8]>, AllocError>
    ensures { IfOk result (λ found. map (λ part. part.now) found.items ≡ parts text.now) }
{
    text.split(|byte| *byte == b'\n')
        .map(|part| without_last(b'\r', part))
        .collect(alloc)
}

/// The text without this byte at its end, if it ends with it.
fn without_last(byte: u8, text: &[u8]) -> &[u8]
    ensures { result.now ≡ without_last byte text.now }
{
    if text.ends_with(&[byte]) {
        &text[..text.len() - 1]
    } else {
        text
    }
}

/// These byte strings in one buffer, made with room for so many bytes.
fn packed(alloc: Global, bytes: usize, strings: &[&[u8]]) -> Result<PackedList, AllocError>
    ensures { IfOk result (λ list. list ≡ map (λ string. string.now) strings.now) }
{
    let mut list = PackedList::with_room(alloc, strings.len(), bytes)?;
    for string in strings {
        list.push(string)?;
    }
    Ok(list)
}
