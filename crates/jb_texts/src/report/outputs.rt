//! The results of a partition, written as texts in blocks.

ghost use Rattle.std.specs.Prelude.{◌≡◌, ◌≤◌, ◌<◌, ◌++◌, ◌∷◌, [], All, IsTrue, IfOk, OnErr, OnOk, length, ltb, slice_range};
ghost use Rattle.std.specs.Str.{IsAscii};
ghost use Rattle.std.specs.Str.Lossy.{utf8_lossy};
ghost use Rattle.json.specs.Print.{print};
ghost use Rattle.json.specs.Token.{string};
ghost use Rattle.serde_json.specs.Written.{comma_if};
ghost use Rattle.jb_texts.specs.Front.{AppendsFront};
ghost use Rattle.jb_texts.specs.inside.Parts.{PassesOn, results_tokens};

use crate::block::pass_on;
use crate::report::text::{write_ascii, write_text};
use jb_base::PackedList;
use json::Writer;
use std::alloc::{AllocError, Global};
use std::io;
use std::io::Write;

/// The most results that are written before the block is looked at.
pub const MOST_AT_ONCE: usize = 256;

/// The most bytes of results that are written before the block is looked at, if it isn't one result.
pub const BYTES_AT_ONCE: usize = 16_384;

/// Appends a comma to the block, before a later result.
fn with_comma(mut block: Vec<u8>, is_later: bool) -> Result<Vec<u8>, AllocError>
    ensures { IfOk result (λ more. more.items ≡ block.items ++ comma_if is_later) }
{
    if is_later {
        block.push(b',')?;
        return Ok(block);
    }
    Ok(block)
}

/// Writes a result as a text. It is ASCII where the caller says so.
fn write_result(
    alloc: Global,
    out: &mut Writer,
    bytes: &[u8],
    is_ascii: bool,
) -> Result<(), AllocError>
    requires { IsTrue is_ascii → IsAscii bytes.now }
    ensures text { OnOk result (out.new.tokens ≡ out.old.tokens ++ string (utf8_lossy bytes.now) ∷ []) }
    ensures before { out.new.before ≡ out.old.before }
{
    if is_ascii {
        write_ascii(out, bytes)
    } else {
        write_text(alloc, out, bytes)
    }
}

/// Writes the results from `from` to `to - 1`, as texts. All are ASCII where the caller says so.
fn write_range(
    alloc: Global,
    out: &mut Writer,
    results: &PackedList,
    from: usize,
    to: usize,
    is_ascii: bool,
) -> Result<(), AllocError>
    requires order { from ≤ to }
    requires to { to ≤ length results.now }
    requires ascii { IsTrue is_ascii → All IsAscii results.now }
    ensures texts { OnOk result (out.new.tokens ≡ out.old.tokens ++ results_tokens (slice_range results.now from to)) }
    ensures before { out.new.before ≡ out.old.before }
{
    for place in from..to {
        write_result(alloc, out, results.at(place), is_ascii)?;
    }
    Ok(())
}

/// Appends the results from `from` to `to - 1` to the block, as texts, with a comma before them if they are later ones.
fn with_range(
    alloc: Global,
    block: Vec<u8>,
    results: &PackedList,
    from: usize,
    to: usize,
    is_ascii: bool,
) -> Result<Vec<u8>, AllocError>
    requires order { from ≤ to }
    requires to { to ≤ length results.now }
    requires ascii { IsTrue is_ascii → All IsAscii results.now }
    ensures { IfOk result (λ more. more.items ≡ block.items ++ (comma_if (ltb 0 from) ++ print (results_tokens (slice_range results.now from to)))) }
{
    let block = with_comma(block, from > 0)?;
    let mut out = Writer::new(block);
    write_range(alloc, &mut out, results, from, to, is_ascii)?;
    Ok(out.into_inner())
}

/// How many results of at most so many bytes are written at once.
fn count_at_once(longest: usize) -> usize
    ensures { 1 ≤ result }
{
    (BYTES_AT_ONCE / longest.max(1)).min(MOST_AT_ONCE).max(1)
}

/// Where the results end that are written at once, of those from this one on.
fn end_from(from: usize, count: usize, at_once: usize) -> usize
    requires from { from < count }
    requires some { 1 ≤ at_once }
    ensures more { from < result }
    ensures within { result ≤ count }
{
    if count - from <= at_once {
        count
    } else {
        from + at_once
    }
}

/// Appends the results to the block, one after another, and passes it on whenever it is full. What is left of it is given back. The
/// longest result has about so many bytes: by that the block is looked at.
pub fn write_results<W: Write>(
    alloc: Global,
    mut block: Vec<u8>,
    results: &PackedList,
    longest: usize,
    writer: &mut W,
) -> io::Result<Vec<u8>>
    ensures passed { IfOk result (λ rest. PassesOn (W.contents writer.old) (W.contents writer.new) block.items (print (results_tokens results.now)) rest.items) }
    ensures front { OnErr result (AppendsFront (W.contents writer.old) (W.contents writer.new) (block.items ++ print (results_tokens results.now))) }
{
    let is_ascii = results.is_ascii();
    let at_once = count_at_once(longest);
    let mut from = 0;
    while from < results.len() {
        let to = end_from(from, results.len(), at_once);
        block = with_range(alloc, block, results, from, to, is_ascii)?;
        pass_on(&mut block, writer)?;
        from = to;
    }
    Ok(block)
}
