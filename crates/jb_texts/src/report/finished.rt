//! The whole report.

ghost use Rattle.std.specs.Prelude.{◌≡◌, ◌++◌, ◌∷◌, [], List, IfOk, OnErr, OnOk, flat_map};
ghost use Rattle.std.specs.Io.KnownBytes.{Appends};
ghost use Rattle.serde_json.specs.Written.{compact_text};
ghost use Rattle.jb_texts.specs.Front.{AppendsFront};
ghost use Rattle.jb_texts.specs.Report.{StepReport, report_text, steps_tree};
ghost use Rattle.jb_texts.specs.ReportTokens.{steps_tokens};
ghost use Rattle.jb_texts.specs.inside.Head.{head_text};
ghost use Rattle.jb_texts.specs.inside.Parts.{PassesOn, part_text};

use crate::block::{BLOCK_ROOM, pass_on};
use crate::report::outputs::{BYTES_AT_ONCE, MOST_AT_ONCE, write_results};
use crate::report::parts::{Part, longest_result};
use crate::report::steps::StepsText;
use crate::status::status_name;
use crate::whole::{write_bytes, write_whole};
use jb_collect::Status;
use json::Writer;
use std::alloc::{AllocError, Global};
use std::io;
use std::io::Write;
use std::marker::Model;

/// A text with more bytes isn't put into a block.
const SHORT_TEXT: usize = 1_024;

/// The text of a report, which contracts see as its bytes. The results are in it as the writers held them.
#[derive(Drop)]
pub struct ReportText {
    alloc: Global,
    // Up to the list of the steps' reports, since it has the status, which is known last; with room for all that a block may hold.
    block: Vec<u8>,
    parts: Vec<Part>,
    // The bytes of the longest result.
    longest: usize,
    // What comes after the last results.
    last: Vec<u8>,
}

impl Model for ReportText {
    ghost use Rattle.std.specs.Prelude.{ℕ, List, ◌++◌, flat_map};
    ghost use Rattle.jb_texts.specs.inside.Parts.{part_text};

    ghost Value = { List ℕ };

    ghost view = { λ text. text.block.items ++ (flat_map part_text text.parts.items ++ text.last.items) };
}

/// The room that a block needs with results up to this length, of those that are written at once. Each byte may take six, and each
/// result has quotes and a comma.
fn room_for(longest: usize) -> usize {
    let bytes = longest.max(BYTES_AT_ONCE).saturating_mul(6);
    bytes.saturating_add(MOST_AT_ONCE * 3 + BLOCK_ROOM)
}

/// What comes before the list of the steps' reports, in a text with this room.
#[tactic(auto, unfolding(crate::specs::inside::Head::head_text))]
fn head_of(alloc: Global, room: usize, job: &str, status: Status) -> Result<Vec<u8>, AllocError>
    ensures { IfOk result (λ head. head.items ≡ head_text job.now status) }
{
    let mut out = Writer::new(Vec::with_capacity(alloc, room)?);
    out.begin_object()?;
    out.key("job")?;
    out.string(job)?;
    out.key("status")?;
    out.string(status_name(status))?;
    out.key("steps")?;
    Ok(out.into_inner())
}

/// The list of the steps' reports, and the end of the text, which comes after the last results.
fn steps_of(steps: StepsText) -> Result<(Vec<Part>, Vec<u8>), AllocError>
    ensures { IfOk result (λ text. (reports : List StepReport) → steps ≡ steps_tokens reports
        → flat_map part_text text.0.items ++ text.1.items ≡ compact_text (steps_tree reports) ++ 125 ∷ 10 ∷ []) }
{
    let (parts, mut out) = steps.into_parts();
    out.end_array()?;
    let mut last = out.into_inner();
    last.extend_from_slice(b"}\n")?;
    Ok((parts, last))
}

/// Appends the text to the block, and passes the block on once it is full. A text that isn't short isn't appended: both are passed on.
/// What is left of the block is given back.
fn put_text<W: Write>(mut block: Vec<u8>, text: &[u8], writer: &mut W) -> io::Result<Vec<u8>>
    ensures passed { IfOk result (λ rest. PassesOn (W.contents writer.old) (W.contents writer.new) block.items text.now rest.items) }
    ensures front { OnErr result (AppendsFront (W.contents writer.old) (W.contents writer.new) (block.items ++ text.now)) }
{
    if text.len() <= SHORT_TEXT {
        block.extend_from_slice(text)?;
        pass_on(&mut block, writer)?;
        return Ok(block);
    }
    write_bytes(&block, writer)?;
    block.clear();
    write_bytes(text, writer)?;
    Ok(block)
}

/// Appends a part to the block, as `put_text` does a text. Its longest result has about so many bytes.
fn put_part<W: Write>(
    alloc: Global,
    block: Vec<u8>,
    part: &Part,
    longest: usize,
    writer: &mut W,
) -> io::Result<Vec<u8>>
    ensures passed { IfOk result (λ rest. PassesOn (W.contents writer.old) (W.contents writer.new) block.items (part_text part.now) rest.items) }
    ensures front { OnErr result (AppendsFront (W.contents writer.old) (W.contents writer.new) (block.items ++ part_text part.now)) }
{
    let block = put_text(block, &part.text, writer)?;
    write_results(alloc, block, &part.results, longest, writer)
}

/// Appends the parts to the block, one after another. Their longest result has about so many bytes.
fn put_parts<W: Write>(
    alloc: Global,
    mut block: Vec<u8>,
    parts: &[Part],
    longest: usize,
    writer: &mut W,
) -> io::Result<Vec<u8>>
    ensures passed { IfOk result (λ rest. PassesOn (W.contents writer.old) (W.contents writer.new) block.items (flat_map part_text parts.now) rest.items) }
    ensures front { OnErr result (AppendsFront (W.contents writer.old) (W.contents writer.new) (block.items ++ flat_map part_text parts.now)) }
{
    for part in parts {
        block = put_part(alloc, block, part, longest, writer)?;
    }
    Ok(block)
}

impl ReportText {
    /// The report of the job with this id and status, of which these steps ran.
    pub fn new(
        alloc: Global,
        job: &str,
        status: Status,
        steps: StepsText,
    ) -> Result<ReportText, AllocError>
        ensures { IfOk result (λ text. (reports : List StepReport) → steps ≡ steps_tokens reports → text ≡ report_text (record { job = job.now; status = status; steps = reports })) }
    {
        let (parts, last) = steps_of(steps)?;
        let longest = longest_result(&parts);
        let block = head_of(alloc, room_for(longest), job, status)?;
        Ok(ReportText {
            alloc,
            block,
            parts,
            longest,
            last,
        })
    }

    /// Writes the text, in blocks. It takes no memory where all results are UTF-8. Where the writer fails, it holds the front of the
    /// text.
    pub fn write_to<W: Write>(self, writer: &mut W) -> io::Result<()>
        ensures whole { OnOk result (Appends (W.contents writer.old) (W.contents writer.new) self) }
        ensures front { OnErr result (AppendsFront (W.contents writer.old) (W.contents writer.new) self) }
    {
        let ReportText {
            alloc,
            block,
            parts,
            longest,
            last,
        } = self;
        let block = put_parts(alloc, block, &parts, longest, writer)?;
        let block = put_text(block, &last, writer)?;
        write_whole(&block, writer)
    }
}
