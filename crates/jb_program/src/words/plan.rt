//! The word `plan`: a plan of the fewest rounds for counts of chunks and a number of threads.

ghost use Rattle.std.specs.Prelude.{◌≡◌, ◌≢◌, IfOk, IfErr, IfSome, OnErr, OnOk, ◌⊎◌};
ghost use Rattle.std.specs.Io.KnownBytes.{Keeps};
ghost use Rattle.jb_job.specs.declared.error.JobError.{JobError};
ghost use Rattle.jb_documents.specs.PlanDocument.{IsRefusedLoad};
ghost use Rattle.jb_texts.specs.Front.{AppendsFront};
ghost use Rattle.jb_texts.specs.PlanText.{text_of_load};
ghost use Rattle.jb_program.specs.PlanWord.{IsPlanFront, IsPlanned, IsPlannedFor};
ghost use Rattle.jb_program.specs.Refusals.{Answering, Explains};

use crate::streams::{ProgramError, read_all};
use jb_documents::{ChunkLoad, read_load};
use jb_rounds::RoundCursor;
use jb_texts::{BLOCK_ROOM, write_plan};
use std::alloc::Global;
use std::io::{Read, Write};

// Plans the load, and writes the plan. All memory is taken before the first byte is written.
fn answer_load<W: Write>(
    alloc: Global,
    load: &ChunkLoad,
    writer: &mut W,
) -> Result<u8, ProgramError>
    ensures status { IfOk result (λ status. status ≡ 0) }
    ensures planned { OnOk result (IsPlannedFor load.now (W.contents writer.old) (W.contents writer.new)) }
    ensures err { IfErr result (λ e. (e ≡ ProgramError.Memory × Keeps (W.contents writer.old) (W.contents writer.new))
        ⊎ (e ≡ ProgramError.Stream × AppendsFront (W.contents writer.old) (W.contents writer.new) (text_of_load load.now))) }
{
    let cursor = RoundCursor::new(alloc, load.counts(), load.threads())?;
    // They say why the plan is a least one.
    let (_rounds, _certificate) = (cursor.rounds(), cursor.certificate());
    let block = Vec::with_capacity(alloc, BLOCK_ROOM)?;
    write_plan(block, &cursor, writer)?;
    Ok(0)
}

/// Reads a document of `plan` and writes its plan: the number of rounds and the certificate, and then a line for each
/// round. The exit status is 0.
///
/// It fails with `Document` and the document's first fault, and with `Memory` before a byte is written. It fails with
/// `Stream` if the reader or the writer fails: then the writer may have taken the front of the plan.
#[tactic(auto, using(crate::proofs::Refusals::refusals))]
pub fn run_plan<R: Read, W: Write>(
    alloc: Global,
    reader: &mut R,
    writer: &mut W,
) -> Result<u8, ProgramError>
    ensures status { IfOk result (λ status. status ≡ 0) }
    ensures planned { OnOk result (IsPlanned (R.remaining reader.old) (W.contents writer.old) (W.contents writer.new)) }
    ensures refused { IfErr result (λ e. (fault : JobError) → e ≡ ProgramError.Document fault → IfSome (R.remaining reader.old) (IsRefusedLoad fault)) }
    ensures failures { IfErr result (Explains Answering) }
    ensures silent { IfErr result (λ e. e ≢ ProgramError.Stream → Keeps (W.contents writer.old) (W.contents writer.new)) }
    ensures cut { OnErr result (Keeps (W.contents writer.old) (W.contents writer.new) ⊎ IsPlanFront (R.remaining reader.old) (W.contents writer.old) (W.contents writer.new)) }
{
    let bytes = read_all(alloc, reader)?;
    let load = read_load(alloc, bytes)?;
    answer_load(alloc, &load, writer)
}
