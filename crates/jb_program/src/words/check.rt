//! The subcommand `check`: whether a plan is valid, and whether its certificate holds.

ghost use Rattle.std.specs.Prelude.{◌≡◌, ◌≢◌, IfOk, IfErr, IfSome, OnErr, ◌⊎◌};
ghost use Rattle.std.specs.Io.KnownBytes.{Keeps};
ghost use Rattle.jb_job.specs.declared.error.JobError.{JobError};
ghost use Rattle.jb_documents.specs.CheckDocument.{IsRefusedClaim, claim_of};
ghost use Rattle.jb_program.specs.CheckWord.{IsCheckAnswer, IsCheckFront, IsClaimAnswer, IsClaimFront, IsJudgementOf};
ghost use Rattle.jb_program.specs.Refusals.{Answering, Explains};

use crate::streams::{ProgramError, read_all};
use jb_cert::{PlanFault, check_certificate, check_plan};
use jb_documents::{PlanClaim, read_claim};
use jb_texts::{Judgement, write_whole};
use std::alloc::Global;
use std::io::{Read, Write};

// Judges a claim.
fn judge(alloc: Global, claim: &PlanClaim) -> Result<Judgement, ProgramError>
    ensures judged { IfOk result (IsJudgementOf (claim_of claim.now)) }
    ensures err { IfErr result (λ e. e ≡ ProgramError.Memory) }
{
    let counts = claim.load.counts();
    let threads = claim.load.threads();
    let fault = match check_plan(alloc, counts, threads, &claim.plan) {
        Ok(()) => None,
        Err(PlanFault::Memory) => return Err(ProgramError::Memory),
        Err(fault) => Some(fault),
    };
    let rounds = claim.plan.rounds.len() as u64;
    let certified = check_certificate(counts, threads, rounds, claim.certificate);
    Ok(Judgement { fault, certified })
}

// Judges a claim, and writes what was found. All memory is taken before the first byte is written.
#[tactic(auto, using(crate::proofs::Least::least))]
fn answer_claim<W: Write>(
    alloc: Global,
    claim: &PlanClaim,
    writer: &mut W,
) -> Result<u8, ProgramError>
    ensures answered { IfOk result (IsClaimAnswer (claim_of claim.now) (W.contents writer.old) (W.contents writer.new)) }
    ensures err { IfErr result (λ e. (e ≡ ProgramError.Memory × Keeps (W.contents writer.old) (W.contents writer.new))
        ⊎ (e ≡ ProgramError.Stream × IsClaimFront (claim_of claim.now) (W.contents writer.old) (W.contents writer.new))) }
{
    let judgement = judge(alloc, claim)?;
    let text = format!(in alloc; "{judgement}")?;
    write_whole(text.as_bytes(), writer)?;
    Ok(judgement.status())
}

/// Reads a document of `check` and writes what is found of its plan and of its certificate, a line each. The exit
/// status is 0 if the plan is valid and its certificate holds: then no valid plan has fewer rounds. Else it is 1.
///
/// It fails with `Document` and the document's first fault, and with `Memory` before a byte is written. It fails with
/// `Stream` if the reader or the writer fails: then the writer may have taken the front of the lines.
#[tactic(auto, using(crate::proofs::Refusals::refusals))]
pub fn run_check<R: Read, W: Write>(
    alloc: Global,
    reader: &mut R,
    writer: &mut W,
) -> Result<u8, ProgramError>
    ensures checked { IfOk result (IsCheckAnswer (R.remaining reader.old) (W.contents writer.old) (W.contents writer.new)) }
    ensures refused { IfErr result (λ e. (fault : JobError) → e ≡ ProgramError.Document fault → IfSome (R.remaining reader.old) (IsRefusedClaim fault)) }
    ensures failures { IfErr result (Explains Answering) }
    ensures silent { IfErr result (λ e. e ≢ ProgramError.Stream → Keeps (W.contents writer.old) (W.contents writer.new)) }
    ensures cut { OnErr result (Keeps (W.contents writer.old) (W.contents writer.new) ⊎ IsCheckFront (R.remaining reader.old) (W.contents writer.old) (W.contents writer.new)) }
{
    let bytes = read_all(alloc, reader)?;
    let claim = read_claim(alloc, bytes)?;
    answer_claim(alloc, &claim, writer)
}
