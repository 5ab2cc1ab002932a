//! Whole plans.
ghost use Rattle.std.specs.Prelude.{◌≡◌, IfOk, length, map};
ghost use Rattle.jb_cert.specs.Load.{IsWithinLimits, mcnaughton};
ghost use Rattle.jb_cert.specs.Certificates.{Holds, bound_certificate};
ghost use Rattle.jb_cert.specs.Plans.{StandsForLeast, plan_rounds};
ghost use Rattle.jb_cert.specs.WrapAround.{wrapped_rounds};

use crate::cursor::RoundCursor;
use jb_cert::{Certificate, Plan, Slot, bound_is_least, wrap_around_is_least};
use std::alloc::{AllocError, Global};

/// A valid plan of the fewest rounds for these counts of chunks, one for each partition, on so many threads. It is
/// McNaughton's wrap-around of 1959, and comes with the reason why no valid plan has fewer.
///
/// It has `least_rounds` rounds. The slots of a round come by rising lane. The plan holds a slot for each chunk, and the
/// work is in proportion to the chunks. The only error is out of memory.
pub fn plan(alloc: Global, counts: &[u64], threads: u32) -> Result<(Plan, Certificate), AllocError>
    requires { IsWithinLimits counts.now threads }
    ensures slots { IfOk result (λ made. plan_rounds made.0 ≡ wrapped_rounds counts.now threads) }
    ensures least { IfOk result (λ made. StandsForLeast counts.now threads (plan_rounds made.0)) }
    ensures rounds { IfOk result (λ made. length made.0.rounds.items ≡ mcnaughton counts.now threads) }
    ensures certificate { IfOk result (λ made. made.1 ≡ bound_certificate counts.now threads) }
    ensures certified { IfOk result (λ made. Holds counts.now threads (length (plan_rounds made.0)) made.1) }
{
    bound_is_least();
    wrap_around_is_least();
    let cursor = RoundCursor::new(alloc, counts, threads)?;
    let rounds = rounds_of_cursor(alloc, &cursor)?;
    let certificate = cursor.certificate();
    Ok((Plan { rounds }, certificate))
}

// The slots of all rounds.
fn rounds_of_cursor(alloc: Global, cursor: &RoundCursor) -> Result<Vec<Vec<Slot>>, AllocError>
    ensures { IfOk result (λ rounds. map (λ round. round.items) rounds.items ≡ wrapped_rounds cursor.now.counts cursor.now.threads) }
{
    let length = cursor.rounds();
    let mut rounds = Vec::with_capacity(alloc, length as usize)?;
    for round in 0..length {
        let slots = cursor.slots(alloc, round)?;
        rounds.push(slots)?;
    }
    Ok(rounds)
}
