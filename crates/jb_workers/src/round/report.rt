//! What came of the works of a round.

ghost use Rattle.std.specs.Prelude.{◌≡◌, ◌++◌, ◌∷◌, ◌⊎◌, [], IfOk, IfErr, OnOk};
ghost use Rattle.jb_workers.specs.Round.{AllAreDone, IsLowestRefusal};
ghost use Rattle.jb_workers.specs.declared.round.error.RoundError.TheVariants.{Memory};
ghost use Rattle.jb_workers.specs.inside.Gathered.{AreAllDone, lower};

use crate::round::RoundError;
use jb_chunk::{Done, PartitionTask};
use std::alloc::Global;

/// What came of the work of a lane.
#[derive(Drop)]
pub(crate) struct Report<T> {
    pub(crate) lane: u32,
    pub(crate) done: Result<Done<T>, RoundError>,
}

/// The reports with one more.
pub(crate) fn with_report<T: PartitionTask>(
    reports: Vec<Report<T>>,
    lane: u32,
    done: Result<Done<T>, RoundError>,
) -> Result<Vec<Report<T>>, RoundError>
    ensures more { IfOk result (λ more. more.items ≡ reports.items ++ record { lane = lane; done = done } ∷ []) }
    ensures err { IfErr result (λ error. error ≡ Memory) }
{
    let mut reports = reports;
    match reports.push(Report { lane, done }) {
        Ok(()) => Ok(reports),
        Err(_) => Err(RoundError::Memory),
    }
}

/// The attempts of the reports, or the refusal of the lowest lane that was refused.
pub(crate) fn all_done<T: PartitionTask>(
    alloc: Global,
    reports: Vec<Report<T>>,
) -> Result<Vec<Done<T>>, RoundError>
    ensures dones { IfOk result (λ dones. AreAllDone reports.items dones.items) }
    ensures all { OnOk result (AllAreDone reports.items) }
    ensures refused { IfErr result (λ error. (error ≡ Memory) ⊎ IsLowestRefusal reports.items error) }
{
    let mut dones = with_room(alloc, reports.len())?;
    let mut refused = None;
    for Report { lane, done } in reports {
        match done {
            Ok(done) => {
                if dones.push(done).is_err() {
                    return Err(RoundError::Memory);
                }
            }
            Err(error) => refused = lower(refused, lane, error),
        }
    }
    match refused {
        Some((_, error)) => Err(error),
        None => Ok(dones),
    }
}

/// An empty list with room for so many attempts.
fn with_room<T: PartitionTask>(alloc: Global, number: usize) -> Result<Vec<Done<T>>, RoundError>
    ensures none { IfOk result (λ dones. dones.items ≡ []) }
    ensures err { IfErr result (λ error. error ≡ Memory) }
{
    match Vec::with_capacity(alloc, number) {
        Ok(dones) => Ok(dones),
        Err(_) => Err(RoundError::Memory),
    }
}

/// The refusal of the lower lane: the one found so far, if there is one, or the lane's.
fn lower(
    refused: Option<(u32, RoundError)>,
    lane: u32,
    error: RoundError,
) -> Option<(u32, RoundError)>
    ensures { result ≡ lower refused lane error }
{
    match refused {
        Some((lowest, earlier)) => {
            if lane < lowest {
                Some((lane, error))
            } else {
                Some((lowest, earlier))
            }
        }
        None => Some((lane, error)),
    }
}
