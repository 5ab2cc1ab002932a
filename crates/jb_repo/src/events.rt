//! What may happen to the partitions of a step.

ghost use Rattle.std.specs.Prelude.{◌≡◌};
ghost use Rattle.jb_repo.specs.History.{lane_of, begun_by};
ghost use Rattle.jb_repo.specs.Answers.{places_of};

use crate::deltas::Delta;
use jb_base::ClassId;
use jb_cert::Certificate;
use std::mem::size_of;

/// An event of a step. Owners and partitions are numbered from 0. A lane is a thread of the step.
#[derive(Clone, Copy, Debug, PartialEq, Eq)]
pub enum Event {
    /// A plan of so many rounds is opened, with the certificate that no plan has fewer.
    Plan(u64, Certificate),
    /// The lane begins the next chunk of the partition.
    Begin(u32, u32),
    /// The lane's chunk is committed: what it adds to the counts, how many results the writer then holds, and how often a
    /// call of it was repeated in place.
    Commit(u32, Delta, u32, u32),
    /// The lane's chunk is rolled back to be retried, by a fault of this class, after so many repeats in place.
    Roll(u32, ClassId, u32),
    /// The lane's partition has failed, by a fault of this class, after so many repeats in place.
    Fail(u32, ClassId, u32),
    /// The lane gives its chunk up, and nothing was done.
    Drop(u32),
    /// A round is over.
    Round,
    /// No plan is opened and no chunk started from now on.
    Stop,
}

/// A history of a million chunks has some two million events, so each is to be small.
const _: () = prove!(size_of::<Event>() <= 48);

impl Event {
    /// The lane that the event names.
    pub(crate) fn lane(&self) -> Option<u32>
        ensures { result ≡ lane_of self.now }
    {
        match *self {
            Event::Begin(lane, _)
            | Event::Commit(lane, _, _, _)
            | Event::Roll(lane, _, _)
            | Event::Fail(lane, _, _)
            | Event::Drop(lane) => Some(lane),
            Event::Plan(_, _) | Event::Round | Event::Stop => None,
        }
    }

    /// The partition that a Begin names.
    pub(crate) fn partition_begun(&self) -> Option<u32>
        ensures { result ≡ begun_by self.now }
    {
        match *self {
            Event::Begin(_, partition) => Some(partition),
            _ => None,
        }
    }

    /// How many places of the history the event asks for: a Begin its own and its outcome's, an outcome none.
    pub(crate) fn places(&self) -> usize
        ensures { result ≡ places_of self.now }
    {
        match *self {
            Event::Begin(_, _) => 2,
            Event::Plan(_, _) | Event::Round | Event::Stop => 1,
            Event::Commit(_, _, _, _)
            | Event::Roll(_, _, _)
            | Event::Fail(_, _, _)
            | Event::Drop(_) => 0,
        }
    }
}
