//! What each lane runs.

ghost use Rattle.std.specs.Prelude.{◌≡◌, ◌<◌, List, [], ◌∷◌, IfSome, None};
ghost use Rattle.jb_base.specs.Limits.{max_threads};
ghost use Rattle.jb_repo.specs.History.{lane_of, owner, partition_of};
ghost use Rattle.jb_repo.specs.inside.Projection.{ShowOwners};

use crate::events::Event;
use jb_base::MAX_THREADS;

/// The most lanes, as a number of places.
pub const LANES: usize = MAX_THREADS as usize;

/// Which partition each lane runs.
#[derive(Drop)]
pub struct Owners {
    partitions: [Option<u32>; LANES],
}

impl Owners {
    /// Owners that run nothing.
    pub fn new() -> Self
        ensures { ShowOwners result [] }
    {
        Owners {
            partitions: [None; LANES],
        }
    }

    /// The partition that a lane runs, if it runs one.
    pub fn owner(&self, lane: u32) -> Option<u32>
        requires { lane < max_threads }
        ensures { (past : List Event) → ShowOwners self.now past → result ≡ owner lane past }
    {
        self.partitions[lane as usize]
    }

    /// The partition that an event is about: the one that a Begin names, or the owner of an outcome.
    pub fn partition_of(&self, event: Event) -> Option<u32>
        requires { IfSome (lane_of event) (λ lane. lane < max_threads) }
        ensures { (past : List Event) → ShowOwners self.now past → result ≡ partition_of event past }
    {
        match event {
            Event::Begin(_, partition) => Some(partition),
            Event::Commit(lane, _, _, _)
            | Event::Roll(lane, _, _)
            | Event::Fail(lane, _, _)
            | Event::Drop(lane) => self.owner(lane),
            Event::Plan(_, _) | Event::Round | Event::Stop => None,
        }
    }

    /// One more event: the lane that it names runs the partition that it begins, if it begins one.
    pub fn note(&mut self, event: Event)
        requires { IfSome (lane_of event) (λ lane. lane < max_threads) }
        ensures { (past : List Event) → ShowOwners self.old past → ShowOwners self.new (event ∷ past) }
    {
        if let Some(lane) = event.lane() {
            self.partitions[lane as usize] = event.partition_begun();
        }
    }
}
