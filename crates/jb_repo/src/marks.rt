//! Which lanes and partitions started a chunk in this round.

ghost use Rattle.std.specs.Prelude.{◌≡◌, ◌<◌, ◌≤◌, List, [], ◌∷◌};
ghost use Rattle.jb_base.specs.Limits.{max_events, max_partitions, max_threads};
ghost use Rattle.jb_repo.specs.History.{is_lane_marked, is_partition_marked};
ghost use Rattle.jb_repo.specs.inside.Projection.{ShowMarks, IsInPlace};

use crate::events::Event;
use crate::owners::LANES;
use jb_base::MAX_PARTITIONS;

/// The lanes and the partitions that a Begin named after the last Round. Each has the number of the round in which a Begin named it last,
/// and is marked if that is this round. So a Round takes all marks away by one number.
#[derive(Drop)]
pub struct Marks {
    /// The number of this round. The first one is 1, and 0 is no round.
    round: u64,
    lanes: [u64; LANES],
    partitions: [u64; MAX_PARTITIONS],
}

impl Marks {
    /// No marks.
    pub fn new() -> Self
        ensures { ShowMarks result [] }
    {
        Marks {
            round: 1,
            lanes: [0; LANES],
            partitions: [0; MAX_PARTITIONS],
        }
    }

    /// Whether the lane started a chunk in this round.
    pub fn has_lane(&self, lane: u32) -> bool
        requires { lane < max_threads }
        ensures { (past : List Event) → ShowMarks self.now past → result ≡ is_lane_marked lane past }
    {
        self.lanes[lane as usize] == self.round
    }

    /// Whether a chunk of the partition was started in this round.
    pub fn has_partition(&self, partition: u32) -> bool
        requires { partition < max_partitions }
        ensures { (past : List Event) → ShowMarks self.now past → result ≡ is_partition_marked partition past }
    {
        self.partitions[partition as usize] == self.round
    }

    /// One more event: a Begin marks its lane and its partition, a Round takes all marks away.
    pub fn note(&mut self, event: Event)
        requires place { IsInPlace event }
        requires few { self.old.round ≤ max_events }
        ensures { (past : List Event) → ShowMarks self.old past → ShowMarks self.new (event ∷ past) }
    {
        match event {
            Event::Begin(lane, partition) => {
                self.lanes[lane as usize] = self.round;
                self.partitions[partition as usize] = self.round;
            }
            Event::Round => self.round += 1,
            Event::Plan(_, _)
            | Event::Commit(_, _, _, _)
            | Event::Roll(_, _, _)
            | Event::Fail(_, _, _)
            | Event::Drop(_)
            | Event::Stop => {}
        }
    }
}
