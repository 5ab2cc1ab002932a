//! By which class each partition failed.

ghost use Rattle.std.specs.Prelude.{◌≡◌, ◌<◌, List, [], ◌∷◌, IfSome};
ghost use Rattle.jb_base.specs.Limits.{max_partitions};
ghost use Rattle.jb_repo.specs.History.{failure_in, own, partition_of};
ghost use Rattle.jb_repo.specs.inside.Projection.{ShowFailures};

use crate::events::Event;
use jb_base::{ClassId, MAX_PARTITIONS};

/// The class of each partition's last Fail.
#[derive(Drop)]
pub struct Failures {
    classes: [Option<ClassId>; MAX_PARTITIONS],
}

impl Failures {
    /// No partition has a Fail.
    pub fn new() -> Self
        ensures { ShowFailures result [] }
    {
        Failures {
            classes: [None; MAX_PARTITIONS],
        }
    }

    /// The class of the partition's last Fail, if it has one.
    pub fn class_of(&self, partition: u32) -> Option<ClassId>
        requires { partition < max_partitions }
        ensures { (past : List Event) → ShowFailures self.now past → result ≡ failure_in (own partition past) }
    {
        self.classes[partition as usize]
    }

    /// One more event, which is about this partition, or about none.
    pub fn note(&mut self, event: Event, partition: Option<u32>)
        requires { IfSome partition (λ p. p < max_partitions) }
        ensures { (past : List Event) → partition_of event past ≡ partition → ShowFailures self.old past → ShowFailures self.new (event ∷ past) }
    {
        if let Some(partition) = partition {
            if let Event::Fail(_, class, _) = event {
                self.classes[partition as usize] = Some(class);
            }
        }
    }
}
