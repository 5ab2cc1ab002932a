//! A job and its parts.

use crate::classes::Classes;
use crate::steps::Steps;
use jb_base::{ClassId, Name, Ranges, Rules};
use std::marker::Model;

/// What a step asks of its partitions.
///
/// Contracts see the record of the four values that its methods show.
#[derive(Debug, Drop)]
pub struct Spec {
    partitions: u32,
    threads: u32,
    replace: bool,
    ranges: Option<Ranges>,
}

impl Model for Spec {
    ghost use Rattle.jb_job.specs.Kept.{IsSpec};
    ghost use Rattle.jb_job.specs.Records.{SpecRecord};

    ghost Value = { SpecRecord };

    ghost view = { λ s. record { partitions = s.partitions; threads = s.threads; replace = s.replace; ranges = s.ranges } };

    ghost invariant = { λ s. IsSpec (record { partitions = s.partitions; threads = s.threads; replace = s.replace; ranges = s.ranges }) };
}

impl Spec {
    ghost use Rattle.std.specs.Prelude.{◌≡◌, ◌≤◌, All, IfSome, length, option_map};
    ghost use Rattle.jb_base.specs.Range.{IsNumbered};
    ghost use Rattle.jb_base.specs.Limits.{max_partitions_asked, max_ranges, max_threads_asked};

    /// What a step asks for: 1 to 4,096 partitions and at most 4,096 threads. In place of a number of partitions it may
    /// have at most 4,096 ranges of records numbered to 10,000,000, one for each partition. `partitions` is 1 then.
    pub fn new(partitions: u32, threads: u32, replace: bool, ranges: Option<Ranges>) -> Spec
        requires some { 1 ≤ partitions }
        requires few { partitions ≤ max_partitions_asked }
        requires threads { threads ≤ max_threads_asked }
        requires few_ranges { IfSome ranges (λ ranges. length ranges ≤ max_ranges) }
        requires numbered { IfSome ranges (All IsNumbered) }
        requires ranges_alone { IfSome ranges (λ _. partitions ≡ 1) }
        ensures { result ≡ record { partitions = partitions; threads = threads; replace = replace; ranges = ranges } }
    {
        Spec {
            partitions,
            threads,
            replace,
            ranges,
        }
    }

    /// The number of even partitions, if there are no ranges: 1 to 4,096.
    pub fn partitions(&self) -> u32
        ensures value { result ≡ self.now.partitions }
        ensures least { 1 ≤ result }
        ensures most { result ≤ max_partitions_asked }
    {
        self.partitions
    }

    /// The number of threads asked for, at most 4,096. 0 asks for as many as there are partitions.
    pub fn threads(&self) -> u32
        ensures value { result ≡ self.now.threads }
        ensures most { result ≤ max_threads_asked }
    {
        self.threads
    }

    /// Whether a restart begins from the start, as Jakarta's `override` says.
    pub fn replace(&self) -> bool
        ensures { result ≡ self.now.replace }
    {
        self.replace
    }

    /// The partitions' ranges, if the plan gives them: at most 4,096, of records numbered to 10,000,000.
    pub fn ranges(&self) -> Option<&Ranges>
        ensures value { option_map (λ r. r.now) result ≡ self.now.ranges }
        ensures few { IfSome self.now.ranges (λ ranges. length ranges ≤ max_ranges) }
        ensures numbered { IfSome self.now.ranges (All IsNumbered) }
    {
        self.ranges.as_ref()
    }

    /// The ranges, by value.
    pub fn into_ranges(self) -> Option<Ranges>
        ensures { result ≡ self.ranges }
    {
        let Spec { ranges, .. } = self;
        ranges
    }
}

/// A chunk step.
///
/// Contracts see the record of the four values that its methods show.
#[derive(Debug, Drop)]
pub struct Step {
    id: Name,
    item_count: u64,
    rules: Rules,
    spec: Spec,
}

impl Model for Step {
    ghost use Rattle.std.specs.Prelude.{◌≤◌};
    ghost use Rattle.jb_base.specs.Limits.{max_item_count};
    ghost use Rattle.jb_job.specs.Records.{StepRecord};

    ghost Value = { StepRecord };

    ghost view = { λ s. record { id = s.id; item_count = s.item_count; rules = s.rules; spec = s.spec } };

    ghost invariant = { λ s. (1 ≤ s.item_count) × (s.item_count ≤ max_item_count) };
}

impl Step {
    ghost use Rattle.std.specs.Prelude.{◌≡◌, ◌≤◌};
    ghost use Rattle.jb_base.specs.Name.{IsName};
    ghost use Rattle.jb_base.specs.Limits.{max_item_count};

    /// A step with an item count of 1 to 1,000,000.
    pub fn new(id: Name, item_count: u64, rules: Rules, spec: Spec) -> Step
        requires some { 1 ≤ item_count }
        requires few { item_count ≤ max_item_count }
        ensures { result ≡ record { id = id; item_count = item_count; rules = rules; spec = spec } }
    {
        Step {
            id,
            item_count,
            rules,
            spec,
        }
    }

    /// The step's name within its job, 1 to 64 bytes.
    pub fn id(&self) -> &str
        ensures value { result.now ≡ self.now.id }
        ensures kept { IsName result.now }
    {
        self.id.as_str()
    }

    /// The number of items of a chunk, 1 to 1,000,000.
    pub fn item_count(&self) -> u64
        ensures value { result ≡ self.now.item_count }
        ensures least { 1 ≤ result }
        ensures most { result ≤ max_item_count }
    {
        self.item_count
    }

    /// What is skipped and what is retried.
    pub fn rules(&self) -> Rules
        ensures { result ≡ self.now.rules }
    {
        self.rules
    }

    /// What the step asks of its partitions.
    pub fn spec(&self) -> &Spec
        ensures { result.now ≡ self.now.spec }
    {
        &self.spec
    }

    /// The name and what the step asks of its partitions, by value.
    pub fn into_parts(self) -> (Name, Spec)
        ensures id { result.0 ≡ self.id }
        ensures spec { result.1 ≡ self.spec }
    {
        let Step { id, spec, .. } = self;
        (id, spec)
    }
}

/// A job: its fault classes and its steps, which run in their order.
#[derive(Debug, Drop)]
pub struct Job {
    /// The job's name.
    pub id: Name,
    /// The fault classes that the job declares.
    pub classes: Classes,
    /// The steps. No two have the same id.
    pub steps: Steps,
}

impl Job {
    ghost use Rattle.std.specs.Prelude.{◌≡◌, position, bytes_eq, option_map};

    /// The fault class of a name, or None if the job declares no such class.
    pub fn class(&self, name: &str) -> Option<ClassId>
        ensures { option_map (λ class. class.number) result ≡ position (bytes_eq name.now) self.now.classes }
    {
        self.classes.class(name)
    }
}
