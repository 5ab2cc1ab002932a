//! Raised limits, parts, and the rule of faults. Nothing is done here: the clauses are the laws.

ghost use Rattle.jb_slices.specs.Deciding.{FailsDont, SkipsPass};
ghost use Rattle.jb_slices.specs.Example.{SomeAreSoFar, SomeAreWhole, SomeFail};
ghost use Rattle.jb_slices.specs.LimitLaws.{RaisedJobsStayWhole, RaisedLimitsPass, RaisedLimitsPassAll};
ghost use Rattle.jb_slices.specs.PartLaws.{CollectsAreJobs, EachIsInAPart, PartsAreApart};

/// What passed still passes under raised limits, and a whole job stays whole.
pub fn raised_limits_keep()
    ensures each { RaisedLimitsPass }
    ensures all { RaisedLimitsPassAll }
    ensures whole { RaisedJobsStayWhole }
{}

/// Each slice is in one part, and a collect is a job.
pub fn parts_cover()
    ensures apart { PartsAreApart }
    ensures each { EachIsInAPart }
    ensures collect { CollectsAreJobs }
{}

/// What becomes of faults one by one is what the rules let pass of them all.
#[tactic(auto, using(crate::proofs::Deciding::skips, crate::proofs::Deciding::fails))]
pub fn choices_are_the_rules()
    ensures skip { SkipsPass }
    ensures fail { FailsDont }
{}

/// Such checkpoints exist: those of a whole job, of a failed one, and of one that continues though a slice failed.
#[tactic(auto, using(crate::proofs::Examples::some_whole, crate::proofs::Examples::some_fail, crate::proofs::Examples::some_so_far))]
pub fn some_are_there()
    ensures whole { SomeAreWhole }
    ensures failed { SomeFail }
    ensures so_far { SomeAreSoFar }
{}
