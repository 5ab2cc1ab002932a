//! What comes of a slice's checkpoints. Nothing is done here: the clauses are the laws.

ghost use Rattle.jb_slices.specs.Failures.{EachFailureIsNamed, FailuresAreNamed};
ghost use Rattle.jb_slices.specs.Refusals.{OwnSlicesArentRefused};
ghost use Rattle.jb_slices.specs.SliceLaws.{FailedSlicesDont, FrontsAreSoFar, FirstIsHeader, OneMoreFollows, HeadersIdentifySlices, WholeSlicesHaveAll, WholeSlicesHaveSkips, WholeSlicesPass};

/// A whole slice has the results of all its items, each once and in order, and the faults that it skipped.
pub fn slices_have_results()
    ensures all { WholeSlicesHaveAll }
    ensures skips { WholeSlicesHaveSkips }
{}

/// A slice so far stays so with one more checkpoint that may follow, and so does a front of its checkpoints.
#[tactic(auto, using(crate::proofs::Following::one_more, crate::proofs::Following::follow_parts))]
pub fn slices_follow()
    ensures more { OneMoreFollows }
    ensures front { FrontsAreSoFar }
{}

/// The header names the job, the slice's number and the items.
pub fn headers_identify_slices()
    ensures each { FirstIsHeader }
    ensures told { HeadersIdentifySlices }
    ensures own { OwnSlicesArentRefused }
{}

/// A slice is whole only if the items of each partition pass the rules, and fails only if those of some partition don't.
pub fn slices_follow_the_rules()
    ensures whole { WholeSlicesPass }
    ensures failed { FailedSlicesDont }
{}

/// The list of a slice names the fault by which each failed partition failed.
#[tactic(auto, using(crate::proofs::Naming::both))]
pub fn failures_are_named()
    ensures each { FailuresAreNamed }
    ensures all { EachFailureIsNamed }
{}
