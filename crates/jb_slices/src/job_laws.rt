//! What comes of a job's checkpoints. Nothing is done here: the clauses are the laws.

ghost use Rattle.jb_slices.specs.JobLaws.{EndedJobsAreEither, FailedJobsDont, LastSlicesAreOne, SlicesAreApart, WholeJobsHaveAll, WholeJobsHaveSkips, WholeJobsPass, WholeSlicesAreAFront};

/// A whole job has the results of all items, each once and in order, and the faults that it skipped. Those of its first whole slices are a
/// front of the results.
pub fn jobs_have_results()
    ensures all { WholeJobsHaveAll }
    ensures skips { WholeJobsHaveSkips }
    ensures front { WholeSlicesAreAFront }
{}

/// One slice at most is the last one.
#[tactic(auto, using(crate::proofs::Jobs::not_before))]
pub fn one_slice_is_last()
    ensures { LastSlicesAreOne }
{}

/// A job completes only if its items pass the rules, and fails only if they don't. Once it has ended, it has completed or failed.
pub fn jobs_follow_the_rules()
    ensures completed { WholeJobsPass }
    ensures failed { FailedJobsDont }
    ensures either { EndedJobsAreEither }
{}

/// A change to one slice's list leaves the lists of the others.
#[tactic(auto, using(crate::proofs::Apart::apart))]
pub fn slices_are_apart()
    ensures { SlicesAreApart }
{}
