//! Laws of the tables of the job record. The functions do nothing: their contracts are the laws.

ghost use Rattle.jb_job.specs.Laws.{JobsHaveTrees, JobsKeepRanges, TextsAreRead};
ghost use Rattle.jb_job.specs.Worked.{JobRows};

/// A job that is read keeps the ranges of the record, whatever tree it is read from.
pub fn jobs_keep_ranges()
    ensures { JobsKeepRanges }
{}

/// A job within the ranges of the record has a tree that is read as that job.
pub fn jobs_have_trees()
    ensures { JobsHaveTrees }
{}

/// Reading the compact text of that tree gives the tree.
pub fn jobs_have_texts()
    ensures { TextsAreRead }
{}

/// What the definitions give for worked jobs.
pub fn worked_jobs()
    ensures { JobRows }
{}
