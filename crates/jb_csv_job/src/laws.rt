//! What comes of a job's files. Nothing is done here: the clause is the law.

ghost use Rattle.jb_csv_job.specs.SliceFiles.{LeftIsHeld};

/// The next call can resume what a crash leaves of a slice's files.
pub fn crashes_are_resumed()
    ensures { LeftIsHeld }
{}
