//! A slice's run in memory, as contracts see it.

ghost use Rattle.std.specs.Prelude.{map};
ghost use Rattle.jb_slice_run.specs.Named.{faults_held};
ghost use Rattle.jb_slice_run.specs.durable.Work.{Seen};

use crate::ResumableRun;
use jb_records::{HasRunState, RecordsRun};
use jb_rows::RowFunction;

/// What contracts see of such a run.
pub(crate) trait Placed {
    ghost seen: { Self → Seen };
}

impl<F: RowFunction + Drop> Placed for ResumableRun<F> {
    ghost seen = { λ place. record {
      has_failed = place.has_failed;
      stage = place.stage;
      run = ⟦<RecordsRun<F> as HasRunState>⟧.run_state place.run;
      rows = place.rows.items;
      faults = map faults_held place.faults.items;
    } };
}
