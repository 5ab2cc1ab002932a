//! What comes of rows as progresses. Nothing is done here: the clauses are the laws.

ghost use Rattle.jb_slice_run.specs.RowLaws.{EndsAreOfRows, EvenRowsAreInOrder, FirstIntervalsFollow, GrownIsProgress, IdleRowsArePlaced, LaterIntervalsFollow, ProgressesHaveRows, RestartedRowsArePlaced, RowsAreSoFar, SoFarAreRows, StampsAreOf, StopsAreNamed};
ghost use Rattle.jb_slice_run.specs.Step.{StepsDivideSlices};

use jb_records::rules_are_kept;

/// The rows of a slice's step give progresses of its partitions, and these give the rows back. With new output added, progresses are those of the
/// later rows, and these follow as an interval. Partitions have ended exactly if their rows have.
pub fn rows_are_progress()
    ensures so_far { RowsAreSoFar }
    ensures back { SoFarAreRows }
    ensures have { ProgressesHaveRows }
    ensures stops { StopsAreNamed }
    ensures order { EvenRowsAreInOrder }
    ensures idle { IdleRowsArePlaced }
    ensures restarted { RestartedRowsArePlaced }
    ensures grown { GrownIsProgress }
    ensures begins { FirstIntervalsFollow }
    ensures later { LaterIntervalsFollow }
    ensures ends { EndsAreOfRows }
    ensures stamps { StampsAreOf }
    ensures ranges { StepsDivideSlices }
{
    rules_are_kept();
}
