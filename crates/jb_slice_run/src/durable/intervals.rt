//! Interval after interval, each stored before the next begins.

ghost use Rattle.std.specs.Prelude.{◌≡◌, ◌≤◌, ◌+◌, List, None, IfErr, IfOk, IfSome, false, true};
ghost use Rattle.sqlite.specs.Held.{state};
ghost use Rattle.jb_slice_file.specs.CheckpointBytes.{CheckpointBytes};
ghost use Rattle.jb_slice_file.specs.ListEnd.{count_of};
ghost use Rattle.jb_slice_run.specs.Refusals.{IsRefusal};
ghost use Rattle.jb_slice_run.specs.durable.Ends.{BreaksOff};
ghost use Rattle.jb_slice_run.specs.durable.Work.{EndsAs, FileMatchesMemory, IfFileMatchesMemory, IsLater, LoopEndMatchesRows, SeenMatchesRows};
ghost use Rattle.jb_slice_run.specs.declared.durable.loop_end.LoopEnd.TheVariants.{Intervals, Whole};

use crate::durable::listener::{ProgressListener, progress_of};
use crate::durable::loop_end::LoopEnd;
use crate::durable::seen::Placed;
use crate::{Pace, ResumableRun, SliceError, SliceJob, Stage};
use jb_base::PackedList;
use jb_rows::RowFunction;
use jb_rules::Row;
use jb_slice_file::{ListEnd, append};
use sqlite::{Alter, Connection};
use std::alloc::Global;
use std::sync::Wait;
use std::thread::Threads;

/// One checkpoint more, stored in the database; false if the slice was whole.
fn advance<F: RowFunction + Drop + 'static, R: Threads + Wait + Sync, S: Alter>(
    rt: &R,
    alloc: Global,
    conn: &mut Connection<S>,
    job: &SliceJob,
    number: u64,
    function: &F,
    items: &PackedList,
    place: ResumableRun<F>,
    rounds: u64,
    end: &mut ListEnd,
) -> Result<(ResumableRun<F>, bool), SliceError>
    requires well { place.has_failed ≡ false }
    requires agrees { SeenMatchesRows (⟦<ResumableRun<F> as Placed>⟧.seen place) }
    ensures later { IsLater (state S.Store conn.old) (state S.Store conn.new) }
    ensures kept { IfFileMatchesMemory job.now (F.answer function.now) number items.now (state S.Store conn.old) (state S.Store conn.new) (⟦<ResumableRun<F> as Placed>⟧.seen place) end.old (λ w all. IfOk result (λ r. (now : List CheckpointBytes) × FileMatchesMemory w (state S.Store conn.new) (⟦<ResumableRun<F> as Placed>⟧.seen r.0) end.new now)) }
    ensures agrees { IfOk result (λ r. SeenMatchesRows (⟦<ResumableRun<F> as Placed>⟧.seen r.0)) }
    ensures counted { IfOk result (λ r. r.1 ≡ true → count_of end.new ≡ count_of end.old + 1) }
    ensures whole { IfOk result (λ r. r.1 ≡ false → EndsAs (⟦<ResumableRun<F> as Placed>⟧.seen r.0) Whole) }
    ensures own { IfErr result (λ e. IsRefusal e → ⊥) }
    ensures broken { IfFileMatchesMemory job.now (F.answer function.now) number items.now (state S.Store conn.old) (state S.Store conn.new) (⟦<ResumableRun<F> as Placed>⟧.seen place) end.old (λ w all. IfErr result (BreaksOff job.now w (state S.Store conn.old) (state S.Store conn.new))) }
{
    let (place, next) = place.next_checkpoint(rt, alloc, job, number, function, items, rounds)?;
    let Some(next) = next else {
        return Ok((place, false));
    };
    append(conn, end, next.saved.as_str(), next.results.as_slice())?;
    Ok((place, true))
}

/// The next interval takes this many times the rounds that the pace says. The factor doubles if a partition failed and no partition's checkpoint
/// moved. So partitions that fail again in each interval can't take all its rounds for ever.
fn next_factor(factor: u64, before: u64, rows: &[Row]) -> u64 {
    let is_held_up = progress_of(rows, 0).done == before;
    if is_held_up && rows.iter().any(|row| row.state.is_failed()) {
        factor.saturating_mul(2)
    } else {
        factor
    }
}

/// Reports to the listener how far the slice is by its last checkpoint, if an interval is stored. Then it says how the intervals end here: the slice
/// has failed, or the listener stops it and it isn't whole. `None` if they continue.
fn end_here<F: RowFunction + Drop, O: ProgressListener>(
    place: &ResumableRun<F>,
    items: usize,
    listener: &mut O,
) -> Option<LoopEnd>
    ensures ends { IfSome result (EndsAs (⟦<ResumableRun<F> as Placed>⟧.seen place.now)) }
    ensures uncut { IfSome result (λ loop_end. loop_end ≡ Intervals → ⊥) }
    ensures well { result ≡ None → place.now.has_failed ≡ false }
{
    let stops = matches!(place.stage, Stage::SomeIntervals)
        && !listener.on_progress(progress_of(&place.rows, items));
    if place.has_failed {
        return Some(LoopEnd::Failed);
    }
    if stops && !place.is_whole() {
        return Some(LoopEnd::Stopped);
    }
    None
}

/// Adds at most `intervals` checkpoints. Each is stored before the next interval begins. It ends earlier in three cases: the slice is whole; each
/// partition has ended and one failed; or the listener stops it after a checkpoint.
/// The partitions that failed in an interval are tried again in the next one, beside those that are unfinished.
pub(crate) fn run<
    F: RowFunction + Drop + 'static,
    P: Pace,
    O: ProgressListener,
    R: Threads + Wait + Sync,
    S: Alter,
>(
    rt: &R,
    alloc: Global,
    conn: &mut Connection<S>,
    job: &SliceJob,
    number: u64,
    function: &F,
    items: &PackedList,
    place: ResumableRun<F>,
    end: &mut ListEnd,
    intervals: u32,
    pace: &mut P,
    listener: &mut O,
) -> Result<(ResumableRun<F>, LoopEnd), SliceError>
    requires { SeenMatchesRows (⟦<ResumableRun<F> as Placed>⟧.seen place) }
    ensures later { IsLater (state S.Store conn.old) (state S.Store conn.new) }
    ensures kept { IfFileMatchesMemory job.now (F.answer function.now) number items.now (state S.Store conn.old) (state S.Store conn.new) (⟦<ResumableRun<F> as Placed>⟧.seen place) end.old (λ w all. IfOk result (λ r. (now : List CheckpointBytes) × FileMatchesMemory w (state S.Store conn.new) (⟦<ResumableRun<F> as Placed>⟧.seen r.0) end.new now)) }
    ensures agrees { IfOk result (λ r. LoopEndMatchesRows (⟦<ResumableRun<F> as Placed>⟧.seen r.0) r.1) }
    ensures cut { IfOk result (λ r. r.1 ≡ Intervals → intervals ≤ count_of end.new) }
    ensures own { IfErr result (λ e. IsRefusal e → ⊥) }
    ensures broken { IfFileMatchesMemory job.now (F.answer function.now) number items.now (state S.Store conn.old) (state S.Store conn.new) (⟦<ResumableRun<F> as Placed>⟧.seen place) end.old (λ w all. IfErr result (BreaksOff job.now w (state S.Store conn.old) (state S.Store conn.new))) }
{
    let mut place = place;
    let mut factor: u64 = 1;
    'intervals: for _ in 0..intervals {
        if let Some(loop_end) = end_here(&place, items.len(), listener) {
            return Ok((place, loop_end));
        }
        let rounds = pace.begin().saturating_mul(factor);
        let done = progress_of(&place.rows, items.len()).done;
        let (next, more) = advance(
            rt, alloc, conn, job, number, function, items, place, rounds, end,
        )?;
        pace.end();
        if !more {
            return Ok((next, LoopEnd::Whole));
        }
        factor = next_factor(factor, done, &next.rows);
        place = next;
    }
    Ok((place, LoopEnd::Intervals))
}
