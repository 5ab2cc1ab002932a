//! A round delivered to the ready analyzer, the ready reducer's calls, and the definitions computed on worked rows.

ghost use Rattle.jb_collect.specs.Worked.{FirstRunHeard, OneFailedHeard, StoppedAfterARound, NoRecordHeard, RolledBack, CallsTaken, ListedCalls, ReducerCalls, ReducerFaults};

use crate::lines::assert_text;
use crate::workers::most::{OneRecordTask, own_task};
use jb_base::{ArtifactError, ClassId, MAX_ROLLBACKS};
use jb_chunk::{Done, PartitionTask};
use jb_collect::{
    Analyzer, AnalyzerCall, ListAnalyzer, ListReducer, PartitionStatus, Reducer, deliver,
};
use std::alloc::{AllocError, Global};
use std::test::*;

/// What is heard, which calls are taken, and the reducer's calls, computed from the definitions alone.
fn worked_rows()
    ensures first_run { FirstRunHeard }
    ensures one_failed { OneFailedHeard }
    ensures stopped { StoppedAfterARound }
    ensures no_record { NoRecordHeard }
    ensures rolled_back { RolledBack }
    ensures taken { CallsTaken }
    ensures listed { ListedCalls }
    ensures reducer { ReducerCalls }
    ensures reducer_faults { ReducerFaults }
{}

/// The attempt of a partition of one record, which has the partition's number.
fn attempt(alloc: Global, partition: u32) -> Option<Done<OneRecordTask>> {
    let task = own_task(alloc, partition)?;
    let row = *task.row();
    if row.state.is_waiting() && row.counts.rollback < MAX_ROLLBACKS && row.in_place == 0 {
        Some(task.attempt(alloc))
    } else {
        None
    }
}

/// The attempts of a round of so many partitions.
fn round(alloc: Global, partitions: u32) -> Option<Vec<Done<OneRecordTask>>> {
    let mut dones = Vec::new(alloc);
    for partition in 0..partitions {
        dones.push(attempt(alloc, partition)?).ok()?;
    }
    Some(dones)
}

/// The calls, each followed by a blank.
pub(crate) fn line_of(alloc: Global, calls: &[AnalyzerCall]) -> Result<Vec<u8>, AllocError> {
    let mut line = Vec::new(alloc);
    for call in calls {
        add_call(&mut line, alloc, call)?;
        line.push(b' ')?;
    }
    Ok(line)
}

fn add_call(line: &mut Vec<u8>, alloc: Global, call: &AnalyzerCall) -> Result<(), AllocError> {
    match call {
        AnalyzerCall::Collected(_, text) => line.extend_from_slice(text.as_slice()),
        AnalyzerCall::Status(partition, status) => {
            let text = format!(in alloc; "{partition} {status:?}")?;
            line.extend_from_slice(text.as_bytes())
        }
    }
}

/// Whether an analyzer whose call of this number fails hears the round up to it, and its fault is answered.
fn is_told_up_to(alloc: Global, dones: &[Done<OneRecordTask>], number: u64) -> bool {
    let class = ClassId::new(5);
    let mut analyzer = ListAnalyzer::new(alloc, Some((number, class)));
    deliver(dones, &mut analyzer) == Err(ArtifactError::Fault(class))
        && analyzer.calls().len() as u64 == number.saturating_add(1)
}

/// A round of two partitions, reported to analyzers that fail at each of its calls, and at none.
#[test]
fn a_round_is_delivered(rt: HostRuntime) -> Result<(), Fail> {
    worked_rows();
    let dones = round(rt.alloc(), 2).ok_or("a round")?;
    for number in 0..6 {
        assert!(rt; is_told_up_to(rt.alloc(), &dones, number));
    }
    let mut analyzer = ListAnalyzer::new(rt.alloc(), Some((6, ClassId::new(5))));
    assert!(rt; deliver(&dones, &mut analyzer).is_ok());
    let line = line_of(rt.alloc(), analyzer.calls())?;
    let wanted = b"0:1:1 0:1:1:end 0 Completed 1:2:1 1:2:1:end 1 Completed ".as_slice();
    assert!(rt; line.as_slice() == wanted);
    Ok(())
}

/// A round of as many partitions as a step has.
#[test]
fn a_round_of_most_partitions_is_delivered(rt: HostRuntime) -> Result<(), Fail> {
    let dones = round(rt.alloc(), 1_024).ok_or("a round")?;
    let mut analyzer = ListAnalyzer::new(rt.alloc(), None);
    let is_told = deliver(&dones, &mut analyzer).is_ok();
    let calls = analyzer.calls();
    let is_last = matches!(calls.last(), Some(AnalyzerCall::Status(1_023, _)));
    assert!(rt; is_told && calls.len() == 3_072 && is_last);
    Ok(())
}

/// The third of a reducer's calls fails; it hears all four.
const REDUCED: &str =
    "Ok(()) Ok(()) Err(Fault(ClassId { number: 5 })) Ok(()) Begin Before Rollback After(Rollback) .\n";

#[test]
fn a_reducer_takes_its_calls(rt: HostRuntime) -> Result<(), Fail> {
    let alloc = rt.alloc();
    let mut reducer = ListReducer::new(alloc, Some((2, ClassId::new(5))));
    let begun = reducer.begin();
    let before = reducer.before_completion();
    let undone = reducer.rollback();
    let after = reducer.after(PartitionStatus::Rollback);
    let mut text = format!(in alloc; "{begun:?} {before:?} {undone:?} {after:?} ")?;
    add_reduced(&mut text, alloc, &reducer)?;
    assert_text(&rt, text.as_str(), REDUCED);
    Ok(())
}

/// Adds a line of the reducer's calls.
pub(crate) fn add_reduced(
    text: &mut String,
    alloc: Global,
    reducer: &dyn Reducer,
) -> Result<(), AllocError> {
    for call in reducer.calls() {
        text.push_str(format!(in alloc; "{call:?} ")?.as_str())?;
    }
    text.push_str(".\n")
}
