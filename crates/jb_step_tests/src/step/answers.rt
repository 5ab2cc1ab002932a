//! How the tests write what comes of a step.

use crate::collect::{add_reduced, line_of};
use crate::lines::add_row;
use crate::step::given::GivenArtifacts;
use jb_artifacts::{ItemWriter, ListWriter};
use jb_collect::{Analyzer, Reducer};
use jb_repo::Snapshot;
use jb_rules::Row;
use jb_step::{PlanNote, StepEnd, StepError};
use std::alloc::{AllocError, Global};

/// Adds a line for a partition: its row's numbers, its state and its outputs, if it has artifacts.
pub(crate) fn add_partition(
    text: &mut String,
    alloc: Global,
    row: &Row,
    artifacts: Option<&GivenArtifacts>,
) -> Result<(), AllocError> {
    add_row(text, alloc, row)?;
    if let Some(artifacts) = artifacts {
        add_outputs(text, alloc, &artifacts.writer)?;
    }
    text.push_str("\n")
}

fn add_outputs(text: &mut String, alloc: Global, writer: &ListWriter) -> Result<(), AllocError> {
    for number in 0..writer.count() {
        if let Some(output) = writer.item_at(number) {
            text.push_str(" ")?;
            text.push_str(String::from_utf8_lossy(alloc, output)?.as_str())?;
        }
    }
    Ok(())
}

/// Adds what a run answered: its plans, or, if it has no answer, why, and the numbers of events and of plans of its history. Then the
/// analyzer's calls, the reducer's, and, if it has an answer, the status and the number of events.
pub(crate) fn add_answer(
    text: &mut String,
    alloc: Global,
    end: &Result<StepEnd<GivenArtifacts>, StepError>,
    table: &Snapshot,
    analyzer: &dyn Analyzer,
    reducer: &dyn Reducer,
) -> Result<(), AllocError> {
    match end {
        Ok(end) => add_plans(text, alloc, &end.plans)?,
        Err(error) => {
            let line = format!(in alloc; "{error:?} {} {}\n", table.events, table.plans)?;
            text.push_str(line.as_str())?;
        }
    }
    add_calls(text, alloc, analyzer, reducer)?;
    match end {
        Ok(end) => {
            let line = format!(in alloc; "{:?} {}\n", end.status, end.snapshot.events)?;
            text.push_str(line.as_str())
        }
        Err(_) => Ok(()),
    }
}

/// Adds a line for each plan.
fn add_plans(text: &mut String, alloc: Global, plans: &[PlanNote]) -> Result<(), AllocError> {
    for plan in plans {
        let line = format!(in alloc; "{} {} of {}\n", plan.certificate, plan.ran, plan.planned)?;
        text.push_str(line.as_str())?;
    }
    Ok(())
}

/// Adds a line of what the analyzer heard, and one of the reducer's calls.
fn add_calls(
    text: &mut String,
    alloc: Global,
    analyzer: &dyn Analyzer,
    reducer: &dyn Reducer,
) -> Result<(), AllocError> {
    let heard = line_of(alloc, analyzer.calls())?;
    let heard = String::from_utf8_lossy(alloc, heard.as_slice())?;
    text.push_str(heard.as_str())?;
    text.push_str(".\n")?;
    add_reduced(text, alloc, reducer)
}

/// Adds why there is no desk.
pub(crate) fn add_refusal(
    text: &mut String,
    alloc: Global,
    error: StepError,
    reducer: &dyn Reducer,
) -> Result<(), AllocError> {
    text.push_str(format!(in alloc; "no desk: {error:?}\n")?.as_str())?;
    add_reduced(text, alloc, reducer)
}
