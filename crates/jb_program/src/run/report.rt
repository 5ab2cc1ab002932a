//! The report of a step that was run.

ghost use Rattle.std.specs.Prelude.{◌≡◌, ◌≢◌, ◌≤◌, ◌==◌, ℕ, ◌++◌, ◌∷◌, [], flat_map, length, map, find, IfOk, OnOk};
ghost use Rattle.std.specs.List.{enumerate_from};
ghost use Rattle.std.specs.Str.Lossy.{utf8_lossy};
ghost use Rattle.jb_base.specs.Limits.{max_partitions};
ghost use Rattle.jb_step.specs.Answers.{given_back};
ghost use Rattle.jb_texts.specs.ReportTokens.{step_tokens};
ghost use Rattle.jb_program.specs.StepRun.{committed_of, partitions_left};
ghost use Rattle.jb_program.specs.inside.Written.{lists_left, outputs_by, written_at};

use crate::run::artifacts::OwnArtifacts;
use crate::run::held::committed_by;
use jb_artifacts::Meaning;
use jb_base::PackedList;
use jb_collect::{AnalyzerCall, ReducerCall};
use jb_documents::WriterTexts;
use jb_rules::Row;
use jb_step::StepEnd;
use jb_texts::StepsText;
use std::alloc::{AllocError, Global};

/// What the writer of artifacts that came back holds, with their partition. All else of them is let go.
fn results_of(left: (u32, OwnArtifacts)) -> (u32, PackedList)
    ensures { result ∷ [] ≡ lists_left (given_back ⟦<OwnArtifacts as Meaning>⟧.meaning (left ∷ [])) }
{
    let (partition, own) = left;
    (partition, own.into_artifacts().inner.writer.into_written())
}

/// What the writers of the artifacts that came back hold. With the last of their readers the records are let go.
fn all_results(
    alloc: Global,
    left: Vec<(u32, OwnArtifacts)>,
) -> Result<Vec<(u32, PackedList)>, AllocError>
    ensures { IfOk result (λ lists. lists.items ≡ lists_left (given_back ⟦<OwnArtifacts as Meaning>⟧.meaning left.items)) }
{
    let mut lists = Vec::with_capacity(alloc, left.len())?;
    for one in left {
        lists.push(results_of(one))?;
    }
    Ok(lists)
}

/// Takes the results of a partition with this row out of the lists: what its writer held, if one came back, or what it committed before.
fn take_results(
    alloc: Global,
    lists: &mut Vec<(u32, PackedList)>,
    outputs: &[WriterTexts],
    partition: u32,
    row: &Row,
) -> Result<PackedList, AllocError>
    ensures results { IfOk result (λ results. map utf8_lossy results ≡ outputs_by (committed_of outputs.now (partition, row.now)) (find (λ one. one.0 == partition) lists.old.items)) }
    ensures others { (other : ℕ) → other ≢ partition → find (λ one. one.0 == other) lists.new.items ≡ find (λ one. one.0 == other) lists.old.items }
{
    match lists.iter().position(|one| one.0 == partition) {
        Some(place) => Ok(lists.remove(place).1),
        None => committed_by(alloc, outputs, partition, row.written),
    }
}

/// Adds the outputs of all partitions, which have these rows, one list after another.
fn add_all_outputs(
    alloc: Global,
    mut lists: Vec<(u32, PackedList)>,
    outputs: &[WriterTexts],
    rows: &[Row],
    text: &mut StepsText,
) -> Result<(), AllocError>
    requires { length rows.now ≤ max_partitions }
    ensures { OnOk result (text.new ≡ text.old ++ flat_map (written_at outputs.now lists.items) (enumerate_from 0 rows.now)) }
{
    for place in 0..rows.len() {
        let Some(row) = rows.get(place) else {
            unreachable!();
        };
        let results = take_results(alloc, &mut lists, outputs, place as u32, row)?;
        text.add_outputs(alloc, results)?;
    }
    Ok(())
}

/// Writes the report of a step that ended so, whose writers held these outputs before, and whose analyzer and reducer took
/// these calls. The records are let go before.
pub fn write_step(
    alloc: Global,
    id: &str,
    end: StepEnd<OwnArtifacts>,
    outputs: &[WriterTexts],
    heard: &[AnalyzerCall],
    reducer: &[ReducerCall],
    text: &mut StepsText,
) -> Result<(), AllocError>
    requires { length end.snapshot.rows.items ≤ max_partitions }
    ensures { OnOk result (text.new ≡ text.old ++ step_tokens (record {
      id = id.now;
      status = end.status;
      partitions = partitions_left outputs.now end.snapshot.rows.items (given_back ⟦<OwnArtifacts as Meaning>⟧.meaning end.artifacts.items);
      heard = heard.now;
      plans = end.plans.items;
      reducer = reducer.now;
    })) }
{
    let StepEnd {
        status,
        snapshot,
        plans,
        artifacts,
    } = end;
    let lists = all_results(alloc, artifacts)?;
    let rows = snapshot.rows.as_slice();
    let partitions = rows.len() as u32;
    text.begin_step(alloc, partitions, heard)?;
    add_all_outputs(alloc, lists, outputs, rows, text)?;
    text.end_step(alloc, rows, plans.as_slice(), reducer, status, id)
}
