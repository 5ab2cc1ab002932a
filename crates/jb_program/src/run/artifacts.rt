//! What the partitions of a step work with.

ghost use Rattle.std.specs.Prelude.{◌≡◌, ◌<◌, ◌+◌, ◌++◌, All, drop, length, map, IfOk, OnOk};
ghost use Rattle.std.specs.Arc.{arc_value};
ghost use Rattle.jb_artifacts.specs.Prefix.{prefixed};
ghost use Rattle.jb_base.specs.declared.range.Range.{Range};
ghost use Rattle.jb_plan.specs.Plans.{IsWithin};
ghost use Rattle.jb_rules.specs.Rows.{range_of};
ghost use Rattle.jb_step.specs.preparing.Setup.{needs, unfinished};
ghost use Rattle.jb_program.specs.PartitionRun.{plans_in, records_in, opening_artifacts_for, opening_artifacts};
ghost use Rattle.jb_program.specs.StepRun.{all_opening_artifacts};

use crate::run::fault_plans::plans_for;
use crate::run::held::held_list;
use crate::run::settings::StepSettings;
use crate::run::shared_reader::SharedReader;
use jb_artifacts::{
    ArtifactsOf, CountCollector, Item, ItemProcessor, ItemReader, ItemWriter, ListWriter, Meaning,
    PackedArtifacts, PrefixProcessor,
};
use jb_base::{PackedList, Range, Text};
use jb_chunk::BoxedArtifacts;
use jb_documents::WriterTexts;
use jb_rules::Row;
use jb_step::Prepared;
use std::alloc::{AllocError, Global};
use std::sync::Arc;

/// What a partition of the program works with.
pub type OwnArtifacts = BoxedArtifacts<
    PackedArtifacts<SharedReader, PrefixProcessor, ListWriter, CountCollector>,
>;

/// A reader of the range's records.
fn reader_for(
    alloc: Global,
    step: &StepSettings,
    records: Arc<PackedList>,
    range: Range,
) -> Result<SharedReader, AllocError>
    requires { IsWithin (length (arc_value records)) range }
    ensures { IfOk result (λ r. ⟦<SharedReader as ItemReader>⟧.reader r ≡ record {
      first = range.lo;
      records = records_in (arc_value records) range;
      place = range.lo;
      faults = plans_in step.now.faults.read range;
    }) }
{
    let faults = plans_for(alloc, &step.faults.read, range)?;
    Ok(SharedReader::new(alloc, records, range, faults))
}

/// A copy of the text.
fn item_of(alloc: Global, text: &Text) -> Result<Item, AllocError>
    ensures { IfOk result (λ item. item ≡ text.now) }
{
    Item::copy_of(alloc, text.as_str().as_bytes())
}

/// A processor that puts the step's prefix before each item.
fn processor_for(
    alloc: Global,
    step: &StepSettings,
    range: Range,
) -> Result<PrefixProcessor, AllocError>
    ensures { IfOk result (λ p. ⟦<PrefixProcessor as ItemProcessor>⟧.processor p ≡ record {
      answer = λ _ item. prefixed step.now.prefix step.now.drop item;
      faults = plans_in step.now.faults.process range;
    }) }
{
    let prefix = item_of(alloc, &step.prefix)?;
    let faults = plans_for(alloc, &step.faults.process, range)?;
    let dropped = match &step.drop {
        None => None,
        Some(text) => Some(item_of(alloc, text)?),
    };
    Ok(PrefixProcessor::new(alloc, prefix, dropped, faults))
}

/// A writer that holds these results.
fn writer_for(
    alloc: Global,
    step: &StepSettings,
    held: PackedList,
    range: Range,
) -> Result<ListWriter, AllocError>
    ensures { IfOk result (λ w. ⟦<ListWriter as ItemWriter>⟧.writer w ≡ record { written = held; faults = plans_in step.now.faults.write range }) }
{
    let faults = plans_for(alloc, &step.faults.write, range)?;
    Ok(ListWriter::new(held, faults))
}

/// What a partition works with before it begins.
fn artifacts_for(
    alloc: Global,
    step: &StepSettings,
    records: Arc<PackedList>,
    held: PackedList,
    range: Range,
) -> Result<OwnArtifacts, AllocError>
    requires { IsWithin (length (arc_value records)) range }
    ensures { IfOk result (λ own. ⟦<OwnArtifacts as Meaning>⟧.meaning own ≡ opening_artifacts step.now (records_in (arc_value records) range) held range) }
{
    let inner = ArtifactsOf {
        reader: reader_for(alloc, step, records, range)?,
        processor: processor_for(alloc, step, range)?,
        writer: writer_for(alloc, step, held, range)?,
        collector: CountCollector::new(alloc),
    };
    let boxed = BoxedArtifacts::new(alloc, PackedArtifacts { inner })?;
    Ok(boxed)
}

/// What the partition of this row works with, whose writer holds these texts.
fn artifacts_of_row(
    alloc: Global,
    step: &StepSettings,
    records: &Arc<PackedList>,
    held: PackedList,
    row: &Row,
) -> Result<OwnArtifacts, AllocError>
    requires { IsWithin (length (arc_value records.now)) (range_of row.now) }
    ensures { IfOk result (λ own. ⟦<OwnArtifacts as Meaning>⟧.meaning own ≡ opening_artifacts step.now (records_in (arc_value records.now) (range_of row.now)) held (range_of row.now)) }
{
    let range = Range {
        lo: row.lo,
        hi: row.hi,
    };
    let records = Arc::try_clone(records)?;
    artifacts_for(alloc, step, records, held, range)
}

/// Adds what the unfinished partition at this place of their list works with.
fn add_artifacts(
    alloc: Global,
    step: &StepSettings,
    records: &Arc<PackedList>,
    outputs: &[WriterTexts],
    prepared: &Prepared,
    place: usize,
    all: &mut Vec<OwnArtifacts>,
) -> Result<(), AllocError>
    requires within { All (IsWithin (length (arc_value records.now))) (map range_of prepared.now.rows) }
    requires place { place < length (needs prepared.now.rows) }
    ensures { OnOk result (map ⟦<OwnArtifacts as Meaning>⟧.meaning all.new.items ++ map (opening_artifacts_for step.now (arc_value records.now) outputs.now) (drop (place + 1) (unfinished prepared.now.rows))
        ≡ map ⟦<OwnArtifacts as Meaning>⟧.meaning all.old.items ++ map (opening_artifacts_for step.now (arc_value records.now) outputs.now) (drop place (unfinished prepared.now.rows))) }
{
    let partition = prepared.needs()[place];
    let Some(row) = prepared.row(partition) else {
        unreachable!();
    };
    let held = held_list(alloc, outputs, partition)?;
    all.push(artifacts_of_row(alloc, step, records, held, row)?)?;
    Ok(())
}

/// What the unfinished partitions work with, in their order. Their readers share the records, and each writer begins with a copy
/// of the texts that it held.
pub fn all_artifacts(
    alloc: Global,
    step: &StepSettings,
    records: PackedList,
    outputs: &[WriterTexts],
    prepared: &Prepared,
) -> Result<Vec<OwnArtifacts>, AllocError>
    requires { All (IsWithin (length records)) (map range_of prepared.now.rows) }
    ensures { IfOk result (λ all. map ⟦<OwnArtifacts as Meaning>⟧.meaning all.items ≡ all_opening_artifacts step.now records outputs.now prepared.now.rows) }
{
    let shared = Arc::new(alloc, records)?;
    let mut all = Vec::new(alloc);
    for place in 0..prepared.needs().len() {
        add_artifacts(alloc, step, &shared, outputs, prepared, place, &mut all)?;
    }
    Ok(all)
}
