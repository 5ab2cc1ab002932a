//! What the partitions work with, before the step's run.

ghost use Rattle.std.specs.Prelude.{◌≡◌, ◌+◌, ◌<◌, ◌^◌, ℕ, true, length, map, IfErr, IfOk, OnOk};
ghost use Rattle.std.specs.Arc.{arc_value};
ghost use Rattle.jb_artifacts.specs.declared.faults.FaultPlan.TheVariants.{Sound};
ghost use Rattle.jb_artifacts.specs.Faults.{plans_of, with_plan};
ghost use Rattle.jb_plan.specs.Plans.{IsWithin};
ghost use Rattle.jb_rules.specs.Rows.{range_of};
ghost use Rattle.jb_step.specs.preparing.Setup.{unfinished};
ghost use Rattle.jb_records.specs.Causes.{Explains, Make};
ghost use Rattle.jb_records.specs.inside.Calls.{CanBeginOver, HaveOwn};
ghost use Rattle.jb_records.specs.Steps.{AreFirstArtifacts, AreArtifactsOf};
ghost use Rattle.jb_records.specs.Artifacts.{AreNeverSkipped, IsFirstArtifactsOver, IsNeverSkipped, own_records, plan_of, tries_plan};

use crate::error::RecordsStepError;
use crate::records_processor::RecordsProcessor;
use crate::records_reader::RecordsReader;
use crate::step_function::StepFunction;
use jb_artifacts::{
    ArtifactsOf, CountCollector, FaultList, FaultPlan, FaultPlans, ListWriter, Meaning,
    PackedArtifacts,
};
use jb_base::{ClassId, PackedList, Rules};
use jb_chunk::BoxedArtifacts;
use jb_ready::{Notes, NotingProcessor};
use jb_rows::{Row as Fields, RowBuilder};
use jb_rules::Row;
use jb_step::Prepared;
use std::alloc::{AllocError, Global};
use std::sync::Arc;

/// What a partition works with: its records are lent, and the results of a chunk packed. The faults that it meets are noted.
pub type RecordsArtifacts<F> = BoxedArtifacts<
    PackedArtifacts<
        RecordsReader,
        NotingProcessor<RecordsProcessor<F>>,
        ListWriter,
        CountCollector,
    >,
>;

/// Whether none of these classes may be skipped.
fn are_never_skipped(rules: &Rules, classes: &[ClassId]) -> bool
    ensures never { result ≡ true → AreNeverSkipped rules.now classes.now }
    ensures skipped { AreNeverSkipped rules.now classes.now → result ≡ true }
{
    let Some((class, later)) = classes.split_first() else {
        return true;
    };
    if (rules.skippable / class.bit()) % 2 == 1 {
        return false;
    }
    are_never_skipped(rules, later)
}

/// Puts in the plan of the tries at a record that had none: one fails for each of these classes.
fn put_tries(tries: &mut FaultPlans, number: u64, classes: Vec<ClassId>) -> Result<(), AllocError>
    requires { plans_of tries.old number ≡ Sound }
    ensures { OnOk result ((k : ℕ) → plans_of tries.new k ≡ with_plan (plans_of tries.old) number (plan_of classes.items) k) }
{
    if classes.is_empty() {
        return Ok(());
    }
    tries.insert(number, FaultPlan::Shaky(FaultList::from_vec(classes)))
}

/// The fault plans of the tries at these records, the first of which has the number `first`.
fn tries_of<F: StepFunction>(
    alloc: Global,
    function: &F,
    rules: &Rules,
    first: u64,
    records: &PackedList,
) -> Result<FaultPlans, RecordsStepError>
    requires { first + length records.now < 2 ^ 64 }
    ensures never_skipped { IfOk result (λ tries. (k : ℕ) → IsNeverSkipped rules.now (plans_of tries k)) }
    ensures why { IfErr result (Explains (Make (F.function function.now) rules.now first records.now)) }
    ensures tries { IfOk result (λ tries. (k : ℕ) → plans_of tries k ≡ tries_plan (F.function function.now) first records.now k) }
{
    let mut tries = FaultPlans::new(alloc);
    for index in 0..records.len() {
        let number = first + index as u64;
        let classes = function.tries_of(alloc, &Fields::of(records.at(index)))?;
        if !are_never_skipped(rules, &classes) {
            return Err(RecordsStepError::SkippedTry);
        }
        put_tries(&mut tries, number, classes)?;
    }
    Ok(tries)
}

/// A copy of these records, or results.
pub(crate) fn copy_of(alloc: Global, list: &PackedList) -> Result<PackedList, AllocError>
    ensures { IfOk result (λ copy. copy ≡ list.now) }
{
    let mut copy = PackedList::new(alloc);
    copy.append(list)?;
    Ok(copy)
}

/// What the partition of this row works with, with the results that it has.
fn artifacts_of<F: StepFunction + Drop>(
    alloc: Global,
    function: &Arc<F, Global>,
    rules: &Rules,
    records: &PackedList,
    row: &Row,
    results: &PackedList,
) -> Result<RecordsArtifacts<F>, RecordsStepError>
    requires { IsWithin (length records.now) (range_of row.now) }
    ensures why { IfErr result (Explains (Make (F.function (arc_value function.now)) rules.now 0 records.now)) }
    ensures artifacts { IfOk result (λ artifacts. IsFirstArtifactsOver (F.function (arc_value function.now)) rules.now row.now.lo (own_records records.now row.now) (⟦<RecordsArtifacts<F> as Meaning>⟧.meaning artifacts)) }
    ensures results { IfOk result (λ artifacts. (⟦<RecordsArtifacts<F> as Meaning>⟧.meaning artifacts).writer.written ≡ results.now) }
{
    let own = records.part(alloc, row.lo as usize, row.hi as usize)?;
    let tries = tries_of(alloc, &**function, rules, row.lo, &own)?;
    let own = Arc::new(alloc, own)?;
    let processor = RecordsProcessor {
        alloc,
        function: Arc::try_clone(function)?,
        first: row.lo,
        records: Arc::try_clone(&own)?,
        tries,
        built: RowBuilder::new(alloc),
    };
    let inner = ArtifactsOf {
        reader: RecordsReader::new(alloc, row.lo, own),
        processor: NotingProcessor {
            inner: processor,
            notes: Notes::new(alloc),
        },
        writer: ListWriter::new(copy_of(alloc, results)?, FaultPlans::new(alloc)),
        collector: CountCollector::new(alloc),
    };
    let artifacts = BoxedArtifacts::new(alloc, PackedArtifacts { inner })?;
    Ok(artifacts)
}

/// What these partitions work with, each with its share of the earlier results.
fn artifacts_for<F: StepFunction + Drop>(
    alloc: Global,
    function: &Arc<F, Global>,
    rules: &Rules,
    records: &PackedList,
    prepared: &Prepared,
    partition_results: &[PackedList],
    partitions: &[u32],
) -> Result<Vec<RecordsArtifacts<F>>, RecordsStepError>
    requires { HaveOwn (length records.now) prepared.now.rows partition_results.now partitions.now }
    ensures why { IfErr result (Explains (Make (F.function (arc_value function.now)) rules.now 0 records.now)) }
    ensures artifacts { IfOk result (λ all. AreArtifactsOf (F.function (arc_value function.now)) rules.now records.now partition_results.now prepared.now.rows partitions.now (map ⟦<RecordsArtifacts<F> as Meaning>⟧.meaning all.items)) }
{
    let Some((partition, others)) = partitions.split_first() else {
        return Ok(Vec::new(alloc));
    };
    let Some(row) = prepared.row(*partition) else {
        unreachable!();
    };
    let Some(share) = partition_results.get(*partition as usize) else {
        unreachable!();
    };
    let artifacts = artifacts_of(alloc, function, rules, records, row, share)?;
    let mut all = artifacts_for(
        alloc,
        function,
        rules,
        records,
        prepared,
        partition_results,
        others,
    )?;
    all.insert(0, artifacts)?;
    Ok(all)
}

/// What the unfinished partitions work with. Each has its share of the earlier results.
pub(crate) fn all_artifacts<F: StepFunction + Drop>(
    alloc: Global,
    function: &Arc<F, Global>,
    rules: &Rules,
    records: &PackedList,
    prepared: &Prepared,
    partition_results: &[PackedList],
) -> Result<Vec<RecordsArtifacts<F>>, RecordsStepError>
    requires { CanBeginOver (length records.now) prepared.now.rows partition_results.now }
    ensures why { IfErr result (Explains (Make (F.function (arc_value function.now)) rules.now 0 records.now)) }
    ensures artifacts { IfOk result (λ all. AreFirstArtifacts (F.function (arc_value function.now)) rules.now records.now partition_results.now (unfinished prepared.now.rows) (map ⟦<RecordsArtifacts<F> as Meaning>⟧.meaning all.items)) }
{
    let all = artifacts_for(
        alloc,
        function,
        rules,
        records,
        prepared,
        partition_results,
        prepared.needs(),
    )?;
    Ok(all)
}
