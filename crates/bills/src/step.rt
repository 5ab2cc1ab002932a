//! The step: its partitions, what each works with, and its run.

ghost use Rattle.std.specs.Prelude.{◌≡◌, ◌≤◌, length};
ghost use Rattle.jb_base.specs.Limits.{max_parts, max_records};

use crate::bill::Tariff;
use crate::processor::BillProcessor;
use crate::reader::{UsageReader, unbilled};
use crate::writer::BillWriter;
use jb_artifacts::{ArtifactsOf, CountCollector};
use jb_base::{DEFAULT_RETRY_LIMIT, MAX_PARTS, Name, PackedList, Rules};
use jb_chunk::Task;
use jb_collect::{FaultlessAnalyzer, FaultlessReducer};
use jb_job::{Spec, Step};
use jb_mapper::EvenMapper;
use jb_ready::{Classes, Notes, NotingReader};
use jb_step::{Prepared, StepEnd, StepError, prepare, run_pooled_step};
use jb_workers::NoGate;
use std::alloc::{AllocError, Global};
use std::marker::Brand;
use std::sync::ledger::{Blank, Ledger};
use std::sync::{Arc, Wait};
use std::thread::Threads;

/// What a partition works with. The records that it can't read are noted.
pub type BillArtifacts = ArtifactsOf<
    NotingReader<UsageReader>,
    BillProcessor,
    BillWriter,
    CountCollector,
>;

const TARIFF: Tariff = Tariff {
    standing: 500,
    per_unit: 30,
};

const PARTITIONS: u32 = 8;

const THREADS: u32 = 4;

const ITEM_COUNT: u64 = 2;

/// A record that has no bill is skipped. No other call fails, so nothing is retried.
fn rules() -> Rules {
    Rules {
        skippable: Classes::of(&[unbilled()]).bits(),
        retryable: Classes::none().bits(),
        no_rollback: Classes::none().bits(),
        skip_limit: None,
        retry_limit: DEFAULT_RETRY_LIMIT,
    }
}

/// What a partition works with as it begins.
fn new_artifacts(
    alloc: Global,
    usage: &Arc<PackedList, Global>,
) -> Result<BillArtifacts, AllocError> {
    Ok(ArtifactsOf {
        reader: NotingReader {
            inner: UsageReader {
                alloc,
                tariff: TARIFF,
                usage: Arc::try_clone(usage)?,
                place: 0,
            },
            notes: Notes::new(alloc),
        },
        processor: BillProcessor {
            alloc,
            tariff: TARIFF,
        },
        writer: BillWriter {
            bills: PackedList::new(alloc),
        },
        collector: CountCollector::new(alloc),
    })
}

/// Runs the step over this usage to its end.
pub fn run<R: Threads + Wait + Sync>(
    rt: &R,
    alloc: Global,
    usage: PackedList,
) -> Result<StepEnd<BillArtifacts>, StepError>
    requires { length usage ≤ max_records }
{
    let count = usage.len() as u64;
    let usage = Arc::new(alloc, usage)?;
    let id = Name::new(String::from_str(alloc, "bills")?);
    let step = Step::new(
        id,
        ITEM_COUNT,
        rules(),
        Spec::new(PARTITIONS, THREADS, false, None),
    );
    let mut mapper = EvenMapper::new(alloc, PARTITIONS, THREADS, false);
    let mut reducer = FaultlessReducer::new(alloc);
    let prepared = prepare(alloc, &step, count, &mut mapper, &mut reducer, None)?;
    let mut artifacts = Vec::new(alloc);
    for _ in prepared.needs() {
        artifacts.push(new_artifacts(alloc, &usage)?)?;
    }
    let blank = Blank::new(MAX_PARTS);
    over_desk::<Brand, R>(rt, alloc, blank, prepared, artifacts, reducer)
}

/// Runs it over its own desk, whose ledger has the name of `L`.
fn over_desk<L: Ledger + Send + Sync + 'static, R: Threads + Wait + Sync>(
    rt: &R,
    alloc: Global,
    blank: Blank,
    prepared: Prepared,
    artifacts: Vec<BillArtifacts>,
    reducer: FaultlessReducer,
) -> Result<StepEnd<BillArtifacts>, StepError>
    requires name { blank.name ≡ L.name }
    requires parts { blank.parts ≡ L.parts }
    requires all { blank.parts ≡ max_parts }
{
    let desk = prepared.desk::<L>(alloc, blank)?;
    let analyzer = FaultlessAnalyzer::new(alloc);
    let (end, _, _) = run_pooled_step::<Task<BillArtifacts>, L, NoGate, R>(
        rt, alloc, &desk, prepared, artifacts, analyzer, reducer, None, &NoGate,
    );
    end
}
