//! What a run of a step leaves to the next one.

use crate::lines::{has, value};
use crate::step::answers::add_partition;
use crate::step::beginning::STEP;
use crate::step::given::{GivenArtifacts, artifacts, artifacts_from};
use jb_artifacts::ArtifactsOf;
use jb_collect::Status;
use jb_repo::Snapshot;
use jb_rules::Row;
use jb_step::{Saved, StepEnd, StepError, read_saved, saved_text, written_and_read};
use std::alloc::{AllocError, Global};
use std::test::*;

/// What a run leaves: its rows, as it shows them and as they were saved, and the artifacts of the partitions, each with its number.
#[derive(Drop)]
pub(crate) struct Between {
    saved: Option<String>,
    rows: Vec<Row>,
    artifacts: Vec<(u32, GivenArtifacts)>,
}

impl Between {
    /// Nothing is left yet.
    pub(crate) fn nothing(alloc: Global) -> Between {
        Between {
            saved: None,
            rows: Vec::new(alloc),
            artifacts: Vec::new(alloc),
        }
    }

    /// The rows that the line's run resumes from: those in the line, or those that the run before left.
    pub(crate) fn saved(&self, alloc: Global, line: &str) -> Result<Option<Saved>, Fail> {
        if let Some(text) = value(line, "saved") {
            return Ok(Some(read_saved(alloc, text.as_bytes())?));
        }
        match &self.saved {
            Some(text) => Ok(Some(read_saved(alloc, text.as_bytes())?)),
            None => Ok(None),
        }
    }

    /// The artifacts of these partitions: those that were handed back, or new ones. A run with `new` ones gets new ones with the writers of
    /// those that were handed back. If the run is `short` of artifacts, the last one's are missing.
    pub(crate) fn artifacts(
        &mut self,
        alloc: Global,
        line: &str,
        needs: &[u32],
    ) -> Result<Vec<GivenArtifacts>, AllocError> {
        let mut all = Vec::new(alloc);
        for partition in needs {
            let own = self.take_own(*partition);
            all.push(own_or_new(alloc, line, own)?)?;
        }
        if has(line, "short") {
            all.pop();
        }
        Ok(all)
    }

    /// Takes the artifacts of this partition.
    fn take_own(&mut self, partition: u32) -> Option<GivenArtifacts> {
        let place = self.artifacts.iter().position(|own| own.0 == partition)?;
        Some(self.artifacts.swap_remove(place).1)
    }

    /// Hands artifacts to the partition's next run.
    pub(crate) fn hand(&mut self, partition: u32, own: GivenArtifacts) -> Result<(), AllocError> {
        self.artifacts.push((partition, own))?;
        Ok(())
    }

    /// Takes what the run left, and answers its status, if it has an answer.
    pub(crate) fn take(
        &mut self,
        alloc: Global,
        line: &str,
        table: &Snapshot,
        end: Result<StepEnd<GivenArtifacts>, StepError>,
    ) -> Result<Option<Status>, Fail> {
        match end {
            Ok(end) => {
                self.hold(alloc, &end.snapshot)?;
                for (partition, own) in end.artifacts {
                    self.hand(partition, own)?;
                }
                Ok(Some(end.status))
            }
            Err(_) => {
                self.hold(alloc, table)?;
                self.renew(alloc, line)?;
                Ok(None)
            }
        }
    }

    fn hold(&mut self, alloc: Global, table: &Snapshot) -> Result<(), Fail> {
        let saved = Saved::of(alloc, STEP, table)?;
        let read = written_and_read(alloc, &saved)?;
        self.saved = Some(saved_text(alloc, &read)?);
        self.rows = Vec::from_slice(alloc, table.rows.as_slice())?;
        Ok(())
    }

    /// After a run without an answer, whose artifacts are gone: the writers of new ones have what was written.
    fn renew(&mut self, alloc: Global, line: &str) -> Result<(), AllocError> {
        self.artifacts = Vec::new(alloc);
        for (partition, row) in (0..1_024).zip(self.rows.iter()) {
            self.artifacts
                .push((partition, artifacts_from(alloc, line, row)?))?;
        }
        Ok(())
    }

    /// Adds a line for each partition; one that had nothing to do has no artifacts.
    pub(crate) fn add_to(&self, text: &mut String, alloc: Global) -> Result<(), AllocError> {
        for (partition, row) in (0..1_024).zip(self.rows.iter()) {
            add_partition(text, alloc, row, self.own(partition))?;
        }
        Ok(())
    }

    /// The artifacts of this partition.
    fn own(&self, partition: u32) -> Option<&GivenArtifacts> {
        let own = self.artifacts.iter().find(|own| own.0 == partition)?;
        Some(&own.1)
    }
}

fn own_or_new(
    alloc: Global,
    line: &str,
    own: Option<GivenArtifacts>,
) -> Result<GivenArtifacts, AllocError> {
    match own {
        None => artifacts(alloc, line),
        Some(own) if has(line, "new") => Ok(with_writer(own, artifacts(alloc, line)?)),
        Some(own) => Ok(own),
    }
}

fn with_writer(own: GivenArtifacts, new: GivenArtifacts) -> GivenArtifacts {
    ArtifactsOf {
        reader: new.reader,
        processor: new.processor,
        writer: own.writer,
        collector: new.collector,
    }
}
