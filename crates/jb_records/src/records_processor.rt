//! The processor of a partition's records.

ghost use Rattle.std.specs.Prelude.{IfOk};
ghost use Rattle.std.specs.Arc.{arc_value};
ghost use Rattle.jb_artifacts.specs.Answers.{IfFault, IfNoMemory};
ghost use Rattle.jb_artifacts.specs.Faults.{plans_of};
ghost use Rattle.jb_records.specs.Artifacts.{faulted_by, record_of};
ghost use Rattle.jb_records.specs.Function.{refusal_in, refusal_of, result_of};
ghost use Rattle.jb_records.specs.inside.Processing.{IsSettled, Strikes};
ghost use Rattle.jb_rows.specs.Answers.{answered};
ghost use Rattle.jb_rows.specs.Fields.{Fields};

use crate::step_function::StepFunction;
use jb_artifacts::{FaultPlans, Item, ItemProcessor, PackedResults, PackingProcessor, record_of};
use jb_base::{ArtifactError, PackedList};
use jb_rows::{Outcome, Row, RowBuilder};
use std::alloc::Global;
use std::sync::Arc;

/// The processor of a partition's records: one call of the function for each. A refused record fails with the class of its refusal, and
/// others as the plans of their first tries say. It uses its own records, which it shares with the reader.
#[derive(Drop)]
pub struct RecordsProcessor<F> {
    pub(crate) alloc: Global,
    pub(crate) function: Arc<F, Global>,
    pub(crate) first: u64,
    pub(crate) records: Arc<PackedList, Global>,
    pub(crate) tries: FaultPlans,
    pub(crate) built: RowBuilder,
}

/// Whether the record of this number has a result, by what the function answered; or the fault with which its processing fails. That is the
/// fault of its refusal, or else that of a first try.
fn settled(outcome: Outcome, number: u64, tries: &mut FaultPlans) -> Result<bool, ArtifactError>
    ensures answered { IfOk result (λ found. IsSettled outcome number (plans_of tries.old) (plans_of tries.new) found) }
    ensures faulted { IfFault result (λ class. (built : Fields) → Strikes (refusal_in (answered outcome built)) number (plans_of tries.old) (plans_of tries.new) class) }
    ensures memory { IfNoMemory result ⊥ }
{
    if let Outcome::Refused(class) = outcome {
        return Err(ArtifactError::Fault(class));
    }
    if let Some(class) = tries.strike(number) {
        return Err(ArtifactError::Fault(class));
    }
    Ok(matches!(outcome, Outcome::Given))
}

impl<F: StepFunction> ItemProcessor for RecordsProcessor<F> {
    ghost processor = { λ p. let f = F.function (arc_value p.function) in let records = arc_value p.records in record {
      answer = λ k _. result_of f (record_of p.first records k);
      faults = λ k. faulted_by (refusal_of f (record_of p.first records k)) (plans_of p.tries k);
    } };

    fn process_item(&mut self, number: u64, _item: &[u8]) -> Result<Option<Item>, ArtifactError> {
        self.built.clear();
        let record = Row::of(record_of(&self.records, self.first, number));
        let outcome = self.function.process(&record, &mut self.built)?;
        match settled(outcome, number, &mut self.tries) {
            Ok(true) => {
                let item = Item::copy_of(self.alloc, self.built.as_bytes())?;
                Ok(Some(item))
            }
            Ok(false) => Ok(None),
            Err(error) => Err(error),
        }
    }
}

impl<F: StepFunction> PackingProcessor for RecordsProcessor<F> {
    fn pack_item(
        &mut self,
        number: u64,
        _item: &[u8],
        results: &mut PackedResults,
    ) -> Result<bool, ArtifactError> {
        self.built.clear();
        let record = Row::of(record_of(&self.records, self.first, number));
        let outcome = self.function.process(&record, &mut self.built)?;
        match settled(outcome, number, &mut self.tries) {
            Ok(true) => {
                results.push(number, self.built.as_bytes())?;
                Ok(true)
            }
            Ok(false) => Ok(false),
            Err(error) => Err(error),
        }
    }
}
