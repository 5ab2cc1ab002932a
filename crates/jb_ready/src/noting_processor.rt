//! A processor that notes the faults of another.

ghost use Rattle.std.specs.Prelude.{◌≡◌, ◌++◌, None, Some, IfOk, is_some, option_to_list};
ghost use Rattle.jb_artifacts.specs.Answers.{IfFault, IfNoMemory};
ghost use Rattle.jb_artifacts.specs.Processor.{process_fault, after_process};
ghost use Rattle.jb_artifacts.specs.Writer.{numbered};
ghost use Rattle.jb_ready.specs.Notes.{NotesCall};

use crate::notes::Notes;
use jb_artifacts::{Item, ItemProcessor, PackedResults, PackingProcessor};
use jb_base::ArtifactError;

/// A processor that answers as `inner` does, and notes each fault that it passes on.
#[derive(Drop)]
pub struct NotingProcessor<P> {
    pub inner: P,
    pub notes: Notes,
}

impl<P: ItemProcessor> ItemProcessor for NotingProcessor<P> {
    ghost processor = { λ n. P.processor n.inner };

    fn process_item(&mut self, number: u64, item: &[u8]) -> Result<Option<Item>, ArtifactError>
        ensures answered { let p = P.processor self.old.inner in
            IfOk result (λ answer. (process_fault p number ≡ None) × (answer ≡ p.answer number item.now) × (P.processor self.new.inner ≡ after_process p number)) }
        ensures faulted { let p = P.processor self.old.inner in
            IfFault result (λ class. (process_fault p number ≡ Some class) × (P.processor self.new.inner ≡ after_process p number)) }
        ensures no_memory { IfNoMemory result (P.processor self.new.inner ≡ P.processor self.old.inner) }
        ensures noted { NotesCall result number self.old.notes self.new.notes }
    {
        let answer = self.inner.process_item(number, item);
        self.notes.note_call(number, &answer);
        answer
    }
}

impl<P: PackingProcessor> PackingProcessor for NotingProcessor<P> {
    fn pack_item(
        &mut self,
        number: u64,
        item: &[u8],
        results: &mut PackedResults,
    ) -> Result<bool, ArtifactError>
        ensures answered { let p = P.ItemProcessor.processor self.old.inner in
            let answer = p.answer number item.now in
            IfOk result (λ found. (process_fault p number ≡ None) × (found ≡ is_some answer)
            × (P.ItemProcessor.processor self.new.inner ≡ after_process p number)
            × (results.new ≡ results.old ++ option_to_list (numbered number answer))) }
        ensures faulted { let p = P.ItemProcessor.processor self.old.inner in
            IfFault result (λ class. (process_fault p number ≡ Some class) × (P.ItemProcessor.processor self.new.inner ≡ after_process p number)
            × (results.new ≡ results.old)) }
        ensures no_memory { IfNoMemory result ((P.ItemProcessor.processor self.new.inner ≡ P.ItemProcessor.processor self.old.inner)
            × (results.new ≡ results.old)) }
        ensures noted { NotesCall result number self.old.notes self.new.notes }
    {
        let answer = self.inner.pack_item(number, item, results);
        self.notes.note_call(number, &answer);
        answer
    }
}
