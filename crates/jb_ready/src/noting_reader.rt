//! A reader that notes the faults of another.

ghost use Rattle.std.specs.Prelude.{◌≡◌, ◌≤◌, ◌<◌, Ok, None, Some, IfOk, OnOk};
ghost use Rattle.jb_artifacts.specs.Answers.{IfFault, IfNoMemory};
ghost use Rattle.jb_artifacts.specs.Reader.{reader_end, opened, record_at, read_fault, after_read};
ghost use Rattle.jb_ready.specs.Notes.{NotesCall};

use crate::notes::Notes;
use jb_artifacts::{Item, ItemReader, LendingReader};
use jb_base::ArtifactError;

/// A reader that answers as `inner` does, and notes each fault that it passes on.
#[derive(Drop)]
pub struct NotingReader<R> {
    pub inner: R,
    pub notes: Notes,
}

impl<R: ItemReader> ItemReader for NotingReader<R> {
    ghost reader = { λ n. R.reader n.inner };

    fn first(&self) -> u64 {
        self.inner.first()
    }

    fn end(&self) -> u64 {
        self.inner.end()
    }

    fn place(&self) -> u64 {
        self.inner.place()
    }

    fn open_at(&mut self, at: u64)
        requires from { (R.reader self.old.inner).first ≤ at }
        requires to { at ≤ reader_end (R.reader self.old.inner) }
        ensures reader { R.reader self.new.inner ≡ opened (R.reader self.old.inner) at }
        ensures notes { self.new.notes ≡ self.old.notes }
    {
        self.inner.open_at(at);
    }

    fn read_item(&mut self) -> Result<Option<Item>, ArtifactError>
        ensures ended { let r = R.reader self.old.inner in
            r.place ≡ reader_end r → (result ≡ Ok None) × (R.reader self.new.inner ≡ r) }
        ensures answered { let r = R.reader self.old.inner in
            r.place < reader_end r → IfOk result (λ item. (read_fault r ≡ None) × (item ≡ Some (record_at r r.place)) × (R.reader self.new.inner ≡ after_read r)) }
        ensures faulted { let r = R.reader self.old.inner in
            r.place < reader_end r → IfFault result (λ class. (read_fault r ≡ Some class) × (R.reader self.new.inner ≡ after_read r)) }
        ensures no_memory { IfNoMemory result (R.reader self.new.inner ≡ R.reader self.old.inner) }
        ensures noted { NotesCall result (R.reader self.old.inner).place self.old.notes self.new.notes }
    {
        let number = self.inner.place();
        let answer = self.inner.read_item();
        self.notes.note_call(number, &answer);
        answer
    }
}

impl<R: LendingReader> LendingReader for NotingReader<R> {
    fn pass_item(&mut self) -> Result<(), ArtifactError>
        requires { let r = R.ItemReader.reader self.old.inner in
            r.place < reader_end r }
        ensures answered { let r = R.ItemReader.reader self.old.inner in
            OnOk result ((read_fault r ≡ None) × (R.ItemReader.reader self.new.inner ≡ after_read r)) }
        ensures faulted { let r = R.ItemReader.reader self.old.inner in
            IfFault result (λ class. (read_fault r ≡ Some class) × (R.ItemReader.reader self.new.inner ≡ after_read r)) }
        ensures no_memory { IfNoMemory result (R.ItemReader.reader self.new.inner ≡ R.ItemReader.reader self.old.inner) }
        ensures noted { NotesCall result (R.ItemReader.reader self.old.inner).place self.old.notes self.new.notes }
    {
        let number = self.inner.place();
        let answer = self.inner.pass_item();
        self.notes.note_call(number, &answer);
        answer
    }

    fn record(&self, number: u64) -> &[u8] {
        self.inner.record(number)
    }
}
