//! What becomes of a record.

ghost use Rattle.std.specs.Prelude.{◌≡◌, List, Option, ℕ};
ghost use Rattle.jb_chunk.specs.Entries.{fault_in};
ghost use Rattle.jb_chunk.specs.inside.Gathering.{entry_with};

use jb_base::ClassId;

/// What becomes of a record, before its fault is settled. Its result, if it has one, is after the chunk's others.
#[derive(Clone, Copy, Debug, PartialEq, Eq)]
pub enum EntryKind {
    /// Its read failed.
    ReadFault(ClassId),
    /// Its processing failed.
    ProcessFault(ClassId),
    /// It was processed.
    Processed,
}

impl EntryKind {
    /// The class of the fault, if the record has one.
    pub fn fault(&self) -> Option<ClassId>
        ensures { (answer : Option (List ℕ)) → result ≡ fault_in (entry_with self.now answer) }
    {
        match self {
            EntryKind::ReadFault(class) | EntryKind::ProcessFault(class) => Some(*class),
            EntryKind::Processed => None,
        }
    }
}
