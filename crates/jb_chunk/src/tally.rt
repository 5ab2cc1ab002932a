//! What the records of a block came to, but for their results.

ghost use Rattle.std.specs.Prelude.{◌≡◌, ◌+◌, ◌<◌, ◌^◌, List, Option, ℕ};
ghost use Rattle.jb_chunk.specs.Entries.{is_fault, is_read_fault, one_if};
ghost use Rattle.jb_chunk.specs.inside.Gathering.{entry_with};

use crate::entry::EntryKind;

/// How many records of a block were skipped so far.
#[derive(Clone, Copy, Debug, PartialEq, Eq)]
pub struct Tally {
    /// All.
    pub skips: u64,
    /// Those whose read failed.
    pub read_skips: u64,
}

impl Tally {
    /// None so far.
    pub fn new() -> Tally
        ensures skips { result.skips ≡ 0 }
        ensures read_skips { result.read_skips ≡ 0 }
    {
        Tally {
            skips: 0,
            read_skips: 0,
        }
    }

    /// Counts a record; its fault, if it has one, is a skip.
    pub fn count(&mut self, kind: EntryKind)
        requires skips { self.old.skips + 1 < 2 ^ 64 }
        requires read_skips { self.old.read_skips + 1 < 2 ^ 64 }
        ensures skips { (answer : Option (List ℕ)) → self.new.skips ≡ self.old.skips + one_if (is_fault (entry_with kind answer)) }
        ensures read_skips { (answer : Option (List ℕ)) → self.new.read_skips ≡ self.old.read_skips + one_if (is_read_fault (entry_with kind answer)) }
    {
        match kind {
            EntryKind::ReadFault(_) => {
                self.skips += 1;
                self.read_skips += 1;
            }
            EntryKind::ProcessFault(_) => self.skips += 1,
            EntryKind::Processed => {}
        }
    }
}
