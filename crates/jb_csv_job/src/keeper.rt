//! Who gets the files of a slice once its connection is closed.

ghost use Rattle.std.specs.Prelude.{◌≡◌, ◌≢◌, ℕ, Bool, List, [], IsTrue};
ghost use Rattle.sqlite_wal.specs.Files.{outcomes};
ghost use Rattle.sqlite_wal.specs.Reads.{AreClean, are_clean as are_clean_files};
ghost use Rattle.sqlite_wal.specs.Recovery.{Image};
ghost use Rattle.jb_csv_job.specs.Watched.{unclean_after};

use boxcar::tag::{Names, Tag};
use jb_base::PackedList;
use sqlite::Files;
use sqlite_disk::Disk;
use std::marker::Model;
use std::mem;

/// Who gets the files of a slice once its connection is closed. Only the files at the end of a call say whether a disk gave back the bytes
/// that were written to it, and what a crash leaves of them.
pub trait Keeper {
    /// No disk that was given gave back other bytes than were written.
    ghost are_clean: { Self → Bool };

    /// What a crash leaves of the files of a slice that was run over these items.
    ghost may_leave: { Self → (number : ℕ) → (items : List (List ℕ)) → Image → Type 0 };

    /// The files of the slice of this number, which was run over these items.
    fn keep<D: Disk + Drop>(&mut self, number: u64, items: &PackedList, files: Files<D>)
        ensures clean { IsTrue (are_clean self.new) → IsTrue (are_clean self.old) × AreClean D.Disk files.log files.db }
        ensures left { (read : List (List ℕ)) (image : Image) → may_leave self.new number read image → (read ≡ items.now) × outcomes D.Disk files.log files.db image }
        ensures others { (k : ℕ) (read : List (List ℕ)) (image : Image) → k ≢ number → may_leave self.new k read image → may_leave self.old k read image };
}

/// Drops the files, and watches them: for clauses alone it remembers each slice whose files gave back other bytes than were written. A contract sees
/// the numbers of those slices. What a crash leaves isn't remembered.
#[derive(Drop)]
pub struct Watches {
    unclean: Tag,
}

impl Model for Watches {
    ghost use Rattle.std.specs.Prelude.{ℕ, List};

    ghost Value = { List ℕ };

    ghost view = { λ it. it.unclean.numbers };
}

impl Watches {
    /// It was given no files yet.
    pub fn new() -> Watches
        ensures { result ≡ [] }
    {
        Watches {
            unclean: Tag::empty(),
        }
    }
}

/// The files of a slice, and the slices before it whose files weren't clean.
#[derive(Drop)]
struct ClosedSlice<D: Disk + Drop> {
    number: u64,
    files: Files<D>,
    unclean: Tag,
}

/// What is remembered of them.
struct Unclean;

impl<D: Disk + Drop> Names<ClosedSlice<D>> for Unclean {
    ghost numbers = { λ it. unclean_after it.unclean.numbers it.number (are_clean_files D.Disk it.files.log it.files.db) };
}

impl Keeper for Watches {
    ghost use Rattle.std.specs.Prelude.{◌==◌, length};

    ghost are_clean = { λ unclean. length unclean == 0 };

    ghost may_leave = { λ _ _ _ _. ⊥ };

    fn keep<D: Disk + Drop>(&mut self, number: u64, _items: &PackedList, files: Files<D>)
        ensures watched { self.new ≡ unclean_after self.old number (are_clean_files D.Disk files.log files.db) }
    {
        let closed = ClosedSlice {
            number,
            files,
            unclean: mem::replace(&mut self.unclean, Tag::empty()),
        };
        self.unclean = Tag::of::<ClosedSlice<D>, Unclean>(&closed);
    }
}
