//! What artifacts that note their faults have noted.

ghost use Rattle.std.specs.Prelude.{◌≡◌, []};
ghost use Rattle.jb_ready.specs.Notes.{HasNoted, NotesCall};

use jb_base::{ArtifactError, ClassId};
use std::alloc::Global;
use std::marker::Model;

/// A read or a process call that answered a fault: the record's number, and the fault's class.
#[derive(Clone, Copy, Debug, PartialEq, Eq)]
pub struct Note {
    pub number: u64,
    pub class: ClassId,
}

/// Notes, the first one first. Those for which there was no memory are lost, and counted.
#[derive(Drop)]
pub struct Notes {
    kept: Vec<Note>,
    lost: u64,
}

impl Model for Notes {
    ghost use Rattle.jb_ready.specs.Notes.{NotesRecord};

    ghost Value = { NotesRecord };

    ghost view = { λ notes. record { kept = notes.kept.items; lost = notes.lost } };
}

impl Notes {
    /// No notes. Takes no memory.
    pub fn new(alloc: Global) -> Notes
        ensures { result ≡ record { kept = []; lost = 0 } }
    {
        Notes {
            kept: Vec::new(alloc),
            lost: 0,
        }
    }

    /// The notes that were stored.
    pub fn kept(&self) -> &[Note]
        ensures { result.now ≡ self.now.kept }
    {
        self.kept.as_slice()
    }

    /// How many notes were lost. 2^64 - 1 means that many or more.
    pub fn lost(&self) -> u64
        ensures { result ≡ self.now.lost }
    {
        self.lost
    }

    /// One more note. It is stored, or lost if memory runs out.
    fn note(&mut self, note: Note)
        ensures { HasNoted note self.old self.new }
    {
        if self.kept.push(note).is_err() {
            self.lost = self.lost.saturating_add(1);
        }
    }

    /// Notes the answer to a call for this record, if it is a fault.
    pub fn note_call<A>(&mut self, number: u64, answer: &Result<A, ArtifactError>)
        ensures { NotesCall answer.now number self.old self.new }
    {
        if let Err(ArtifactError::Fault(class)) = answer {
            let note = Note {
                number,
                class: *class,
            };
            self.note(note);
        }
    }
}
