//! Saved rows, as a step leaves them and resumes from them.

ghost use Rattle.std.specs.Prelude.{◌≡◌, Some, MatchResult, IfOk, string_bytes};
ghost use Rattle.serde_json.specs.Written.{compact_text};
ghost use Rattle.jb_job.specs.Reading.{tree_of};
ghost use Rattle.jb_saved.specs.Reading.{answer_of};
ghost use Rattle.jb_saved.specs.SavedTree.{saved_tree};
ghost use Rattle.jb_step.specs.declared.error.StepError.TheVariants.{Memory};
ghost use Rattle.jb_step.specs.restarts.Saving.{AnswersSaved};

use crate::error::StepError;
use jb_repo::Snapshot;
use jb_rules::Row;
use jb_saved::{SavedRows, answers_are_computed};
use std::alloc::{AllocError, Global};
use std::marker::Model;

/// The rows of a step's partitions, with the step's id, as a restart needs them.
///
/// An id of 1 to 64 bytes, and 1 to 1,024 sound rows of disjoint ranges, none of them running.
#[derive(Debug, Drop)]
pub struct Saved {
    held: SavedRows,
}

impl Model for Saved {
    ghost use Rattle.jb_saved.specs.SavedRows.{SavedRows};

    ghost Value = { SavedRows };

    ghost view = { λ s. s.held };
}

impl Saved {
    ghost use Rattle.std.specs.Prelude.{◌≡◌, None, IfOk, IfErr, OnOk};
    ghost use Rattle.jb_base.specs.Name.{IsName};
    ghost use Rattle.jb_saved.specs.Answers.{first_running};
    ghost use Rattle.jb_saved.specs.SavedRows.{IsSaved};
    ghost use Rattle.jb_step.specs.restarts.Saving.{RefusesSaving};

    /// The rows of the partitions, by place.
    pub fn rows(&self) -> &[Row]
        ensures rows { result.now ≡ self.now.rows }
        ensures kept { IsSaved self.now }
    {
        self.held.rows()
    }

    /// The id of the step.
    pub fn step_id(&self) -> &str
        ensures id { result.now ≡ self.now.step }
        ensures kept { IsSaved self.now }
    {
        self.held.step_id()
    }

    /// The rows of a snapshot with the step's id of 1 to 64 bytes.
    ///
    /// # Errors
    /// `Saved` with `Rows`, the first row that runs on a lane, and `Memory`.
    pub fn of(alloc: Global, step_id: &str, snapshot: &Snapshot) -> Result<Saved, StepError>
        requires { IsName step_id.now }
        ensures ok { IfOk result (λ s. s ≡ record { step = step_id.now; rows = snapshot.now.rows.items }) }
        ensures still { OnOk result (first_running snapshot.now.rows.items ≡ None) }
        ensures err { IfErr result (λ e. RefusesSaving e (first_running snapshot.now.rows.items)) }
    {
        let held = SavedRows::of(alloc, step_id, snapshot)?;
        Ok(Saved { held })
    }

    /// The rows without what a step answers for them.
    pub(crate) fn held(&self) -> &SavedRows
        ensures { result.now ≡ self.now }
    {
        &self.held
    }
}

/// Saved rows that a document held.
impl From<SavedRows> for Saved {
    ghost use Rattle.std.specs.Prelude.{◌≡◌};

    ghost from_gives = { λ held saved. saved ≡ held };

    fn from(held: SavedRows) -> Saved {
        Saved { held }
    }
}

/// The saved rows that a text holds.
///
/// # Errors
/// `Saved` with `NotJson` if the text has no JSON tree, else with the first fault of its tree (`SavedRows::of_value`). And `Memory`.
pub fn read_saved(alloc: Global, bytes: &[u8]) -> Result<Saved, StepError>
    ensures { AnswersSaved result (answer_of (tree_of bytes.now)) }
{
    let held = SavedRows::read(alloc, bytes)?;
    Ok(Saved { held })
}

/// The saved object as one JSON text with no space, which reads back as the object.
pub fn saved_text(alloc: Global, saved: &Saved) -> Result<String, AllocError>
    ensures text { IfOk result (λ s. string_bytes s ≡ compact_text (saved_tree saved.now)) }
    ensures reads_back { IfOk result (λ s. tree_of (string_bytes s) ≡ Some (saved_tree saved.now)) }
{
    saved.held.text(alloc)
}

/// The law of the saved text: what was written of saved rows is read as the same rows, unless memory ran out.
pub fn written_and_read(alloc: Global, saved: &Saved) -> Result<Saved, StepError>
    ensures { MatchResult result (λ read. read ≡ saved.now) (λ e. e ≡ Memory) }
{
    answers_are_computed();
    let _rows = saved.rows();
    let text = saved_text(alloc, saved)?;
    read_saved(alloc, text.as_bytes())
}
