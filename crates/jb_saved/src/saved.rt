//! Saved rows, their text, and reading it.

use crate::error::SavedError;
use crate::form::{is_known, saved_of, version_of};
use crate::place::SavedPlace;
use crate::rows::{first_running, first_unfit};
use crate::text::{text_of, write_saved};
use jb_base::Name;
use jb_job::{JobError, read_tree};
use jb_repo::Snapshot;
use jb_rules::{Row, rows_are_tested};
use json::Writer;
use serde_json::Value;
use std::alloc::{AllocError, Global};
use std::marker::Model;

/// The rows of a step's partitions, with the step's id, as a restart needs them.
///
/// An id of 1 to 64 bytes, and 1 to 1,024 sound rows of disjoint ranges, none of them running: each value keeps this.
#[derive(Debug, Drop)]
pub struct SavedRows {
    step: Name,
    rows: Vec<Row>,
}

impl Model for SavedRows {
    ghost use Rattle.jb_saved.specs.SavedRows.{SavedRows, IsSaved};

    ghost Value = { SavedRows };

    ghost view = { λ s. record { step = s.step; rows = s.rows.items } };

    ghost invariant = { λ s. IsSaved (record { step = s.step; rows = s.rows.items }) };
}

impl SavedRows {
    ghost use Rattle.std.specs.Prelude.{◌≡◌, Some, None, IfOk, IfErr, OnOk, string_bytes};
    ghost use Rattle.serde_json.specs.View.{view};
    ghost use Rattle.serde_json.specs.Written.{compact_text};
    ghost use Rattle.jb_base.specs.Name.{IsName};
    ghost use Rattle.jb_job.specs.Reading.{tree_of};
    ghost use Rattle.jb_saved.specs.Answers.{RefusesRunning, first_running};
    ghost use Rattle.jb_saved.specs.Reading.{GivesSaved, answer_of, saved_at};
    ghost use Rattle.jb_saved.specs.SavedRows.{IsSaved};
    ghost use Rattle.jb_saved.specs.SavedTree.{saved_tree};

    /// The rows of the partitions, by place.
    pub fn rows(&self) -> &[Row]
        ensures rows { result.now ≡ self.now.rows }
        ensures kept { IsSaved self.now }
    {
        self.rows.as_slice()
    }

    /// The id of the step.
    pub fn step_id(&self) -> &str
        ensures id { result.now ≡ self.now.step }
        ensures kept { IsSaved self.now }
    {
        self.step.as_str()
    }

    /// The saved rows that a JSON tree holds.
    ///
    /// # Errors
    /// `Refused` with the first of these. `Version`: the tree is an object whose version is a whole number other than 1 and 2.
    /// `Shape`: it is of another form. `Rows`: the first row that breaks a row rule or overlaps an earlier one.
    /// And `Memory`.
    #[tactic(auto, unfolding(crate::specs::SavedForm::saved_form_at, crate::specs::Reading::saved_at))]
    pub fn of_value(alloc: Global, tree: &Value) -> Result<SavedRows, SavedError>
        ensures { GivesSaved result (saved_at (view tree.now)) }
    {
        rows_are_tested();
        let version = version_of(tree).ok_or(SavedError::Refused(SavedPlace::Shape))?;
        if !is_known(version) {
            return Err(SavedError::Refused(SavedPlace::Version));
        }
        let (step, rows) = saved_of(alloc, tree, version)?;
        match first_unfit(&rows) {
            Some(i) => Err(SavedError::Refused(SavedPlace::Rows(i))),
            None => Ok(SavedRows { step, rows }),
        }
    }

    /// The rows of a snapshot with the step's id of 1 to 64 bytes.
    ///
    /// # Errors
    /// `Refused` with `Rows`, the first row that runs on a lane, and `Memory`.
    pub fn of(alloc: Global, step_id: &str, snapshot: &Snapshot) -> Result<SavedRows, SavedError>
        requires { IsName step_id.now }
        ensures ok { IfOk result (λ s. s ≡ record { step = step_id.now; rows = snapshot.now.rows.items }) }
        ensures still { OnOk result (first_running snapshot.now.rows.items ≡ None) }
        ensures err { IfErr result (λ e. RefusesRunning e (first_running snapshot.now.rows.items)) }
    {
        if let Some(i) = first_running(&snapshot.rows) {
            return Err(SavedError::Refused(SavedPlace::Rows(i)));
        }
        let step = Name::new(String::from_str(alloc, step_id)?);
        let rows = Vec::from_slice(alloc, &snapshot.rows)?;
        Ok(SavedRows { step, rows })
    }

    /// The saved rows that a text holds.
    ///
    /// # Errors
    /// `Refused` with `NotJson`, if the text has no JSON tree, else the first fault of its tree (`of_value`). And `Memory`.
    pub fn read(alloc: Global, bytes: &[u8]) -> Result<SavedRows, SavedError>
        ensures { GivesSaved result (answer_of (tree_of bytes.now)) }
    {
        match read_tree(alloc, bytes) {
            Ok(tree) => SavedRows::of_value(alloc, &tree),
            Err(JobError::Memory) => Err(SavedError::Memory),
            Err(_) => Err(SavedError::Refused(SavedPlace::NotJson)),
        }
    }

    /// The saved object as one JSON text with no space, which reads back as the object.
    pub fn text(&self, alloc: Global) -> Result<String, AllocError>
        ensures text { IfOk result (λ s. string_bytes s ≡ compact_text (saved_tree self.now)) }
        ensures reads_back { IfOk result (λ s. tree_of (string_bytes s) ≡ Some (saved_tree self.now)) }
    {
        let mut out = Writer::new(Vec::new(alloc));
        write_saved(&mut out, self.rows(), self.step_id())?;
        text_of(out.into_inner())
    }
}
