//! The rows of a stopped step: their text, reading it, and the rows with which a restart resumes.
//!
//! - `saved`: saved rows, of a snapshot or of a text. `text`: writing them; their text reads back as them.
//! - `form`: what a JSON tree holds as saved rows, and `rows`: the first of its rows that can't be.
//! - `going_on`: saved rows as a step resumes from them.
//! - `error`, `place`: why there are no saved rows, and what of them is refused.
//! - `laws`: what the definitions say of one another, and what they give for worked rows.
#![tactic(auto)]

mod error;
mod form;
mod going_on;
mod laws;
mod place;
mod rows;
mod saved;
mod text;

pub use error::SavedError;
pub use going_on::rows_to_go_on;
pub use laws::{answers_are_computed, worked_saved};
pub use place::SavedPlace;
pub use saved::SavedRows;
pub use text::write_saved;
