//! What of saved rows is refused.

use std::fmt;
use thiserror::Error;

/// What of saved rows is refused, in the order in which it is looked for.
#[derive(Clone, Copy, Debug, PartialEq, Eq, Error)]
pub enum SavedPlace {
    /// The text has no JSON tree.
    NotJson,
    /// The tree isn't of the form of saved rows.
    Shape,
    /// The version is a number that isn't known. It is looked at before the rest of the form.
    Version,
    /// The first row that breaks a row rule, or whose range overlaps an earlier one; or that runs, where rows are saved.
    Rows(usize),
    /// The rows are another step's.
    Step,
    /// A row ends past the last record.
    Records,
}

/// The name, with the row's number in parentheses.
impl fmt::Display for SavedPlace {
    ghost use Rattle.std.specs.Prelude.{Some};
    ghost use Rattle.jb_saved.specs.Places.{place_text};

    ghost output = { λ place. Some (place_text place) };

    fn fmt<W: fmt::Write>(&self, f: &mut fmt::Formatter<W>) -> fmt::Result {
        match self {
            SavedPlace::NotJson => f.write_str("NotJson"),
            SavedPlace::Shape => f.write_str("Shape"),
            SavedPlace::Version => f.write_str("Version"),
            SavedPlace::Rows(row) => write!(f, "Rows({row})"),
            SavedPlace::Step => f.write_str("Step"),
            SavedPlace::Records => f.write_str("Records"),
        }
    }
}
