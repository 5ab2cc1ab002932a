//! Laws of the definitions. The functions do nothing: their contracts are the laws.

ghost use Rattle.jb_saved.specs.Laws.{AnswerIsComputed, OneAnswer, SavedTreesAreRead, TreeIsRead, TextIsRead, OnlySavedTrees};
ghost use Rattle.jb_saved.specs.Worked.{WorkedSaved};

use jb_rules::{numbers_make_rows, rows_are_tested};

/// The definition of reading gives, for each text, the one answer that the row rules allow. It reads as saved rows the trees of
/// these rows in both versions, and the tree of their text. It reads no other tree as them.
pub fn answers_are_computed()
    ensures answer { AnswerIsComputed }
    ensures one { OneAnswer }
    ensures trees { SavedTreesAreRead }
    ensures tree { TreeIsRead }
    ensures text { TextIsRead }
    ensures only { OnlySavedTrees }
{
    rows_are_tested();
    numbers_make_rows();
}

/// What the definitions give for worked rows.
pub fn worked_saved()
    ensures { WorkedSaved }
{}
