//! Laws of the tables of the documents. The functions do nothing: their contracts are the laws.

ghost use Rattle.jb_documents.specs.Laws.{ClaimsHaveTrees, ClaimsKeepRanges, DocumentsHaveTrees, DocumentsKeepRanges, LoadsHaveTrees, LoadsKeepLimits, RestartsHaveTrees, RestartsKeepRanges};
ghost use Rattle.jb_documents.specs.Worked.{DocumentRows};

use jb_job::{jobs_have_trees, jobs_keep_ranges};
use jb_saved::answers_are_computed;

/// What is read of a tree keeps the ranges of its document: that of `run`, `restart`, `plan` or `check`.
pub fn documents_keep_ranges()
    ensures run { DocumentsKeepRanges }
    ensures restart { RestartsKeepRanges }
    ensures plan { LoadsKeepLimits }
    ensures check { ClaimsKeepRanges }
{
    jobs_keep_ranges();
}

/// A document of `run`, `plan` or `check` within its ranges has a tree that is read as that document, and so has one of
/// `restart` whose rows may be saved.
pub fn documents_have_trees()
    ensures run { DocumentsHaveTrees }
    ensures restart { RestartsHaveTrees }
    ensures plan { LoadsHaveTrees }
    ensures check { ClaimsHaveTrees }
{
    jobs_have_trees();
    answers_are_computed();
}

/// What the definitions give for worked documents.
pub fn worked_documents()
    ensures { DocumentRows }
{}
