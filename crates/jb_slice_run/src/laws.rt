//! What comes of the form. Nothing is done here: the clauses are the laws.

ghost use Rattle.jb_slice_run.specs.Held.{PlacesAreRead};
ghost use Rattle.jb_slice_run.specs.Laws.{EachIsStoredAsOne, FrontsAreStored, StoredAsOne, OneMoreIsStored, OwnSlicesResume, SlicesBeginWithHeaders};
ghost use Rattle.jb_slice_run.specs.Example.{SomeAreStored};

use jb_saved::answers_are_computed;
use jb_slices::slices_follow;

/// Bytes store one list of checkpoints at most. If bytes store a slice, a front of them does too, and so do they with one more checkpoint that may
/// follow. The first checkpoint is a header, and the later ones are intervals. What is read from these is what the slice's state has. A slice of
/// our own can be refused only for its stamp. And some bytes store a slice.
pub fn bytes_identify_checkpoints()
    ensures each { EachIsStoredAsOne }
    ensures one { StoredAsOne }
    ensures front { FrontsAreStored }
    ensures more { OneMoreIsStored }
    ensures header { SlicesBeginWithHeaders }
    ensures own { OwnSlicesResume }
    ensures place { PlacesAreRead }
    ensures some { SomeAreStored }
{
    slices_follow();
    answers_are_computed();
}
