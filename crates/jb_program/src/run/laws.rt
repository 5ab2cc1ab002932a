//! What the crates below say of partitions. Nothing is done here: the clause is the laws.

ghost use Rattle.jb_program.specs.inside.LowerLaws.{LowerCrateLaws};

use jb_chunk::{runs_end_alike, runs_lead_to_an_end};
use jb_rules::rows_stay_sound;

/// What the crates below say of a row's steps and of a task's attempts.
pub fn lower_laws()
    ensures { LowerCrateLaws }
{
    rows_stay_sound();
    runs_lead_to_an_end();
    runs_end_alike();
}
