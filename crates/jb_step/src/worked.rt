//! The definitions, computed on worked rows apart from any code.

ghost use Rattle.jb_step.specs.Worked.{WorkedRows};

use crate::laws::lower_laws;

/// What the definitions give for whole steps.
pub fn worked_rows()
    ensures { WorkedRows }
{
    lower_laws();
}
