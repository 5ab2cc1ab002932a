//! Whether a record is refused.

ghost use Rattle.std.specs.Prelude.{◌≡◌, IfOk};
ghost use Rattle.jb_records.specs.Function.{refusal_of};

use crate::step_function::StepFunction;
use jb_base::ClassId;
use jb_rows::{Outcome, Row, RowBuilder};
use std::alloc::AllocError;

/// The class of the fault with which this record is refused, if it is. The function puts its result together in `built`.
pub(crate) fn refusal_of<F: StepFunction>(
    function: &F,
    record: &[u8],
    built: &mut RowBuilder,
) -> Result<Option<ClassId>, AllocError>
    ensures { IfOk result (λ class. class ≡ refusal_of (F.function function.now) record.now) }
{
    built.clear();
    match function.process(&Row::of(record), built)? {
        Outcome::Refused(class) => Ok(Some(class)),
        Outcome::Given | Outcome::Filtered => Ok(None),
    }
}
