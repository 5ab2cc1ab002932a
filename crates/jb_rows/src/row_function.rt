//! What is done to each record.

ghost use Rattle.std.specs.Prelude.{◌≡◌, [], IfOk};
ghost use Rattle.jb_rows.specs.Answers.{Answer, answered};
ghost use Rattle.jb_rows.specs.Fields.{Fields};

use crate::row::Row;
use crate::row_builder::RowBuilder;
use jb_base::ClassId;
use std::alloc::AllocError;

/// What a function answers for a record.
#[derive(Debug, Drop)]
pub enum Outcome {
    /// Its result, whose fields it put together.
    Given,
    /// It has no result.
    Filtered,
    /// It is refused, with a fault of this class.
    Refused(ClassId),
}

/// What is done to each record.
pub trait RowFunction: Send + Sync {
    ghost answer: { Self → Fields → Answer };

    /// The answer for a record. The fields of its result are put into `built`, which has none.
    fn process(&self, row: &Row, built: &mut RowBuilder) -> Result<Outcome, AllocError>
        requires { built.old ≡ [] }
        ensures { IfOk result (λ outcome. answered outcome built.new ≡ answer self.now row.now) };
}
