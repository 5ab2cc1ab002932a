//! What a step does to each of its records.

ghost use Rattle.std.specs.Prelude.{◌≡◌, [], IfOk};
ghost use Rattle.jb_records.specs.Function.{Function, steady};
ghost use Rattle.jb_rows.specs.Answers.{answered};

use jb_base::ClassId;
use jb_rows::{Outcome, Row, RowBuilder, RowFunction};
use std::alloc::{AllocError, Global};

/// What a step does to each of its records, and which first tries at a record fail. Every `RowFunction` is one of which no try fails, and
/// `Shaky` is one for a simulation. All partitions share one value of it, so it may hold tables.
pub trait StepFunction: Send + Sync {
    ghost function: { Self → Function };

    /// The answer for a record. The fields of its result are put into `built`, which has none.
    fn process(&self, row: &Row, built: &mut RowBuilder) -> Result<Outcome, AllocError>
        requires { built.old ≡ [] }
        ensures { IfOk result (λ outcome. answered outcome built.new ≡ (function self.now).answer row.now) };

    /// The classes of the faults of the first tries at a record, one for each such try.
    fn tries_of(&self, alloc: Global, row: &Row) -> Result<Vec<ClassId>, AllocError>
        ensures { IfOk result (λ classes. classes.items ≡ (function self.now).tries row.now) };
}

impl<F: RowFunction> StepFunction for F {
    ghost function = { λ f. steady (F.answer f) };

    fn process(&self, row: &Row, built: &mut RowBuilder) -> Result<Outcome, AllocError> {
        RowFunction::process(self, row, built)
    }

    fn tries_of(&self, alloc: Global, _row: &Row) -> Result<Vec<ClassId>, AllocError> {
        Ok(Vec::new(alloc))
    }
}
