//! A function of which the first tries at some records fail, for a simulation.

ghost use Rattle.std.specs.Prelude.{◌≡◌, List, IfOk};
ghost use Rattle.jb_base.specs.declared.class.ClassId.{ClassId};
ghost use Rattle.jb_rows.specs.Fields.{Fields};

use crate::step_function::StepFunction;
use jb_base::ClassId;
use jb_rows::{Outcome, Row, RowBuilder, RowFunction};
use std::alloc::{AllocError, Global};

/// Which first tries at a record fail.
pub trait FirstTries: Send + Sync {
    ghost tries: { Self → Fields → List ClassId };

    /// The classes of the faults of the first tries at this record, one for each such try.
    fn tries_of(&self, alloc: Global, row: &Row) -> Result<Vec<ClassId>, AllocError>
        ensures { IfOk result (λ classes. classes.items ≡ tries self.now row.now) };
}

/// A function of which the first tries at a record fail as `tries` says. Each later one is the function's own.
#[derive(Drop)]
pub struct Shaky<F, T> {
    pub function: F,
    pub tries: T,
}

impl<F: RowFunction, T: FirstTries> StepFunction for Shaky<F, T> {
    ghost function = { λ shaky. record { answer = F.answer shaky.function; tries = T.tries shaky.tries } };

    fn process(&self, row: &Row, built: &mut RowBuilder) -> Result<Outcome, AllocError> {
        RowFunction::process(&self.function, row, built)
    }

    fn tries_of(&self, alloc: Global, row: &Row) -> Result<Vec<ClassId>, AllocError> {
        FirstTries::tries_of(&self.tries, alloc, row)
    }
}
