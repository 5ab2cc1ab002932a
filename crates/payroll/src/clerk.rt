//! What is done to a time sheet.

ghost use Rattle.std.specs.Prelude.{◌≡◌};
ghost use Rattle.payroll.specs.Sheets.{broken_class, overlong_class, pay_slip};

use crate::sheet::{is_overlong, named_pay};
use jb_base::ClassId;
use jb_ready::{Fate, FaultClass};
use jb_rows::{Outcome, Row, RowBuilder, RowFunction};
use std::alloc::AllocError;

/// A time sheet that has no pay slip is skipped. One that has too many hours is a mistake that someone has to mend: its partition fails.
pub const CLASSES: &[FaultClass<'static>] = &[
    FaultClass {
        name: "no pay slip",
        fate: Fate::Skipped,
    },
    FaultClass {
        name: "more than 744 hours",
        fate: Fate::Fails,
    },
];

/// Makes a pay slip of a time sheet. One that has none is refused.
#[derive(Drop)]
pub struct Clerk;

impl RowFunction for Clerk {
    ghost answer = { λ _. pay_slip };

    fn process(&self, sheet: &Row, slip: &mut RowBuilder) -> Result<Outcome, AllocError> {
        if is_overlong(sheet) {
            return Ok(Outcome::Refused(overlong()));
        }
        let Some((name, pay)) = named_pay(sheet) else {
            return Ok(Outcome::Refused(broken()));
        };
        slip.push(name)?;
        slip.push_number(pay)?;
        Ok(Outcome::Given)
    }
}

/// The class of the fault of a time sheet that has no pay slip.
fn broken() -> ClassId
    ensures { result ≡ broken_class }
{
    ClassId::new(0)
}

/// The class of the fault of a time sheet that has too many hours.
fn overlong() -> ClassId
    ensures { result ≡ overlong_class }
{
    ClassId::new(1)
}
