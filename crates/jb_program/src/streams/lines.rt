//! The lines of a failure, before they are written.

ghost use Rattle.std.specs.Prelude.{◌≡◌, IfOk};
ghost use Rattle.jb_program.specs.FailureText.{failure_text};

use super::error::ProgramError;
use arrayvec::ArrayString;
use std::fmt;
use std::fmt::Write;

/// Room for the lines of every failure but a long word that is wrong.
const ROOM: usize = 256;

/// The lines of a failure, where there is room for them.
pub fn lines_of(failure: &ProgramError) -> Result<ArrayString<ROOM>, fmt::Error>
    ensures { IfOk result (λ lines. lines.bytes ≡ failure_text failure.now) }
{
    let mut lines = ArrayString::new();
    write!(lines, "{failure}")?;
    Ok(lines)
}
