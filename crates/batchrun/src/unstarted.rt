//! What is reported if nothing can be run.

ghost use Rattle.jb_program.specs.declared.streams.error.ProgramError.TheVariants.{Memory, Stream};
ghost use Rattle.jb_program.specs.Failures.{IsFailureReported};

use jb_texts::write_whole;
use std::io::Write;

/// Reports that a stream failed, and gives the exit status. Standard output is closed.
pub fn report_closed<F: Write>(fault_writer: &mut F) -> u8
    ensures { IsFailureReported Stream (F.contents fault_writer.old) (F.contents fault_writer.new) result }
{
    let _ = write_whole(b"stream failed\n", fault_writer);
    4
}

/// Reports that there is no memory, and gives the exit status. There is no stack for the work.
pub fn report_none<F: Write>(fault_writer: &mut F) -> u8
    ensures { IsFailureReported Memory (F.contents fault_writer.old) (F.contents fault_writer.new) result }
{
    let _ = write_whole(b"no memory\n", fault_writer);
    4
}
