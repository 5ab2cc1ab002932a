//! Telling why there is no answer.

ghost use Rattle.std.specs.Prelude.{OnErr, OnOk};
ghost use Rattle.std.specs.Io.KnownBytes.{Appends};
ghost use Rattle.jb_texts.specs.Front.{AppendsFront};
ghost use Rattle.jb_program.specs.FailureText.{failure_text};
ghost use Rattle.jb_program.specs.UsageText.{wrong_text};

use super::error::ProgramError;
use super::lines::lines_of;
use crate::words::UsageFault;
use jb_texts::{write_joined, write_whole};
use std::io;
use std::io::{ErrorKind, Write};

/// Writes that the word is wrong, and what is right or where to find it.
fn write_wrong<'a, W: Write>(word: &'a str, advice: &'a str, writer: &mut W) -> io::Result<()>
    ensures whole { OnOk result (Appends (W.contents writer.old) (W.contents writer.new) (wrong_text word.now advice.now)) }
    ensures front { OnErr result (AppendsFront (W.contents writer.old) (W.contents writer.new) (wrong_text word.now advice.now)) }
{
    let texts = [
        "wrong word: `".as_bytes(),
        word.as_bytes(),
        "`\n".as_bytes(),
        advice.as_bytes(),
    ];
    write_joined(&texts, writer)
}

/// Writes the lines of a failure that has room for them.
fn write_lines<W: Write>(failure: &ProgramError, writer: &mut W) -> io::Result<()>
    ensures whole { OnOk result (Appends (W.contents writer.old) (W.contents writer.new) (failure_text failure.now)) }
    ensures front { OnErr result (AppendsFront (W.contents writer.old) (W.contents writer.new) (failure_text failure.now)) }
{
    match lines_of(failure) {
        Ok(lines) => write_whole(lines.as_str().as_bytes(), writer),
        Err(_) => Err(io::Error::from(ErrorKind::Other)),
    }
}

/// Writes one line on why there is no answer, and one more if the arguments are wrong, and flushes the writer. It takes no memory.
/// If the writer fails, it holds the front of these lines.
pub fn write_failure<W: Write>(failure: &ProgramError, writer: &mut W) -> io::Result<()>
    ensures whole { OnOk result (Appends (W.contents writer.old) (W.contents writer.new) (failure_text failure.now)) }
    ensures front { OnErr result (AppendsFront (W.contents writer.old) (W.contents writer.new) (failure_text failure.now)) }
{
    match failure {
        ProgramError::Usage(UsageFault::Wrong(word, reason)) => {
            write_wrong(word.as_str(), reason.advice(), writer)
        }
        failure => write_lines(failure, writer),
    }
}
