//! The arguments of the process, after the program's name.

ghost use Rattle.std.specs.Prelude.{◌≡◌, drop, map, string_bytes, IfErr, IfOk};
ghost use Rattle.jb_program.specs.ProcessWords.{process_words};

use crate::words::fault::{LineFault, UsageFault};
use std::alloc::{AllocError, Global};
use std::env::Args;
use std::io;
use std::io::ErrorKind;

/// The arguments. They are refused as `NoText` where one is no text.
pub fn arguments(alloc: Global, args: io::Result<Args>) -> Result<Vec<String>, LineFault>
    ensures ok { IfOk result (λ all. process_words args ≡ Some (drop 1 (map string_bytes all.items))) }
    ensures err { IfErr result (λ e. (fault : UsageFault) → e ≡ LineFault.Usage fault → (fault ≡ UsageFault.NoText) × (process_words args ≡ None)) }
{
    match args {
        Ok(args) => Ok(args.collect(alloc)?),
        Err(fault) if fault.kind() == ErrorKind::OutOfMemory => Err(LineFault::Memory),
        Err(_) => Err(LineFault::Usage(UsageFault::NoText)),
    }
}

fn texts_of(alloc: Global, args: &[String]) -> Result<Vec<&str>, AllocError>
    ensures { IfOk result (λ texts. map (λ w. w.now) texts.items ≡ map string_bytes args.now) }
{
    let mut texts = Vec::new(alloc);
    for arg in args {
        texts.push(arg.as_str())?;
    }
    Ok(texts)
}

/// The arguments after the first, which is the program's name.
pub fn words_after_name(alloc: Global, args: &[String]) -> Result<Vec<&str>, AllocError>
    ensures { IfOk result (λ words. map (λ w. w.now) words.items ≡ drop 1 (map string_bytes args.now)) }
{
    match args.split_first() {
        Some((_, words)) => texts_of(alloc, words),
        None => Ok(Vec::new(alloc)),
    }
}
