//! What the values of a command line's options say.

ghost use Rattle.std.specs.Prelude.{◌≡◌, option_map, IfSome};
ghost use Rattle.jb_csv_job.specs.Asking.{IsInParts, digest_in, number_between, part_of, part_with, task_in};

use crate::asked::Task;
use hex::FromHex;
use jb_rows::numbers::number_of;

/// The number that decimal digits write, if it is one of these.
pub(crate) fn number_between(least: u64, most: u64, text: &str) -> Option<u64>
    ensures { result ≡ number_between least most text.now }
{
    let number = number_of(text.as_bytes())?;
    if least <= number && number <= most {
        Some(number)
    } else {
        None
    }
}

/// The bytes that 64 hexadecimal digits write.
pub(crate) fn digest_in(text: &str) -> Option<[u8; 32]>
    ensures { result ≡ digest_in text.now }
{
    <[u8; 32] as FromHex>::from_hex(text).ok()
}

/// The part of these two numbers, if the first is below the second.
fn part_with(part: Option<u64>, of: Option<u64>) -> Option<Task>
    ensures part { result ≡ part_with part of }
    ensures below { IfSome result IsInParts }
{
    let (Some(part), Some(of)) = (part, of) else {
        return None;
    };
    if part < of {
        Some(Task::Part { part, of })
    } else {
        None
    }
}

/// K/N, with K below N.
fn part_of(text: &str) -> Option<Task>
    ensures part { result ≡ part_of text.now }
    ensures below { IfSome result IsInParts }
{
    let Some((part, of)) = text.split_once('/') else {
        return None;
    };
    part_with(number_of(part.as_bytes()), number_of(of.as_bytes()))
}

/// What `--collect` and the value of `--part` ask for: not both.
pub(crate) fn task_in(is_collect: bool, part: Option<&str>) -> Option<Task>
    ensures task { result ≡ task_in is_collect (option_map (λ p. p.now) part.entry) }
    ensures below { IfSome result IsInParts }
{
    match part {
        None if is_collect => Some(Task::Collect),
        None => Some(Task::Run),
        Some(_) if is_collect => None,
        Some(text) => part_of(text),
    }
}
