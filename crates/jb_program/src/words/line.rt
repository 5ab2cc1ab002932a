//! The command line: the arguments after the program's name.

ghost use Rattle.std.specs.Prelude.{◌≡◌, ◌<◌, ◌∷◌, ◌++◌, [], codes, length, map, option_map, string_bytes, true, false, None, IfErr, IfOk, IfSome};
ghost use Rattle.clap.specs.Words.{app_of, subcommand_rows_of, with_subcommand};
ghost use Rattle.jb_program.specs.CommandLine.{app, help_app, limited_app, program as program_app, request_in, rounds_of_word, topic_at, topic_in, word_app, perform_in, word_in, end_in_rounds, reason_after, AreUnknown, Asks, CanBeCompleted, CannotGoOn, IsToldAt, IsWrong};
ghost use Rattle.jb_program.specs.UsageText.{escaped, shown};

use crate::words::fault::{LineFault, Reason, UsageFault};
use crate::words::help::VERSION;
use crate::words::request::{Line, Request, Word};
use clap::error::ErrorKind;
use clap::{Arg, ArgAction, ArgMatches, Command};
use jb_base::MAX_ROUNDS;
use std::alloc::{AllocError, Global};

/// The program with no word.
fn program<'a>(alloc: Global) -> Command<'a>
    ensures { app_of result ≡ program_app }
{
    Command::new(alloc, "batchrun")
        .no_binary_name(true)
        .disable_help_subcommand(true)
        .version(VERSION)
        .propagate_version(true)
}

/// The program with a word more, which takes no arguments.
fn with_word<'a>(
    alloc: Global,
    program: Command<'a>,
    name: &'a str,
) -> Result<Command<'a>, AllocError>
    ensures { IfOk result (λ c. app_of c ≡ with_subcommand (app_of program.entry) (word_app name.entry.now)) }
{
    let command = program.subcommand(Command::new(alloc, name))?;
    Ok(command)
}

/// The program with a word more, which takes a number of rounds.
fn with_limited<'a>(
    alloc: Global,
    program: Command<'a>,
    name: &'a str,
) -> Result<Command<'a>, AllocError>
    ensures { IfOk result (λ c. app_of c ≡ with_subcommand (app_of program.entry) (limited_app name.entry.now)) }
{
    let rounds = Arg::new(alloc, "rounds")
        .long("rounds")
        .action(ArgAction::Set);
    let word = Command::new(alloc, name).arg(rounds)?;
    let command = program.subcommand(word)?;
    Ok(command)
}

/// The program with the word `help` more, which takes a word.
fn with_help<'a>(alloc: Global, program: Command<'a>) -> Result<Command<'a>, AllocError>
    ensures { IfOk result (λ c. app_of c ≡ with_subcommand (app_of program.entry) help_app) }
{
    let help = Command::new(alloc, "help").arg(Arg::new(alloc, "word"))?;
    let command = program.subcommand(help)?;
    Ok(command)
}

/// The command line of the program.
fn command<'a>(alloc: Global) -> Result<Command<'a>, AllocError>
    ensures { IfOk result (λ c. app_of c ≡ app) }
{
    let with_run = with_limited(alloc, program(alloc), "run")?;
    let with_restart = with_limited(alloc, with_run, "restart")?;
    let with_plan = with_word(alloc, with_restart, "plan")?;
    let with_check = with_word(alloc, with_plan, "check")?;
    let command = with_help(alloc, with_check)?;
    Ok(command)
}

fn word_of(name: &str) -> Option<Word>
    ensures { result ≡ word_in name.now }
{
    match name {
        "run" => Some(Word::Run),
        "restart" => Some(Word::Restart),
        "plan" => Some(Word::Plan),
        "check" => Some(Word::Check),
        _ => None,
    }
}

/// The help that `help` gives: of the program, or of the subcommand after it.
fn topic_of(name: Option<&str>) -> Option<Request>
    ensures { result ≡ topic_in (option_map (λ n. n.now) name.entry) }
{
    match name {
        None | Some("help") => Some(Request::Help(None)),
        Some(name) => match word_of(name) {
            Some(word) => Some(Request::Help(Some(word))),
            None => None,
        },
    }
}

/// The number that decimal digits write, if it isn't past the most rounds.
fn rounds_of(text: &str) -> Option<u64>
    ensures { result ≡ rounds_of_word text.now }
{
    let digits = text.as_bytes();
    if digits.is_empty() {
        return None;
    }
    let mut value: u64 = 0;
    for digit in digits {
        if !digit.is_ascii_digit() {
            return None;
        }
        if value > MAX_ROUNDS {
            return None;
        }
        value = value * 10 + (*digit - b'0') as u64;
    }
    if value <= MAX_ROUNDS {
        Some(value)
    } else {
        None
    }
}

/// What a word asks for by itself, or with the number of rounds that is given.
fn perform_of(name: &str, given: Option<&str>) -> Option<Request>
    ensures { result ≡ perform_in name.now (option_map (λ n. n.now) given.entry) }
{
    let word = word_of(name)?;
    match given {
        None => Some(Request::Perform(Line { word, rounds: None })),
        Some(text) => match rounds_of(text) {
            Some(rounds) => Some(Request::Perform(Line {
                word,
                rounds: Some(rounds),
            })),
            None => None,
        },
    }
}

/// What the matches ask for.
fn request_of(matches: &ArgMatches<'_>) -> Option<Request>
    ensures { result ≡ request_in (subcommand_rows_of matches.now) }
{
    let Some((name, rest)) = matches.subcommand() else {
        return None;
    };
    match name {
        "help" => topic_of(rest.get_str("word")),
        _ => perform_of(name, rest.get_str("rounds")),
    }
}

/// What a call for help is about: the first word, if it is one that does something with a document.
fn topic_before(words: &[&str]) -> Option<Word>
    ensures { result ≡ topic_at (map (λ w. w.now) words.now) }
{
    match words.split_first() {
        Some((first, _)) => word_of(first),
        None => None,
    }
}

/// What the arguments ask for, if they ask for something.
fn asked<'a>(alloc: Global, words: &'a [&'a str]) -> Result<Option<Request>, LineFault>
    ensures asks { IfOk result (λ request. IfSome request (Asks (map (λ w. w.now) words.now))) }
    ensures nothing { IfOk result (λ request. request ≡ None → AreUnknown (map (λ w. w.now) words.now)) }
    ensures err { IfErr result (λ e. e ≡ LineFault.Memory) }
{
    let command = command(alloc)?;
    match command.try_get_matches_from(words) {
        Ok(matches) => Ok(request_of(&matches)),
        Err(fault) => match fault.kind() {
            ErrorKind::OutOfMemory => Err(LineFault::Memory),
            ErrorKind::DisplayHelp => Ok(Some(Request::Help(topic_before(words)))),
            ErrorKind::DisplayVersion => Ok(Some(Request::Version)),
            _ => Ok(None),
        },
    }
}

/// The arguments with a number after them.
fn with_a_number<'a>(alloc: Global, words: &'a [&'a str]) -> Result<Vec<&'a str>, AllocError>
    ensures { IfOk result (λ longer. map (λ w. w.now) longer.items ≡ map (λ w. w.now) words.now ++ codes "0" ∷ []) }
{
    let mut longer = Vec::with_capacity(alloc, words.len() + 1)?;
    for word in words {
        longer.push(*word)?;
    }
    longer.push("0")?;
    Ok(longer)
}

/// Whether the arguments ask for something, or would with a number after them.
fn can_go_on<'a>(alloc: Global, words: &'a [&'a str]) -> Result<bool, LineFault>
    ensures yes { IfOk result (λ can. can ≡ true → CanBeCompleted (map (λ w. w.now) words.now)) }
    ensures no { IfOk result (λ can. can ≡ false → CannotGoOn (map (λ w. w.now) words.now)) }
    ensures err { IfErr result (λ e. e ≡ LineFault.Memory) }
{
    if asked(alloc, words)?.is_some() {
        return Ok(true);
    }
    let longer = with_a_number(alloc, words)?;
    Ok(asked(alloc, &longer)?.is_some())
}

/// Whether the last of these arguments is `--rounds`.
fn end_in_rounds(words: &[&str]) -> bool
    ensures { result ≡ end_in_rounds (map (λ w. w.now) words.now) }
{
    match words.last() {
        Some(last) => *last == "--rounds",
        None => false,
    }
}

/// Why an argument is wrong after these.
fn reason_after(before: &[&str], word: &str) -> Reason
    ensures { result ≡ reason_after (map (λ w. w.now) before.now) word.now }
{
    let bytes = word.as_bytes();
    if bytes.starts_with("--rounds".as_bytes()) || end_in_rounds(before) {
        Reason::Rounds
    } else if topic_before(before).is_some() && !bytes.starts_with("-".as_bytes()) {
        Reason::Document
    } else {
        Reason::Unknown
    }
}

/// A character as it is written: a control character by its number, every other one as it is.
fn shown(alloc: Global, character: char) -> Result<String, AllocError>
    ensures { IfOk result (λ text. string_bytes text ≡ shown character) }
{
    if character.is_control() {
        let number = character as u32;
        format!(in alloc; "\\u{{{number:x}}}")
    } else {
        format!(in alloc; "{character}")
    }
}

/// A word as it is written.
fn escaped(alloc: Global, word: &str) -> Result<String, AllocError>
    ensures { IfOk result (λ text. string_bytes text ≡ escaped word.now) }
{
    let mut text = String::new(alloc);
    for character in word.chars() {
        let shown = shown(alloc, character)?;
        text.push_str(shown.as_str())?;
    }
    Ok(text)
}

/// What is said of the argument at this place.
fn told_of<'a>(alloc: Global, words: &'a [&'a str], place: usize) -> Result<UsageFault, AllocError>
    requires { place < length words.now }
    ensures { IfOk result (IsToldAt (map (λ w. w.now) words.now) place) }
{
    let word = words[place];
    let text = escaped(alloc, word)?;
    Ok(UsageFault::Wrong(text, reason_after(&words[..place], word)))
}

/// The fault of arguments that ask for nothing: the first argument up to which no number after them would help, else the last,
/// or that there are no arguments.
fn fault_in<'a>(alloc: Global, words: &'a [&'a str]) -> Result<UsageFault, LineFault>
    requires { AreUnknown (map (λ w. w.now) words.now) }
    ensures wrong { IfOk result (λ fault. IsWrong fault (Some (map (λ w. w.now) words.now))) }
    ensures err { IfErr result (λ e. e ≡ LineFault.Memory) }
{
    let Some((_, others)) = words.split_last() else {
        return Ok(UsageFault::NoWord);
    };
    for place in 0..others.len() {
        if !can_go_on(alloc, &words[..place + 1])? {
            return Ok(told_of(alloc, words, place)?);
        }
    }
    Ok(told_of(alloc, words, others.len())?)
}

/// What the arguments after the program's name ask for. If they ask for nothing, they are refused as `Usage`, with the first
/// argument up to which no number after them would help. If there is no such argument, it is the last, whose number is missing.
pub fn line_of<'a>(alloc: Global, words: &'a [&'a str]) -> Result<Request, LineFault>
    ensures ok { IfOk result (Asks (map (λ w. w.now) words.now)) }
    ensures err { IfErr result (λ e. (fault : UsageFault) → e ≡ LineFault.Usage fault → IsWrong fault (Some (map (λ w. w.now) words.now))) }
{
    match asked(alloc, words)? {
        Some(request) => Ok(request),
        None => Err(LineFault::Usage(fault_in(alloc, words)?)),
    }
}
