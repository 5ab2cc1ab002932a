//! Why the command line asks for nothing.

ghost use Rattle.std.specs.Prelude.{◌≡◌};
ghost use Rattle.jb_program.specs.UsageText.{advice_on};

use std::alloc::AllocError;
use std::fmt;
use thiserror::Error;

/// Why an argument is wrong.
#[derive(Clone, Copy, Debug, PartialEq, Eq)]
pub enum Reason {
    /// It is `--rounds` in a wrong place, or once more, or its number is missing or is none.
    Rounds,
    /// It is where a document's path would be, and the document is read from standard input.
    Document,
    /// It is none of the words and options.
    Unknown,
}

/// What is wrong with the arguments.
#[derive(Debug, Drop, Error)]
pub enum UsageFault {
    /// There is none.
    NoWord,
    /// One of them is no text.
    NoText,
    /// This is the first one up to which they ask for nothing, with its control characters escaped, and why it is wrong.
    Wrong(String, Reason),
}

/// Where to find which arguments are right.
const ADVICE: &str = "batchrun --help says which words there are\n";

/// Which number `--rounds` takes, and where.
const ROUNDS_ADVICE: &str =
    "`--rounds N` comes once, after `run` or `restart`; N is a number from 0 to 1000000000\n";

/// Where a document comes from.
const DOCUMENT_ADVICE: &str = "a document is read from standard input: < job.json\n";

impl Reason {
    /// A line on what is right.
    #[tactic(auto, unfolding(crate::specs::UsageText::advice, crate::specs::UsageText::rounds_advice, crate::specs::UsageText::document_advice))]
    pub fn advice(self) -> &'static str
        ensures { result.now ≡ advice_on self }
    {
        match self {
            Reason::Rounds => ROUNDS_ADVICE,
            Reason::Document => DOCUMENT_ADVICE,
            Reason::Unknown => ADVICE,
        }
    }
}

/// Two lines: what is wrong, and what is right or where to find it.
impl fmt::Display for UsageFault {
    ghost use Rattle.std.specs.Prelude.{Some};
    ghost use Rattle.jb_program.specs.UsageText.{usage_text};

    ghost output = { λ fault. Some (usage_text fault) };

    #[tactic(auto, unfolding(crate::specs::UsageText::advice))]
    fn fmt<W: fmt::Write>(&self, f: &mut fmt::Formatter<W>) -> fmt::Result {
        match self {
            UsageFault::NoWord => f.write_str("no word\n")?,
            UsageFault::NoText => f.write_str("a word is no text\n")?,
            UsageFault::Wrong(word, reason) => {
                let advice = reason.advice();
                return write!(f, "wrong word: `{word}`\n{advice}");
            }
        }
        f.write_str(ADVICE)
    }
}

/// Why the command line asks for nothing.
#[derive(Debug, Drop, Error)]
pub enum LineFault {
    /// The arguments are wrong.
    #[error("{0}")]
    Usage(UsageFault),
    /// There was no memory to read them.
    #[error("no memory")]
    Memory,
}

impl From<AllocError> for LineFault {
    ghost use Rattle.std.specs.Prelude.{◌≡◌};
    ghost use Rattle.jb_program.specs.declared.words.fault.LineFault.TheVariants.{Memory};

    ghost from_gives = { λ _ e. e ≡ Memory };

    fn from(_e: AllocError) -> LineFault {
        LineFault::Memory
    }
}
