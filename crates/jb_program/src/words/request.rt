//! What the command line asks for.

/// What the program does with a document.
#[derive(Clone, Copy, Debug, PartialEq, Eq)]
pub enum Word {
    /// Runs a job.
    Run,
    /// Goes on with a job that was stopped or failed.
    Restart,
    /// Prints a plan of the fewest rounds.
    Plan,
    /// Checks a plan of rounds and its certificate.
    Check,
}

/// A subcommand, and what its arguments say besides its document.
#[derive(Clone, Copy, Debug, PartialEq, Eq)]
pub struct Line {
    pub word: Word,
    /// After how many rounds a step is to stop: 0 to 1,000,000,000, with `run` and `restart` alone. Without it no round is the
    /// last.
    pub rounds: Option<u64>,
}

/// What the command line asks for.
#[derive(Clone, Copy, Debug, PartialEq, Eq)]
pub enum Request {
    /// Do this with the document on standard input.
    Perform(Line),
    /// Print the help: the program's, or that of a word. Nothing is read.
    Help(Option<Word>),
    /// Print the program's version. Nothing is read.
    Version,
}
