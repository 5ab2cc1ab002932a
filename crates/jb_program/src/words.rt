//! The command line, and what each subcommand does with a document.
//!
//! - `process`: the arguments after the program's name.
//! - `request`, `line`: what they ask for.
//! - `fault`: why they ask for nothing.
//! - `help`: what the program says of itself.
//! - `run`, `restart`, `plan`, `check`: the subcommands.

mod check;
mod fault;
mod help;
mod line;
mod plan;
mod process;
mod request;
mod restart;
mod run;

pub use check::run_check;
pub use fault::{LineFault, UsageFault};
pub use help::{write_help, write_version};
pub use line::line_of;
pub use plan::run_plan;
pub use process::{arguments, words_after_name};
pub use request::{Line, Request, Word};
pub(crate) use restart::restart;
pub(crate) use run::run;
