//! One run: a command from the bytes of the input to those of the output and the exit status, with what explains it on the errors. Who plays
//! the game of the rules is a type, and so is who tells of a state where nothing is searched; `run` plays over the network and tells over
//! the kept instances.
#![tactic(auto)]

mod explained;
mod linting;
mod over_game;
mod reporting;
mod runs;
mod sizes;
mod texts;
mod warning;
mod working;

pub use explained::run_explained;
pub use linting::run_lint;
pub use over_game::reply_by_game;
pub use program_streams::RunFault;
pub use reporting::lint_reply;
pub use runs::{Ran, ended, run, run_with};
pub use texts::{show_help, tell_misuse};
pub use working::{reply_by_workers, told_by_workers};
