//! All that the program does, once its words are read: a command, over a description as it is found too, findings, a description that is
//! written out, or a session of many requests.
#![tactic(auto)]

mod answering;
mod found;
mod found_rules;
mod framing;
mod game_kept;
mod program;
mod session;
mod splitting;

pub use found::run_found;
pub use program::main_program;
