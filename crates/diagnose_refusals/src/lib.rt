//! Why the reply to a command is a refusal, for people: the fault of the text, of the rules, of the role or of the history, where it stands,
//! and what it is about.
#![tactic(auto)]

mod explaining;
mod headed;
mod passing;

pub use explaining::explanation;
