//! The command line: what its words ask for, and where the rules come from.
#![tactic(auto)]

mod command;
mod grammar;
mod request;
mod searching;
mod source;

pub use command::{Command, Inquiry, Language, Sought};
pub use request::{Asked, Request, asked_of, request_in};
pub use source::{Source, source_of, tell_unread};
