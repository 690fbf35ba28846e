//! The command `unroll`: a description of the whole language, in which relations may rest on themselves and `base` and `input` need not be
//! stated, written out as one that every other command takes.
//!
//! What is proved of the text that is written is what the crate `unroll` says: it is accepted, and states the same roles in the same order.
//! That it is played the same is tested, beside an interpreter of the whole language.
#![tactic(auto)]

mod command;
mod crossing;
mod explaining;
mod replying;
mod told;
mod wording;

pub use command::run_unroll;
pub use replying::unroll_reply;
pub use told::{Told, unroll_read, write_told};
