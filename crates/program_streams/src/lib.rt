//! The streams of the program: the whole input is read, the output is written and flushed, the errors are told, and the exit status says
//! how that ended.
#![tactic(auto)]

mod fault;
mod input;
mod output;
mod status;

pub use fault::RunFault;
pub use input::read_input;
pub use output::write_out;
pub use status::{status_of, tell};
