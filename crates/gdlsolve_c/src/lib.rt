//! The library for C: a call that answers a command over rules with the reply of the program `gdlsolve`, one that explains a refusal, and
//! a handle on rules over which many commands are asked. The calling thread does all the work, and nothing is kept but behind a handle.
#![tactic(auto)]

mod asking;
mod call;
mod explaining;
mod handle;
mod handle_calls;
mod opening;
mod parts;
mod told;

pub use call::gdlsolve_reply;
pub use explaining::gdlsolve_explain;
pub use handle_calls::{gdlsolve_ask, gdlsolve_close, gdlsolve_open};
