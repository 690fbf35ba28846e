//! Items as numbers in flat lists, with `or` and `and` spread out, and whether their alternatives are safe.
#![tactic(auto)]

mod items;
mod numbered;
mod readings;
mod safety;
mod signatures;
mod spread;
mod store;
mod symbols;

pub use items::{Item, read_item};
pub use numbered::{Alternative, Atom, Literal, Part, SharedAlternative, Span};
pub use safety::is_safe_item;
pub use signatures::{Signature, Signatures};
pub use spread::numbers_at;
pub use store::Store;
pub use symbols::Symbols;
