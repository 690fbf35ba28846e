//! Where things stand in a text: its lines and columns, its tokens, and the trees and words that are read from it.
#![tactic(auto)]

mod line;
mod place;
mod tokens;
mod trees;
mod walk;

pub use line::{Line, line_around};
pub use place::{Place, place_behind, place_of};
pub use tokens::{Token, TokenKind, Tokens};
pub use trees::{item_start, skip_tree, word_start};
pub use walk::Walk;
