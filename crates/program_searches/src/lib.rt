//! What is told of a game: the state after a history, the moves in it, and what searches find, at once, within a window, for each move, or turn
//! by turn further.
#![tactic(auto)]

mod asked_alone;
mod best_play;
mod deepening;
mod finding;
mod flushing;
mod history;
mod kept_search;
mod moving;
mod play;
mod reply;
mod roles;
mod search;
mod settling;
mod solving;
mod windowed;
mod worths;
mod writing;

pub use asked_alone::{Wanted, role_reply};
pub use best_play::{search_for, start_for};
pub use deepening::Deepening;
pub use finding::Found;
pub use flushing::Flushing;
pub use history::{position_after, refused_history};
pub use kept_search::KeptSearch;
pub use moving::moves_reply;
pub use reply::{Reply, add_count, answered, refused};
pub use search::{Search, Start, told_alone};
pub use solving::value_lines;
