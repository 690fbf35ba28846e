//! The reply to each command over rules as bytes, and the game of rules that is kept from one question over them to the next.
#![tactic(auto)]

mod alone;
mod asking;
mod games;
mod laws;
mod making;
mod over_game;
mod reading;
mod replying;
mod sizes;
mod standing;

pub use alone::reply_alone;
pub use asking::{Asked, ask};
pub use laws::each_input_has_one_reply;
pub use making::{game_alone, game_over};
pub use program_searches::{Reply, Search};
pub use reading::{Reading, check, read, show};
pub use replying::{replied_alone, reply_by, reply_kept};
