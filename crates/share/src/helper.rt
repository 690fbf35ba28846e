//! Workers who help another: they search the same state over the same tables, and throw away what they find.
//!
//! A helper puts off the states that another worker has in hand, so that each goes where the others are not. Its search ends once the
//! one that it helps is over. No answer rests on what a helper finds: whatever a search keeps in the tables holds.
ghost use Rattle.std.specs.Prelude.{◌≡◌};
ghost use Rattle.maximin.specs.Company.{company_game};

use crate::node::Node;
use game::Game;
use maximin::{Company, Room, help};
use std::alloc::Global;

/// What the workers of a search go by.
#[derive(Drop)]
pub struct Aid<'a, G: Game> {
    pub alloc: Global,
    pub node: &'a Node<'a, G>,
    pub company: &'a Company<G>,
    /// How many help the first worker.
    pub others: u32,
}

/// Helps with a search, beside so many other helpers who came before.
pub fn help_with<G: Game>(aid: &Aid<'_, G>, before: usize)
    requires fits { G.fits aid.now.node.now.game.now aid.now.node.now.from.now }
    requires company { company_game aid.now.company.now ≡ aid.now.node.now.game.now }
{
    let node = aid.node;
    let number = (before % 128) as u8 + 1;
    let Ok(mut room) = Room::in_company(aid.alloc, node.game, node.asked.depth, aid.company, number)
    else {
        return;
    };
    help(node.game, node.from, node.asked, &mut room);
}
