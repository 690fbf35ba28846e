//! The search of a state by one worker, and others who help it where it is long.
ghost use Rattle.std.specs.Prelude.{◌≡◌, ◌<◌, pos, IfSome};
ghost use Rattle.statement.specs.Value.{value, choice_of};
ghost use Rattle.maximin.specs.Company.{company_game};
ghost use Rattle.share.specs.Found.{IsFound};

use crate::alone::{answer_if_short, answer_in};
use crate::errand::FEWEST_TURNS;
use crate::helper::{Aid, help_with};
use crate::line::play_ahead;
use crate::node::Node;
use game::{Game, Question};
use maximin::{Company, Room};
use search_split::Cut;
use std::alloc::Global;
use std::thread::{Threads, map_indices};

/// What the workers of a search share, if there are to be several, who are to keep what states are worth, and if it can be had.
pub fn company_of<G: Game>(
    alloc: Global,
    game: &G,
    asked: Question,
    cut: &Cut,
    bytes: usize,
) -> Option<Company<G>>
    ensures { IfSome result (λ company. company_game company ≡ game.now) }
{
    if cut.workers() <= 1 {
        return None;
    }
    let made_for = Question {
        depth: asked.depth.max(FEWEST_TURNS),
        ..asked
    };
    Company::within(alloc, game, made_for, bytes)
}

/// The value of a node and the place of its first best move, found over the tables, where the search is short and the memory for it can
/// be had. What it found before it got too long stands in the tables.
fn answer_unaided<G: Game>(aid: &Aid<'_, G>) -> Option<(i16, u32)>
    requires fits { G.fits aid.now.node.now.game.now aid.now.node.now.from.now }
    requires company { company_game aid.now.company.now ≡ aid.now.node.now.game.now }
    ensures { IfSome result (λ r. IsFound (G.rules aid.now.node.now.game.now) aid.now.node.now.asked.role aid.now.node.now.asked.depth aid.now.node.now.asked.at
        (G.state aid.now.node.now.game.now aid.now.node.now.from.now) r.0 r.1) }
{
    let node = aid.node;
    let Ok(mut room) = Room::over_tables(aid.alloc, node.game, node.asked.depth, aid.company) else {
        return None;
    };
    let (value, first) = answer_if_short(node, &mut room)?;
    Some((value, first))
}

/// The value of a node and the place of its first best move, found over the tables by the calling thread alone, where the memory for it
/// can be had.
fn answer_alone<G: Game>(aid: &Aid<'_, G>) -> Option<(i16, u32)>
    requires fits { G.fits aid.now.node.now.game.now aid.now.node.now.from.now }
    requires company { company_game aid.now.company.now ≡ aid.now.node.now.game.now }
    ensures { IfSome result (λ r. IsFound (G.rules aid.now.node.now.game.now) aid.now.node.now.asked.role aid.now.node.now.asked.depth aid.now.node.now.asked.at
        (G.state aid.now.node.now.game.now aid.now.node.now.from.now) r.0 r.1) }
{
    let node = aid.node;
    let Ok(mut room) = Room::over_tables(aid.alloc, node.game, node.asked.depth, aid.company) else {
        return None;
    };
    Some(answer_in(node, &mut room))
}

/// The value of a node and the place of its first best move, found over the tables, where the memory for it can be had.
fn answer_over_tables<G: Game>(aid: &Aid<'_, G>) -> Option<(i16, u32)>
    requires fits { G.fits aid.now.node.now.game.now aid.now.node.now.from.now }
    requires company { company_game aid.now.company.now ≡ aid.now.node.now.game.now }
    ensures { IfSome result (λ r. IsFound (G.rules aid.now.node.now.game.now) aid.now.node.now.asked.role aid.now.node.now.asked.depth aid.now.node.now.asked.at
        (G.state aid.now.node.now.game.now aid.now.node.now.from.now) r.0 r.1) }
{
    let node = aid.node;
    let Ok(mut room) = Room::in_company(aid.alloc, node.game, node.asked.depth, aid.company, 0)
    else {
        return None;
    };
    Some(answer_in(node, &mut room))
}

/// The same, and then the word to the others that it is done.
fn answer_and_tell<G: Game>(aid: &Aid<'_, G>) -> Option<(i16, u32)>
    requires fits { G.fits aid.now.node.now.game.now aid.now.node.now.from.now }
    requires company { company_game aid.now.company.now ≡ aid.now.node.now.game.now }
    ensures { IfSome result (λ r. IsFound (G.rules aid.now.node.now.game.now) aid.now.node.now.asked.role aid.now.node.now.asked.depth aid.now.node.now.asked.at
        (G.state aid.now.node.now.game.now aid.now.node.now.from.now) r.0 r.1) }
{
    let found = answer_over_tables(aid);
    aid.company.end();
    found
}

/// What the worker of a number does: the first answers, and the others help.
fn take_part<G: Game>(aid: &Aid<'_, G>, worker: usize) -> Option<(i16, u32)>
    requires fits { G.fits aid.now.node.now.game.now aid.now.node.now.from.now }
    requires company { company_game aid.now.company.now ≡ aid.now.node.now.game.now }
    ensures { IfSome result (λ r. IsFound (G.rules aid.now.node.now.game.now) aid.now.node.now.asked.role aid.now.node.now.asked.depth aid.now.node.now.asked.at
        (G.state aid.now.node.now.game.now aid.now.node.now.from.now) r.0 r.1) }
{
    if worker > 0 {
        help_with(aid, worker - 1);
        return None;
    }
    answer_and_tell(aid)
}

/// What the first of the workers answers, each in a thread of its own.
fn answer_by_parts<R: Threads + Sync, G: Game>(rt: &R, aid: &Aid<'_, G>) -> Option<(i16, u32)>
    requires fits { G.fits aid.now.node.now.game.now aid.now.node.now.from.now }
    requires company { company_game aid.now.company.now ≡ aid.now.node.now.game.now }
    ensures { IfSome result (λ r. IsFound (G.rules aid.now.node.now.game.now) aid.now.node.now.asked.role aid.now.node.now.asked.depth aid.now.node.now.asked.at
        (G.state aid.now.node.now.game.now aid.now.node.now.from.now) r.0 r.1) }
{
    let part = |worker: usize| -> Option<(i16, u32)>
        requires { G.fits aid.now.node.now.game.now aid.now.node.now.from.now × (company_game aid.now.company.now ≡ aid.now.node.now.game.now) }
        ensures { IfSome result (λ r. IsFound (G.rules aid.entry.now.node.now.game.now) aid.entry.now.node.now.asked.role aid.entry.now.node.now.asked.depth aid.entry.now.node.now.asked.at
            (G.state aid.entry.now.node.now.game.now aid.entry.now.node.now.from.now) r.0 r.1) }
    { take_part(aid, worker) };
    let Ok(found) = map_indices(rt, aid.alloc, aid.others as usize + 1, &part) else {
        return None;
    };
    found[0]
}

/// The value of a node and the place of its first best move, by the calling thread where the search is short or of few turns, and else by one
/// thread with so many others who help it, also with the line of best play behind it. There is none where the memory for it is refused.
fn answer_with_help<R: Threads + Sync, G: Game>(
    rt: &R,
    node: &Node<'_, G>,
    company: &Company<G>,
    others: u32,
    alloc: Global,
) -> Option<(i16, u32)>
    requires fits { G.fits node.now.game.now node.now.from.now }
    requires company { company_game company.now ≡ node.now.game.now }
    ensures { IfSome result (λ r. IsFound (G.rules node.now.game.now) node.now.asked.role node.now.asked.depth node.now.asked.at
        (G.state node.now.game.now node.now.from.now) r.0 r.1) }
{
    let aid = Aid {
        alloc,
        node,
        company,
        others,
    };
    if node.asked.depth < FEWEST_TURNS {
        return answer_alone(&aid);
    }
    if let Some(found) = answer_unaided(&aid) {
        return Some(found);
    }
    company.forget_cuts();
    let (value, first) = answer_by_parts(rt, &aid)?;
    play_ahead(rt, &aid, value, first);
    Some((value, first))
}

/// The value of a state, and the first move of the role that attains it, by one thread, with so many others who help it once the search is
/// long. There is none where the state has no node, or where the memory for it is refused.
pub fn answer_helped<R: Threads + Sync, G: Game>(
    rt: &R,
    alloc: Global,
    game: &G,
    from: &G::Pos,
    asked: Question,
    company: &Company<G>,
    others: u32,
) -> Option<(i16, Option<u32>)>
    requires fits { G.fits game.now from.now }
    requires role { asked.role < (G.rules game.now).roles }
    requires company { company_game company.now ≡ game.now }
    ensures value { IfSome result (λ r. r.0 ≡ pos (value (G.rules game.now) asked.role asked.depth asked.at (G.state game.now from.now))) }
    ensures choice { IfSome result (λ r. r.1 ≡ choice_of (G.rules game.now) asked.role asked.depth asked.at (G.state game.now from.now)) }
{
    let Ok(Some(node)) = Node::new(alloc, game, from, asked) else {
        return None;
    };
    let (value, first) = answer_with_help(rt, &node, company, others, alloc)?;
    Some((value, game.legal(from, asked.role, first as usize)))
}
