//! The line of best play behind a state, played ahead with help.
//!
//! Who plays the line asks of each of its states more than the search of the first one found: whether each earlier move, and each earlier
//! reply, is worth less. That is found here, where it is long by many, and stands in the tables then.
ghost use Rattle.std.specs.Prelude.{◌≡◌, ◌-◌, ◌<◌, ◌≤◌, pos, Contains, IfOk};
ghost use Rattle.statement.specs.Value.{value, worst, choice_of, reply_of};
ghost use Rattle.maximin.specs.Company.{company_game};
ghost use Rattle.maximin.specs.Open.{IsOpen};
ghost use Rattle.maximin.specs.Replies.{IsWritten};
ghost use Rattle.maximin.specs.Room.{IsRoomFor, IsRoomKept};
ghost use Rattle.share.specs.Found.{IsFound};

use crate::errand::{Errand, do_together};
use crate::helper::Aid;
use game::{Game, Joint, Question, new_joint};
use maximin::{KnownMove, Room, choice_by_value, choice_if_short, reply_by_value, reply_if_short};
use std::alloc::{AllocError, Global};
use std::mem;
use std::thread::Threads;

/// The first move that attains the value of a state, which is `worth`. All workers search for it where that is long.
fn choose<R: Threads + Sync, G: Game>(
    rt: &R,
    aid: &Aid<'_, G>,
    here: &G::Pos,
    asked: Question,
    worth: i16,
    room: &mut Room<G>,
) -> Option<u32>
    requires fits { G.fits aid.now.node.now.game.now here.now }
    requires company { company_game aid.now.company.now ≡ aid.now.node.now.game.now }
    requires room { IsRoomFor G.Game aid.now.node.now.game.now asked.role asked.depth room.old }
    requires worth { worth ≡ pos (value (G.rules aid.now.node.now.game.now) asked.role asked.depth asked.at (G.state aid.now.node.now.game.now here.now)) }
    ensures choice { result ≡ choice_of (G.rules aid.now.node.now.game.now) asked.role asked.depth asked.at (G.state aid.now.node.now.game.now here.now) }
    ensures room { IsRoomKept G.Game aid.now.node.now.game.now room.old room.new }
{
    let game = aid.node.game;
    if let Some(choice) = choice_if_short(game, here, asked, worth, room) {
        return choice;
    }
    let errand = Errand {
        alloc: aid.alloc,
        game,
        from: here,
        asked,
        worth,
        own: None,
        company: aid.company,
    };
    do_together(rt, &errand, aid.others as usize + 1);
    choice_by_value(game, here, asked, worth, room)
}

/// Writes the first reply to a move that leaves the least value, which is known. All workers search for it where that is long.
fn reply<R: Threads + Sync, G: Game>(
    rt: &R,
    aid: &Aid<'_, G>,
    here: &G::Pos,
    asked: Question,
    known: KnownMove,
    room: &mut Room<G>,
    out: &mut Joint,
)
    requires fits { G.fits aid.now.node.now.game.now here.now }
    requires company { company_game aid.now.company.now ≡ aid.now.node.now.game.now }
    requires room { IsRoomFor G.Game aid.now.node.now.game.now asked.role asked.depth room.old }
    requires turn { IsOpen (G.rules aid.now.node.now.game.now) asked.depth (G.state aid.now.node.now.game.now here.now) }
    requires own { Contains ((G.rules aid.now.node.now.game.now).legal (G.state aid.now.node.now.game.now here.now) asked.role) known.own }
    requires worth { known.worth ≡ pos (worst (G.rules aid.now.node.now.game.now) asked.role (asked.depth - 1) asked.at (G.state aid.now.node.now.game.now here.now) known.own) }
    requires out { (G.rules aid.now.node.now.game.now).roles ≤ out.old.capacity }
    ensures reply { IsWritten (reply_of (G.rules aid.now.node.now.game.now) asked.role (asked.depth - 1) asked.at (G.state aid.now.node.now.game.now here.now) known.own)
        out.old out.new }
    ensures room { IsRoomKept G.Game aid.now.node.now.game.now room.old room.new }
{
    let game = aid.node.game;
    let KnownMove { own, worth } = known;
    if reply_if_short(game, here, asked, own, worth, room, out) {
        return;
    }
    let errand = Errand {
        alloc: aid.alloc,
        game,
        from: here,
        asked,
        worth,
        own: Some(own),
        company: aid.company,
    };
    do_together(rt, &errand, aid.others as usize + 1);
    reply_by_value(game, here, asked, own, worth, room, out);
}

/// A joint move with room for a move of each role.
fn blank_joint<G: Game>(alloc: Global, game: &G) -> Result<Joint, AllocError>
    ensures { IfOk result (λ joint. (G.rules game.now).roles ≤ joint.capacity) }
{
    let joint = new_joint(alloc, game.roles())?;
    Ok(joint)
}

/// Plays the line from a node, of which the value and the place of the first best move are known, with all workers, as far as the
/// memory for it can be had. Nothing comes of it but what stands in the tables.
pub fn play_ahead<R: Threads + Sync, G: Game>(rt: &R, aid: &Aid<'_, G>, worth: i16, first: u32)
    requires fits { G.fits aid.now.node.now.game.now aid.now.node.now.from.now }
    requires company { company_game aid.now.company.now ≡ aid.now.node.now.game.now }
    requires found { IsFound (G.rules aid.now.node.now.game.now) aid.now.node.now.asked.role aid.now.node.now.asked.depth aid.now.node.now.asked.at
        (G.state aid.now.node.now.game.now aid.now.node.now.from.now) worth first }
{
    let node = aid.node;
    let game = node.game;
    let Ok(mut here) = game.fresh() else {
        return;
    };
    let Ok(mut next) = game.fresh() else {
        return;
    };
    let Ok(mut joint) = blank_joint(aid.alloc, game) else {
        return;
    };
    let Ok(mut room) = Room::over_tables(aid.alloc, game, node.asked.depth, aid.company) else {
        return;
    };
    game.copy(node.from, &mut here);
    let mut chosen = game.legal(node.from, node.asked.role, first as usize);
    let mut asked = node.asked;
    while let Some(own) = chosen {
        let known = KnownMove { own, worth };
        reply(rt, aid, &here, asked, known, &mut room, &mut joint);
        game.step(&here, &joint, &mut next);
        mem::swap(&mut here, &mut next);
        asked = Question {
            depth: asked.depth - 1,
            ..asked
        };
        chosen = choose(rt, aid, &here, asked, worth, &mut room);
    }
}
