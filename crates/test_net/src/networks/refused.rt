//! Calls whose growths are refused: where all memory is taken, and one by one by tests/refuse, which counts those between two marks.
use super::add_state;
use crate::made::{net_game, rule_game, rules_of};
use game::{Game, HistoryFault, replay};
use game_rules::RuleGame;
use ground::instantiate;
use kif::{Expr, read};
use position::NetGame;
use propnet::Net;
use std::alloc::{AllocError, AllocGlobal, Global};
use std::process::Abort;
use std::test::Fail;
use test_games::memory::{filled, mark};
use test_games::texts::MATCH;

/// How many bytes are left beside the blocks that take all the rest.
const ROOM: usize = 1 << 20;

/// The greatest block that can be had of the room, less so many bytes.
fn held(alloc: Global, free: usize) -> Result<Vec<u8>, AllocError> {
    let mut size = ROOM;
    for _ in 0..10_000u32 {
        let block: Result<Vec<u8>, AllocError> = Vec::with_capacity(alloc, size);
        if block.is_ok() {
            break;
        }
        size = size.saturating_sub(16);
    }
    Vec::with_capacity(alloc, size.saturating_sub(free))
}

/// What is told of a state.
fn told<G: Game>(alloc: Global, game: &G, p: &G::Pos) -> Result<Vec<u8>, Fail>
    requires { G.fits game.now p.now }
{
    let mut text = Vec::with_capacity(alloc, 256)?;
    add_state(game, p, &mut text)?;
    Ok(text)
}

/// Plays a history that changes what is told, with so many bytes to take, and answers whether that was enough. Where it was not, the
/// position is told of as before.
fn plays_within<R: Abort + AllocGlobal, G: Game>(
    rt: &R,
    game: &G,
    turns: &[Expr<Global>],
    free: usize,
) -> Result<bool, Fail> {
    let alloc = rt.alloc();
    let mut p = game.fresh()?;
    let before = told(alloc, game, &p)?;
    let taken = held(alloc, free)?;
    mark(alloc);
    let played = replay(alloc, game, turns, &mut p);
    mark(alloc);
    drop(taken);
    let after = told(alloc, game, &p)?;
    let starved = played == Err(HistoryFault::NoMemory);
    assert!(rt; played.is_ok() || starved);
    assert_eq!(rt; after == before, starved);
    Ok(!starved)
}

/// Plays where all memory is taken, then with some left, and more and more, and answers how often it was not enough.
fn refused_times<R: Abort + AllocGlobal, G: Game>(rt: &R, game: &G) -> Result<usize, Fail> {
    let alloc = rt.alloc();
    let turns = read(alloc, b"(h t)")?;
    // A large block that was given back lets the next ones come from the heap.
    drop(held(alloc, 0)?);
    let room = held(alloc, 0)?;
    let _blocks = filled(alloc)?;
    drop(room);
    for times in 0..10_000usize {
        if plays_within(rt, game, &turns, times.saturating_mul(8))? {
            return Ok(times);
        }
    }
    Err(Fail::new("it was never played"))
}

#[test]
fn refused_history_leaves_a_position_of_rules(rt: HostRuntime) -> Result<(), Fail> {
    let game = rule_game(&rt, MATCH)?;
    assert!(rt; refused_times(&rt, &game)? > 0);
    Ok(())
}

#[test]
fn refused_history_leaves_a_position_of_a_network(rt: HostRuntime) -> Result<(), Fail> {
    let game = net_game(&rt, MATCH)?;
    assert!(rt; refused_times(&rt, &game)? > 0);
    Ok(())
}

/// Plays with enough memory, or ends with an error for want of it.
fn plays<R: Abort + AllocGlobal, G: Game>(rt: &R, game: &G) -> Result<(), Fail> {
    let turns = read(rt.alloc(), b"(h t)")?;
    if plays_within(rt, game, &turns, ROOM)? {
        Ok(())
    } else {
        Err(Fail::new("no memory"))
    }
}

#[test]
fn history_is_played_over_rules(rt: HostRuntime) -> Result<(), Fail> {
    let game = rule_game(&rt, MATCH)?;
    plays(&rt, &game)
}

#[test]
fn history_is_played_over_a_network(rt: HostRuntime) -> Result<(), Fail> {
    let game = net_game(&rt, MATCH)?;
    plays(&rt, &game)
}

#[test]
fn game_of_rules_is_made(rt: HostRuntime) -> Result<(), Fail> {
    let ground = instantiate(&rt, &rules_of(rt.alloc(), MATCH)?)?;
    mark(rt.alloc());
    let game = RuleGame::new(rt.alloc(), ground);
    mark(rt.alloc());
    assert_eq!(rt; game?.roles(), 2);
    Ok(())
}

#[test]
fn game_of_a_network_is_made(rt: HostRuntime) -> Result<(), Fail> {
    let ground = instantiate(&rt, &rules_of(rt.alloc(), MATCH)?)?;
    let net = Net::compile(rt.alloc(), &ground)?;
    mark(rt.alloc());
    let game = NetGame::new(rt.alloc(), ground, net);
    mark(rt.alloc());
    assert_eq!(rt; game?.roles(), 2);
    Ok(())
}
