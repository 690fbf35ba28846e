//! From a history to the state after it.
ghost use Rattle.std.specs.Prelude.{◌≡◌, ◌≢◌, ◌<◌, length, find, Ok, Err, IfOk, IfErr, IfSome, OnOk, OnErr, slice_set};
ghost use Rattle.statement.specs.Tree.{text, name_eq};
ghost use Rattle.kif.specs.View.{tree_of, trees_in};
ghost use Rattle.statement.specs.Tree.{parts_of};
ghost use Rattle.smallvec.specs.SmallVec.{small_vec_len};
ghost use Rattle.statement.specs.Played.{is_turn_list, form_faults, turn_faults, illegal_faults, first_history_fault, AreFormed, named_move, named_turn, played};
ghost use Rattle.statement.specs.Rules.{IsTurn};
ghost use Rattle.statement.specs.HistoryTexts.{IsRoleOf};

use crate::game::Game;
use crate::joint::{Joint, new_joint, put_move};
use crate::stuck::is_stuck;
use kif::{Expr, count_parts, is_name, text_is};
use statement::HistoryFault;
use std::alloc::{AllocError, Allocator, Global};
use std::mem;

/// The parts of a tree. A name has none.
fn parts<A: Allocator>(turn: &Expr<A>) -> &[Expr<A>]
    ensures { trees_in result.now ≡ parts_of (tree_of turn.now) }
{
    match turn {
        Expr::Name(_) => &[],
        Expr::List(parts) => parts.as_slice(),
    }
}

/// Whether the tree is a list with a part for each role.
fn is_formed<A: Allocator>(roles: usize, turn: &Expr<A>) -> bool
    ensures { result ≡ is_turn_list roles (tree_of turn.now) }
{
    !is_name(turn) && count_parts(turn) == roles
}

/// Refuses the first turn that is not a list with a part for each role.
fn check_forms<A: Allocator>(roles: usize, turns: &[Expr<A>]) -> Result<(), HistoryFault>
    ensures faults { result ≡ first_history_fault (form_faults roles (trees_in turns.now)) tt }
    ensures formed { OnOk result (AreFormed roles (trees_in turns.now)) }
    ensures role { IfErr result (IsRoleOf roles) }
{
    for place in 0..turns.len() {
        if !is_formed(roles, &turns[place]) {
            return Err(HistoryFault::BadForm(place + 1));
        }
    }
    Ok(())
}

/// The legal move of a role that has the text of the tree.
fn find_move<G: Game, A: Allocator>(
    game: &G,
    p: &G::Pos,
    role: usize,
    part: &Expr<A>,
) -> Option<u32>
    requires fits { G.fits game.now p.now }
    requires role { role < (G.rules game.now).roles }
    ensures known { IfSome result (λ m. m < (G.rules game.now).moves role) }
    ensures found { result ≡ find (λ m. name_eq (text (tree_of part.now)) (G.move_name game.now role m))
        ((G.rules game.now).legal (G.state game.now p.now) role) }
{
    let mut place = 0;
    while let Some(number) = game.legal(p, role, place) {
        if text_is(part, game.move_text(role, number)) {
            return Some(number);
        }
        place += 1;
    }
    None
}

/// Writes the joint move that the parts of a turn name, or refuses the first role whose part is no legal move of its own.
fn read_moves<G: Game, A: Allocator>(
    game: &G,
    p: &G::Pos,
    number: usize,
    parts: &[Expr<A>],
    joint: &mut Joint,
) -> Result<(), HistoryFault>
    requires fits { G.fits game.now p.now }
    requires parts { length parts.now ≡ (G.rules game.now).roles }
    requires joint { small_vec_len joint.old ≡ (G.rules game.now).roles }
    ensures faults { result ≡ first_history_fault (illegal_faults (G.rules game.now) (G.move_name game.now) (G.state game.now p.now) (trees_in parts.now) number) tt }
    ensures moves { OnOk result (joint.new.items ≡ named_turn (G.rules game.now) (G.move_name game.now) (G.state game.now p.now) (trees_in parts.now)) }
    ensures turn { OnOk result (IsTurn (G.rules game.now) joint.new.items) }
    ensures role { IfErr result (IsRoleOf (G.rules game.now).roles) }
    ensures length { small_vec_len joint.new ≡ (G.rules game.now).roles }
{
    for role in 0..game.roles() {
        let Some(chosen) = find_move(game, p, role, &parts[role]) else {
            return Err(HistoryFault::NotLegal(number, role));
        };
        put_move(joint, role, chosen);
    }
    Ok(())
}

/// Writes the joint move that a turn names, or refuses the turn.
fn read_turn<G: Game, A: Allocator>(
    game: &G,
    p: &G::Pos,
    number: usize,
    parts: &[Expr<A>],
    joint: &mut Joint,
) -> Result<(), HistoryFault>
    requires fits { G.fits game.now p.now }
    requires parts { length parts.now ≡ (G.rules game.now).roles }
    requires joint { small_vec_len joint.old ≡ (G.rules game.now).roles }
    ensures faults { result ≡ first_history_fault (turn_faults (G.rules game.now) (G.move_name game.now) (G.state game.now p.now) (trees_in parts.now) number) tt }
    ensures moves { OnOk result (joint.new.items ≡ named_turn (G.rules game.now) (G.move_name game.now) (G.state game.now p.now) (trees_in parts.now)) }
    ensures turn { OnOk result (IsTurn (G.rules game.now) joint.new.items) }
    ensures role { IfErr result (IsRoleOf (G.rules game.now).roles) }
    ensures length { small_vec_len joint.new ≡ (G.rules game.now).roles }
{
    if game.ended(p) {
        return Err(HistoryFault::Over(number));
    }
    if is_stuck(game, p) {
        return Err(HistoryFault::Stuck(number));
    }
    read_moves(game, p, number, parts, joint)
}

/// Plays a history from the start state, and writes to `p` the state after it. Each turn, counted from 1, is a list of a move for
/// each role, in the order of the roles. A turn that is no such list is refused before all others; then, turn by turn, one before
/// which the game has ended or is stuck, and the first role whose part is not one of its legal moves. After a refusal, want of
/// memory included, `p` is unchanged.
pub fn replay<G: Game, A: Allocator>(
    alloc: Global,
    game: &G,
    turns: &[Expr<A>],
    p: &mut G::Pos,
) -> Result<(), HistoryFault>
    requires { G.fits game.now p.old }
    ensures fits { G.fits game.now p.new }
    ensures played { OnOk result (played (G.rules game.now) (G.move_name game.now) (trees_in turns.now) ≡ Ok (G.state game.now p.new)) }
    ensures refused { IfErr result (λ fault. fault ≢ HistoryFault.NoMemory → played (G.rules game.now) (G.move_name game.now) (trees_in turns.now) ≡ Err
        fault) }
    ensures role { IfErr result (IsRoleOf (G.rules game.now).roles) }
    ensures capacities { G.capacities game.now p.new ≡ G.capacities game.now p.old }
    ensures unchanged { OnErr result (p.new ≡ p.old) }
{
    check_forms(game.roles(), turns)?;
    let mut here = game.fresh()?;
    let mut next = game.fresh()?;
    let mut joint = new_joint(alloc, game.roles())?;
    for place in 0..turns.len() {
        read_turn(game, &here, place + 1, parts(&turns[place]), &mut joint)?;
        game.step(&here, &joint, &mut next);
        mem::swap(&mut here, &mut next);
    }
    game.copy(&here, p);
    Ok(())
}
