//! The reply to `moves`.
ghost use Rattle.std.specs.Prelude.{◌≡◌, ◌<◌, ◌++◌, IfOk, OnOk};
ghost use Rattle.std.specs.List.{flat_map};
ghost use Rattle.program_searches.specs.Histories.{named};
ghost use Rattle.statement.specs.Moving.{goal_line, legal_line, goal_lines, legal_lines, moves_lines, IsMovesReply};

use crate::history::{position_after, refused_history};
use crate::reply::{Reply, answered};
use game::{Game, HistoryFault, is_stuck};
use std::alloc::{AllocError, Global};
use std::io::Write;

/// Adds the line of a role and its goal value. After an error the output may have a beginning of it.
fn add_goal<G: Game>(
    game: &G,
    p: &G::Pos,
    role: usize,
    output: &mut Vec<u8>,
) -> Result<(), AllocError>
    requires fits { G.fits game.now p.now }
    requires role { role < (G.rules game.now).roles }
    ensures { OnOk result (output.new.items
        ≡ output.old.items ++ goal_line (named (G.rules game.now) (G.role_name game.now) (G.move_name game.now)) (G.state game.now p.now) role) }
{
    let value = game.goal(p, role);
    output.extend_from_slice(b"goal ")?;
    output.extend_from_slice(game.role_text(role))?;
    writeln!(output, " {value}").map_err(|_| AllocError)
}

/// Adds the goal of each role. After an error the output may have a beginning of them.
fn add_goals<G: Game>(game: &G, p: &G::Pos, output: &mut Vec<u8>) -> Result<(), AllocError>
    requires { G.fits game.now p.now }
    ensures { OnOk result (output.new.items
        ≡ output.old.items ++ goal_lines (named (G.rules game.now) (G.role_name game.now) (G.move_name game.now)) (G.state game.now p.now)) }
{
    for role in 0..game.roles() {
        add_goal(game, p, role, output)?;
    }
    Ok(())
}

/// Adds the line of a role and a move. After an error the output may have a beginning of it.
fn add_move<G: Game>(
    game: &G,
    role: usize,
    number: u32,
    output: &mut Vec<u8>,
) -> Result<(), AllocError>
    requires role { role < (G.rules game.now).roles }
    requires number { number < (G.rules game.now).moves role }
    ensures { OnOk result (output.new.items
        ≡ output.old.items ++ legal_line (named (G.rules game.now) (G.role_name game.now) (G.move_name game.now)) role number) }
{
    output.extend_from_slice(b"legal ")?;
    output.extend_from_slice(game.role_text(role))?;
    output.push(b' ')?;
    output.extend_from_slice(game.move_text(role, number))?;
    output.push(b'\n')?;
    Ok(())
}

/// Adds the legal moves of a role. After an error the output may have a beginning of them.
fn add_moves_of<G: Game>(
    game: &G,
    p: &G::Pos,
    role: usize,
    output: &mut Vec<u8>,
) -> Result<(), AllocError>
    requires fits { G.fits game.now p.now }
    requires role { role < (G.rules game.now).roles }
    ensures { OnOk result (output.new.items ≡ output.old.items
        ++ flat_map (legal_line (named (G.rules game.now) (G.role_name game.now) (G.move_name game.now)) role)
        ((G.rules game.now).legal (G.state game.now p.now) role)) }
{
    let mut place = 0;
    while let Some(number) = game.legal(p, role, place) {
        add_move(game, role, number, output)?;
        place += 1;
    }
    Ok(())
}

/// Adds the legal moves of each role. After an error the output may have a beginning of them.
fn add_moves<G: Game>(game: &G, p: &G::Pos, output: &mut Vec<u8>) -> Result<(), AllocError>
    requires { G.fits game.now p.now }
    ensures { OnOk result (output.new.items
        ≡ output.old.items ++ legal_lines (named (G.rules game.now) (G.role_name game.now) (G.move_name game.now)) (G.state game.now p.now)) }
{
    for role in 0..game.roles() {
        add_moves_of(game, p, role, output)?;
    }
    Ok(())
}

/// How play stands, and then the goals of a game that has ended, else the legal moves.
fn state_lines<G: Game>(alloc: Global, game: &G, p: &G::Pos) -> Result<Vec<u8>, AllocError>
    requires { G.fits game.now p.now }
    ensures { IfOk result (λ output. output.items
        ≡ moves_lines (named (G.rules game.now) (G.role_name game.now) (G.move_name game.now)) (G.state game.now p.now)) }
{
    let mut output = Vec::new(alloc);
    if game.ended(p) {
        output.extend_from_slice(b"state ended\n")?;
        add_goals(game, p, &mut output)?;
        return Ok(output);
    }
    if is_stuck(game, p) {
        output.extend_from_slice(b"state stuck\n")?;
        add_moves(game, p, &mut output)?;
        return Ok(output);
    }
    output.extend_from_slice(b"state open\n")?;
    add_moves(game, p, &mut output)?;
    Ok(output)
}

/// The reply to `moves` after the history of a text: the line that names its fault, or how play stands after
/// it, with the goals of a game that has ended, else the legal moves.
pub fn moves_reply<G: Game>(alloc: Global, game: &G, after: &str) -> Result<Reply, AllocError>
    ensures { IfOk result (λ reply. IsMovesReply (named (G.rules game.now) (G.role_name game.now) (G.move_name game.now)) after.now
        (record { output = reply.output.items; status = reply.status })) }
{
    match position_after(alloc, game, after) {
        Ok(p) => Ok(answered(state_lines(alloc, game, &p)?)),
        Err(HistoryFault::NoMemory) => Err(AllocError),
        Err(fault) => refused_history(alloc, game, fault),
    }
}
