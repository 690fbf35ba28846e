//! The lines that tell what a state is worth and how play goes on, written piece by piece. Nothing here takes memory.
ghost use Rattle.std.specs.Prelude.{◌≡◌, ◌<◌, ◌-◌, nat_abs, pos, IfSome, OnOk, OnErr, Contains};
ghost use Rattle.std.specs.Fmt.{decimal};
ghost use Rattle.std.specs.Io.KnownBytes.{Appends};
ghost use Rattle.statement.specs.Output.{AppendsFront};
ghost use Rattle.statement.specs.Rules.{IsTurn};
ghost use Rattle.statement.specs.Value.{worst, line_of};
ghost use Rattle.statement.specs.Checking.{count_line, spaced};
ghost use Rattle.statement.specs.Solving.{move_line, choice_text, move_texts, turn_line, turn_lines, solve_lines};
ghost use Rattle.statement.specs.MoveLines.{line_behind};
ghost use Rattle.maximin.specs.Open.{IsOpen};
ghost use Rattle.program_searches.specs.Histories.{named};
ghost use Rattle.program_searches.specs.Play.{IsPlayFor, IsPlayKept, IsFoundOf};

use crate::finding::Found;
use crate::play::Play;
use game::{Game, Joint, Question};
use kif::{WriteFault, write_bytes};
use maximin::choice_by_value;
use std::io::Write;

/// Writes a number in decimal.
fn write_number<W: Write>(number: u64, out: &mut W) -> Result<(), WriteFault>
    ensures whole { OnOk result (Appends (W.contents out.old) (W.contents out.new) (decimal number)) }
    ensures front { OnErr result (AppendsFront (W.contents out.old) (W.contents out.new) (decimal number)) }
{
    let mut digits = itoa::Buffer::new();
    write_bytes(out, digits.format(number).as_bytes())
}

/// Writes a line of a word and a count.
pub(crate) fn write_count<W: Write>(word: &[u8], count: u64, out: &mut W) -> Result<(), WriteFault>
    ensures whole { OnOk result (Appends (W.contents out.old) (W.contents out.new) (count_line word.now count)) }
    ensures front { OnErr result (AppendsFront (W.contents out.old) (W.contents out.new) (count_line word.now count)) }
{
    write_bytes(out, word)?;
    write_bytes(out, b" ")?;
    write_number(count, out)?;
    write_bytes(out, b"\n")
}

/// Writes each move of a joint move with a space before it.
fn write_moves<G: Game, W: Write>(game: &G, joint: &Joint, out: &mut W) -> Result<(), WriteFault>
    requires { IsTurn (G.rules game.now) joint.now.items }
    ensures whole { OnOk result (Appends (W.contents out.old) (W.contents out.new)
        (spaced (move_texts (named (G.rules game.now) (G.role_name game.now) (G.move_name game.now)) joint.now.items))) }
    ensures front { OnErr result (AppendsFront (W.contents out.old) (W.contents out.new)
        (spaced (move_texts (named (G.rules game.now) (G.role_name game.now) (G.move_name game.now)) joint.now.items))) }
{
    for role in 0..game.roles() {
        write_bytes(out, b" ")?;
        write_bytes(out, game.move_text(role, joint[role]))?;
    }
    Ok(())
}

/// Writes the line of a turn.
fn write_turn<G: Game, W: Write>(
    game: &G,
    number: u64,
    joint: &Joint,
    out: &mut W,
) -> Result<(), WriteFault>
    requires { IsTurn (G.rules game.now) joint.now.items }
    ensures whole { OnOk result (Appends (W.contents out.old) (W.contents out.new)
        (turn_line (named (G.rules game.now) (G.role_name game.now) (G.move_name game.now)) number joint.now.items)) }
    ensures front { OnErr result (AppendsFront (W.contents out.old) (W.contents out.new)
        (turn_line (named (G.rules game.now) (G.role_name game.now) (G.move_name game.now)) number joint.now.items)) }
{
    write_bytes(out, b"line ")?;
    write_number(number, out)?;
    write_moves(game, joint, out)?;
    write_bytes(out, b"\n")
}

/// The text of the move that a role should play.
fn choice_text<G: Game>(game: &G, role: usize, chosen: Option<u32>) -> &[u8]
    requires role { role < (G.rules game.now).roles }
    requires chosen { IfSome chosen (λ own. own < (G.rules game.now).moves role) }
    ensures { result.now ≡ choice_text (named (G.rules game.now) (G.role_name game.now) (G.move_name game.now)) role chosen }
{
    match chosen {
        Some(own) => game.move_text(role, own),
        None => b"none",
    }
}

/// Writes the line of the move that a role should play.
pub(crate) fn write_choice<G: Game, W: Write>(
    game: &G,
    role: usize,
    chosen: Option<u32>,
    out: &mut W,
) -> Result<(), WriteFault>
    requires role { role < (G.rules game.now).roles }
    requires chosen { IfSome chosen (λ own. own < (G.rules game.now).moves role) }
    ensures whole { OnOk result (Appends (W.contents out.old) (W.contents out.new)
        (move_line (choice_text (named (G.rules game.now) (G.role_name game.now) (G.move_name game.now)) role chosen))) }
    ensures front { OnErr result (AppendsFront (W.contents out.old) (W.contents out.new)
        (move_line (choice_text (named (G.rules game.now) (G.role_name game.now) (G.move_name game.now)) role chosen))) }
{
    write_bytes(out, b"move ")?;
    write_bytes(out, choice_text(game, role, chosen))?;
    write_bytes(out, b"\n")
}

/// Writes the lines of the turns that follow the state at which play stands, the first with this number. What is found of the state is
/// known: its value, which each state of the line has, and its first best move. Play stands at the end of the line then.
fn write_turns<G: Game, W: Write>(
    game: &G,
    asked: Question,
    found: &Found,
    number: u32,
    play: &mut Play<G>,
    out: &mut W,
) -> Result<(), WriteFault>
    requires play { IsPlayFor G.Game game.now asked.role asked.depth play.old }
    requires found { IsFoundOf (G.rules game.now) asked.role asked.depth asked.at (G.state game.now play.old.here) found.now }
    ensures whole { OnOk result (Appends (W.contents out.old) (W.contents out.new)
        (turn_lines (named (G.rules game.now) (G.role_name game.now) (G.move_name game.now)) number
        (line_of (G.rules game.now) asked.role asked.depth asked.at (G.state game.now play.old.here)))) }
    ensures front { OnErr result (AppendsFront (W.contents out.old) (W.contents out.new)
        (turn_lines (named (G.rules game.now) (G.role_name game.now) (G.move_name game.now)) number
        (line_of (G.rules game.now) asked.role asked.depth asked.at (G.state game.now play.old.here)))) }
    ensures play { OnOk result (IsPlayKept G.Game game.now play.old play.new) }
{
    let mut chosen = found.choice;
    let mut left = asked.depth;
    while let Some(own) = chosen {
        let now = Question {
            depth: left,
            ..asked
        };
        play.turn(game, now, own, found.value);
        let turns = u64::from(asked.depth - left);
        write_turn(game, u64::from(number) + turns, &play.joint, out)?;
        left -= 1;
        let next = Question {
            depth: left,
            ..asked
        };
        chosen = choice_by_value(game, &play.here, next, found.value, &mut play.room);
    }
    Ok(())
}

/// A value without its sign.
pub(crate) fn unsigned(value: i16) -> u64
    ensures { result ≡ nat_abs value }
{
    u64::from(value.unsigned_abs())
}

/// Writes what the state at which play stands is worth, the move that makes sure of it, and the line of play. Play stands at the end of
/// the line then.
pub(crate) fn write_found<G: Game, W: Write>(
    game: &G,
    asked: Question,
    found: &Found,
    play: &mut Play<G>,
    out: &mut W,
) -> Result<(), WriteFault>
    requires play { IsPlayFor G.Game game.now asked.role asked.depth play.old }
    requires found { IsFoundOf (G.rules game.now) asked.role asked.depth asked.at (G.state game.now play.old.here) found.now }
    ensures whole { OnOk result (Appends (W.contents out.old) (W.contents out.new)
        (solve_lines (named (G.rules game.now) (G.role_name game.now) (G.move_name game.now)) asked.role asked.depth asked.at (G.state game.now play.old.here))) }
    ensures front { OnErr result (AppendsFront (W.contents out.old) (W.contents out.new)
        (solve_lines (named (G.rules game.now) (G.role_name game.now) (G.move_name game.now)) asked.role asked.depth asked.at (G.state game.now play.old.here))) }
    ensures play { OnOk result (IsPlayKept G.Game game.now play.old play.new) }
{
    write_count(b"value", unsigned(found.value), out)?;
    write_choice(game, asked.role, found.choice, out)?;
    write_turns(game, asked, found, 1, play, out)
}

/// Writes the turns that begin with an own move at the state at which play stands: first that of the move, which makes sure of `worth`.
/// Play stands at the end of the line then.
pub(crate) fn write_behind<G: Game, W: Write>(
    game: &G,
    asked: Question,
    own: u32,
    worth: i16,
    play: &mut Play<G>,
    out: &mut W,
) -> Result<(), WriteFault>
    requires play { IsPlayFor G.Game game.now asked.role asked.depth play.old }
    requires open { IsOpen (G.rules game.now) asked.depth (G.state game.now play.old.here) }
    requires own { Contains ((G.rules game.now).legal (G.state game.now play.old.here) asked.role) own }
    requires worth { worth ≡ pos (worst (G.rules game.now) asked.role (asked.depth - 1) asked.at (G.state game.now play.old.here) own) }
    ensures whole { OnOk result (Appends (W.contents out.old) (W.contents out.new)
        (turn_lines (named (G.rules game.now) (G.role_name game.now) (G.move_name game.now)) 1
        (line_behind (G.rules game.now) asked.role (asked.depth - 1) asked.at (G.state game.now play.old.here) own))) }
    ensures front { OnErr result (AppendsFront (W.contents out.old) (W.contents out.new)
        (turn_lines (named (G.rules game.now) (G.role_name game.now) (G.move_name game.now)) 1
        (line_behind (G.rules game.now) asked.role (asked.depth - 1) asked.at (G.state game.now play.old.here) own))) }
    ensures play { OnOk result (IsPlayKept G.Game game.now play.old play.new) }
{
    play.own_turn(game, asked, own, worth);
    write_turn(game, 1, &play.joint, out)?;
    let next = Question {
        depth: asked.depth - 1,
        ..asked
    };
    let choice = choice_by_value(game, &play.here, next, worth, &mut play.room);
    let found = Found {
        value: worth,
        choice,
    };
    write_turns(game, next, &found, 2, play, out)
}
