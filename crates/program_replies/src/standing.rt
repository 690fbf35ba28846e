//! The reply to `state`.
ghost use Rattle.std.specs.Prelude.{◌≡◌, ◌<◌, ◌++◌, List, [], length, slice_index, IfOk, OnOk, if◌then◌else◌};
ghost use Rattle.std.specs.Int.{bit_at};
ghost use Rattle.game.specs.Keys.{has_bit, state_of_bits};
ghost use Rattle.ground_instances.specs.GroundView.{base_of, IsGround};
ghost use Rattle.statement.specs.Clause.{Alternative};
ghost use Rattle.statement.specs.Holding.{state_lines, IsStateReply};
ghost use Rattle.program_searches.specs.Histories.{named};
ghost use Rattle.program_searches.specs.Replies.{reply_of};
ghost use Rattle.program_replies.specs.Standing.{standing_line, numbered_line, numbered_lines};

use game::{Game, HistoryFault, is_stuck};
use game_rules::GroundGame;
use ground_instances::FlatGround;
use program_searches::{Reply, answered, position_after, refused_history};
use std::alloc::{AllocError, Global};

/// The word of a key at a place, and 0 past its end.
fn word_at(key: &[u64], place: usize) -> u64
    ensures { result ≡ slice_index key.now place }
{
    if place < key.len() { key[place] } else { 0 }
}

/// The bit of a word at a place.
fn bit_of(word: u64, place: usize) -> u64
    requires { place < 64 }
    ensures { result ≡ bit_at word place }
{
    (word >> place) & 1
}

/// Whether the key of a state says that a base proposition holds in it.
fn holds(key: &[u64], proposition: usize) -> bool
    ensures { result ≡ has_bit key.now proposition }
{
    let word = word_at(key, proposition / 64);
    bit_of(word, proposition % 64) == 1
}

/// Adds the line of a base proposition if it holds. After an error the output may have a beginning of it.
fn add_if(
    on: bool,
    ground: &FlatGround,
    proposition: usize,
    output: &mut Vec<u8>,
) -> Result<(), AllocError>
    requires { proposition < length (base_of ground.now) }
    ensures { OnOk result (output.new.items ≡ output.old.items ++ (if on then numbered_line (base_of ground.now) proposition else [])) }
{
    if !on {
        return Ok(());
    }
    output.extend_from_slice(b"true ")?;
    output.extend_from_slice(ground.base_text(proposition))?;
    output.push(b'\n')?;
    Ok(())
}

/// Adds the lines of the base propositions that hold in the state of a key. After an error the output may have a beginning of them.
fn add_holding(ground: &FlatGround, key: &[u64], output: &mut Vec<u8>) -> Result<(), AllocError>
    ensures { OnOk result (output.new.items ≡ output.old.items
        ++ numbered_lines (base_of ground.now) (state_of_bits (length (base_of ground.now)) key.now)) }
{
    for proposition in 0..ground.base() {
        add_if(holds(key, proposition), ground, proposition, output)?;
    }
    Ok(())
}

/// Adds the line that tells how play stands. After an error the output may have a beginning of it.
fn add_standing<G: Game>(game: &G, here: &G::Pos, output: &mut Vec<u8>) -> Result<(), AllocError>
    requires { G.fits game.now here.now }
    ensures { OnOk result (output.new.items ≡ output.old.items ++ standing_line (G.rules game.now) (G.state game.now here.now)) }
{
    if game.ended(here) {
        output.extend_from_slice(b"state ended\n")?;
        return Ok(());
    }
    if is_stuck(game, here) {
        output.extend_from_slice(b"state stuck\n")?;
        return Ok(());
    }
    output.extend_from_slice(b"state open\n")?;
    Ok(())
}

/// How play stands, and what holds.
fn standing_lines<G: GroundGame>(
    alloc: Global,
    game: &G,
    here: &G::Pos,
) -> Result<Vec<u8>, AllocError>
    requires { G.fits game.now here.now }
    ensures { IfOk result (λ output. (rules : List Alternative) → IsGround rules (G.source game.now) → output.items
        ≡ state_lines rules (named (G.rules game.now) (G.role_name game.now) (G.move_name game.now)) (G.state game.now here.now)) }
{
    let mut key = vec![in alloc; 0u64; game.key_words()]?;
    game.write_key(here, &mut key);
    let mut output = Vec::new(alloc);
    add_standing(game, here, &mut output)?;
    add_holding(game.instantiation(), &key, &mut output)?;
    Ok(output)
}

/// The reply to `state` after the history of a text: the line that names its fault, or how play stands after it and what holds.
pub(crate) fn state_reply<G: GroundGame>(
    alloc: Global,
    game: &G,
    after: &str,
) -> Result<Reply, AllocError>
    ensures { IfOk result (λ reply. (rules : List Alternative) → IsGround rules (G.source game.now)
        → IsStateReply rules (named (G.rules game.now) (G.role_name game.now) (G.move_name game.now)) after.now (reply_of reply)) }
{
    match position_after(alloc, game, after) {
        Ok(here) => Ok(answered(standing_lines(alloc, game, &here)?)),
        Err(HistoryFault::NoMemory) => Err(AllocError),
        Err(fault) => refused_history(alloc, game, fault),
    }
}
