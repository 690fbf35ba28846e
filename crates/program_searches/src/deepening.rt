//! What a role can be sure of within one turn, within two, and so on, written as it is found.
ghost use Rattle.std.specs.Prelude.{◌≡◌, ◌≢◌, ◌<◌, pos, codes, [], IfOk, OnOk, OnErr};
ghost use Rattle.std.specs.Io.KnownBytes.{Appends};
ghost use Rattle.statement.specs.Output.{AppendsFront};
ghost use Rattle.statement.specs.Value.{value};
ghost use Rattle.statement.specs.Answers.{answer};
ghost use Rattle.statement.specs.Deepening.{depth_lines, deepen_lines};
ghost use Rattle.program_searches.specs.Histories.{named};
ghost use Rattle.program_searches.specs.Replies.{reply_of};
ghost use Rattle.program_searches.specs.Play.{IsPlayFor, IsPlayKept};
ghost use Rattle.program_searches.specs.Settling.{IsSettlingFor};
ghost use Rattle.program_searches.specs.Ready.{IsReady, lines_to_write};

use crate::finding::found_in;
use crate::flushing::Flushing;
use crate::play::Play;
use crate::reply::{Reply, answered};
use crate::search::Search;
use crate::settling::Settling;
use crate::writing::{write_count, write_found};
use game::{Game, Question};
use kif::{WriteFault, write_bytes};
use maximin::Room;
use std::alloc::{AllocError, Global};
use std::io::Write;

/// Flushes a writer.
fn flush<W: Flushing>(out: &mut W) -> Result<(), WriteFault>
    ensures whole { OnOk result (Appends (W.contents out.old) (W.contents out.new) []) }
    ensures front { OnErr result (AppendsFront (W.contents out.old) (W.contents out.new) []) }
    ensures flushed { OnOk result (W.is_flushed out.new) }
{
    if out.flush_all().is_err() {
        return Err(WriteFault);
    }
    Ok(())
}

/// Writes the depth of a question, and what the role can be sure of within so many turns, and flushes the writer. Answers the value.
fn write_depth<G: Game, W: Flushing>(
    game: &G,
    root: &G::Pos,
    asked: Question,
    play: &mut Play<G>,
    out: &mut W,
) -> Result<i16, WriteFault>
    requires fits { G.fits game.now root.now }
    requires play { IsPlayFor G.Game game.now asked.role asked.depth play.old }
    ensures whole { OnOk result (Appends (W.contents out.old) (W.contents out.new)
        (depth_lines (named (G.rules game.now) (G.role_name game.now) (G.move_name game.now)) asked.role asked.at (G.state game.now root.now) asked.depth)) }
    ensures front { OnErr result (AppendsFront (W.contents out.old) (W.contents out.new)
        (depth_lines (named (G.rules game.now) (G.role_name game.now) (G.move_name game.now)) asked.role asked.at (G.state game.now root.now) asked.depth)) }
    ensures value { IfOk result (λ worth. worth ≡ pos (value (G.rules game.now) asked.role asked.depth asked.at (G.state game.now root.now))) }
    ensures play { OnOk result (IsPlayKept G.Game game.now play.old play.new) }
    ensures flushed { OnOk result (W.is_flushed out.new) }
{
    let found = found_in(game, root, asked, &mut play.room);
    play.stand(game, root);
    write_count(b"depth", u64::from(asked.depth), out)?;
    write_found(game, asked, &found, play, out)?;
    flush(out)?;
    Ok(found.value)
}

/// Writes that a value is settled, and flushes the writer.
fn write_settled<W: Flushing>(out: &mut W) -> Result<(), WriteFault>
    ensures whole { OnOk result (Appends (W.contents out.old) (W.contents out.new) (codes "settled\n")) }
    ensures front { OnErr result (AppendsFront (W.contents out.old) (W.contents out.new) (codes "settled\n")) }
    ensures flushed { OnOk result (W.is_flushed out.new) }
{
    write_bytes(out, b"settled\n")?;
    flush(out)
}

/// Writes what the role can be sure of within one turn, within two and so on to the depth of the question, or until that is settled, and flushes
/// the writer behind each.
fn write_depths<G: Game, W: Flushing>(
    game: &G,
    root: &G::Pos,
    asked: Question,
    play: &mut Play<G>,
    settling: &mut Settling<G>,
    out: &mut W,
) -> Result<(), WriteFault>
    requires fits { G.fits game.now root.now }
    requires play { IsPlayFor G.Game game.now asked.role asked.depth play.old }
    requires settling { IsSettlingFor G.Game game.now asked.role asked.depth asked.at settling.old }
    ensures whole { OnOk result (Appends (W.contents out.old) (W.contents out.new)
        (deepen_lines (named (G.rules game.now) (G.role_name game.now) (G.move_name game.now)) asked.role asked.depth asked.at (G.state game.now root.now))) }
    ensures front { OnErr result (AppendsFront (W.contents out.old) (W.contents out.new)
        (deepen_lines (named (G.rules game.now) (G.role_name game.now) (G.move_name game.now)) asked.role asked.depth asked.at (G.state game.now root.now))) }
    ensures play { OnOk result (IsPlayKept G.Game game.now play.old play.new) }
    ensures flushed { OnOk result (asked.depth ≢ 0 → W.is_flushed out.new) }
{
    let mut depth = 0;
    while depth < asked.depth {
        depth += 1;
        let now = Question { depth, ..asked };
        let worth = write_depth(game, root, now, play, out)?;
        if settling.is_settled(game, root, now, worth) {
            return write_settled(out);
        }
    }
    Ok(())
}

/// The lines of each depth to that of the question, or until the value is settled, of a state that stays. What is kept of states takes at
/// most so many bytes beside the memory that is given.
pub(crate) fn lines_by_depth<G: Game>(
    alloc: Global,
    game: &G,
    asked: Question,
    here: &G::Pos,
    play: &mut Play<G>,
    bytes: usize,
) -> Result<Vec<u8>, AllocError>
    requires fits { G.fits game.now here.now }
    requires play { IsPlayFor G.Game game.now asked.role asked.depth play.old }
    ensures lines { IfOk result (λ output. output.items
        ≡ deepen_lines (named (G.rules game.now) (G.role_name game.now) (G.move_name game.now)) asked.role asked.depth asked.at (G.state game.now here.now)) }
    ensures play { OnOk result (IsPlayKept G.Game game.now play.old play.new) }
{
    let mut settling = Settling::new(alloc, game, asked, bytes / 2)?;
    let mut output = Vec::new(alloc);
    let Ok(()) = write_depths(game, here, asked, play, &mut settling, &mut output) else {
        return Err(AllocError);
    };
    Ok(output)
}

/// A search that looks ahead turn by turn further, until no further turn can change the value. It has all the memory that it needs.
#[derive(Drop)]
pub struct Deepening<G: Game + Drop> {
    game: G,
    root: G::Pos,
    asked: Question,
    play: Play<G>,
    settling: Settling<G>,
}

impl<G: Game + Drop> Deepening<G> {
    /// The search turn by turn, as far as a search would go at once. All its memory is taken here.
    pub fn new(alloc: Global, search: Search<G>) -> Result<Deepening<G>, AllocError>
        requires fits { G.fits search.game search.here }
        requires role { search.asked.role < (G.rules search.game).roles }
        ensures ready { IfOk result (λ deepening. IsReady G.Game deepening) }
        ensures lines { IfOk result (λ deepening. lines_to_write G.Game deepening ≡ deepen_lines
            (named (G.rules search.game) (G.role_name search.game) (G.move_name search.game))
            search.asked.role search.asked.depth search.asked.at (G.state search.game search.here)) }
    {
        let bytes = search.bytes() / 2;
        let Search {
            game,
            here,
            asked,
            ..
        } = search;
        let room = Room::with_table(alloc, &game, asked, bytes)?;
        let start = game.fresh()?;
        let play = Play::new(alloc, &game, start, room)?;
        let settling = Settling::new(alloc, &game, asked, bytes / 2)?;
        Ok(Deepening {
            game,
            root: here,
            asked,
            play,
            settling,
        })
    }

    /// Writes what the role can be sure of within one turn, within two and so on, until no further turn can change it, and flushes the
    /// writer behind each. It takes no memory.
    pub fn write<W: Write>(&mut self, out: &mut W) -> Result<(), WriteFault>
        requires { IsReady G.Game self.old }
        ensures whole { OnOk result (Appends (W.contents out.old) (W.contents out.new) (lines_to_write G.Game self.old)) }
        ensures front { OnErr result (AppendsFront (W.contents out.old) (W.contents out.new) (lines_to_write G.Game self.old)) }
    {
        write_depths(
            &self.game,
            &self.root,
            self.asked,
            &mut self.play,
            &mut self.settling,
            out,
        )
    }

    /// The reply that has all that it writes. It fails only for want of memory.
    pub fn told(self, alloc: Global) -> Result<Reply, AllocError>
        requires { IsReady G.Game self }
        ensures { IfOk result (λ reply. reply_of reply ≡ answer (lines_to_write G.Game self)) }
    {
        let mut deepening = self;
        let mut output = Vec::new(alloc);
        let Ok(()) = deepening.write(&mut output) else {
            return Err(AllocError);
        };
        Ok(answered(output))
    }
}
