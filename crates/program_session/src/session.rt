//! A session: requests from the input, and their frames to the output.
ghost use Rattle.std.specs.Prelude.{OnOk};
ghost use Rattle.program_streams.specs.Streams.{streams};
ghost use Rattle.program_requests.specs.Desks.{IsDesk, rules_kept, to_come};
ghost use Rattle.program_session.specs.Kept.{AreKept, IsKeptGame};
ghost use Rattle.program_session.specs.Turns.{IsTurn};
ghost use Rattle.program_session.specs.Serving.{HasServed, IsServed};

use crate::found_rules::{Kept, forget};
use crate::framing::frame_for;
use game_rules::GroundGame;
use program_requests::{Desk, Taken};
use program_streams::{RunFault, status_of, write_out};
use program_words::Language;
use statement::Status;
use std::io::{Read, Write};
use std::thread::Threads;

/// Takes a request and writes its frame, and answers whether there may be more requests.
fn turn<G: GroundGame, T: Threads + Sync + AllocGlobal, R: Read, W: Write>(
    rt: &T,
    desk: &mut Desk,
    language: Language,
    kept: &mut Kept<G>,
    input: &mut R,
    output: &mut W,
) -> Result<bool, RunFault>
    requires desk { IsDesk desk.old }
    requires kept { AreKept (IsKeptGame G.Game G.source) language (rules_kept desk.old) kept.old.written kept.old.made }
    ensures desk { IsDesk desk.new }
    ensures turn { IsTurn language result (rules_kept desk.old) (rules_kept desk.new)
        (to_come desk.old (R.remaining input.old)) (to_come desk.new (R.remaining input.new))
        (W.contents output.old) (W.contents output.new) }
    ensures kept { OnOk result (AreKept (IsKeptGame G.Game G.source) language (rules_kept desk.new) kept.new.written kept.new.made) }
{
    let Ok(taken) = desk.take(rt.alloc(), input) else {
        return Err(RunFault::Read);
    };
    forget(taken, kept);
    let frame = frame_for(rt, desk, taken, language, kept);
    let Ok(()) = write_out(output, frame.bytes()) else {
        return Err(RunFault::Write);
    };
    Ok(taken.goes_on())
}

/// Answers all requests of the input.
fn answer_all<G: GroundGame, T: Threads + Sync + AllocGlobal, R: Read, W: Write>(
    rt: &T,
    language: Language,
    input: &mut R,
    output: &mut W,
) -> Result<Status, RunFault>
    ensures { HasServed language result (R.remaining input.old) (R.remaining input.new) (W.contents output.old) (W.contents output.new) }
{
    let Ok(mut desk) = Desk::new(rt.alloc()) else {
        return Err(RunFault::Memory);
    };
    let mut kept: Kept<G> = Kept {
        written: None,
        made: None,
    };
    // A loop is proved to end, so this one counts its turns.
    for _ in 0..u64::MAX {
        match turn(rt, &mut desk, language, &mut kept, input, output) {
            Ok(true) => {}
            Ok(false) => return Ok(Status::Answer),
            Err(fault) => return Err(fault),
        }
    }
    Err(RunFault::Read)
}

/// Holds a session: answers the requests of the input in their order, each by a frame that is flushed before the next request is read.
///
/// A request is a line, and the rules that stand answer it, which are the empty text at first. `rules N` has N bytes behind its line feed,
/// which stand from then on. Any other line is the words of a command, and its frame has what the command writes over the rules that
/// stand; where the language is the whole one, over the text that is written for them, or why none is. A frame is a line of the exit status and the number of bytes, and then the bytes.
///
/// The exit status is 0 at the end of the input, 3 where there is no memory to begin, and 4 where the input or the output failed. Want of
/// memory for a request has a frame of its own, and the session goes on. The type `G` says who plays the game of the rules.
pub fn serve<G: GroundGame, T: Threads + Sync + AllocGlobal, R: Read, W: Write, E: Write>(
    rt: &T,
    language: Language,
    input: &mut R,
    output: &mut W,
    errors: &mut E,
) -> u8
    ensures { IsServed language result
        (streams (R.remaining input.old) (W.contents output.old) (E.contents errors.old))
        (streams (R.remaining input.new) (W.contents output.new) (E.contents errors.new)) }
{
    let ended = answer_all::<G, T, R, W>(rt, language, input, output);
    status_of(ended, errors)
}
