//! The frames that answer requests.
ghost use Rattle.std.specs.Prelude.{◌≡◌, ◌++◌, ◌∷◌, [], IfOk, OnOk};
ghost use Rattle.std.specs.Fmt.{decimal};
ghost use Rattle.program_requests.specs.Frames.{frame};
ghost use Rattle.program_requests.specs.Sessions.{Answers};
ghost use Rattle.program_requests.specs.Desks.{IsDesk, IsFrameOf, AnswersDesk, rules_kept};
ghost use Rattle.program_session.specs.Telling.{IsToldIn, frame_bytes};
ghost use Rattle.program_session.specs.Kept.{AreKept, IsKeptGame};

use crate::answering::Told;
use crate::found_rules::{Kept, told_in};
use game_rules::GroundGame;
use program_requests::{Desk, Taken};
use program_words::Language;
use std::alloc::{AllocError, Global};
use std::io::Write;
use std::thread::Threads;

/// The frame that rules stand.
const TAKEN: &[u8] = b"0 0\n";

/// The frame of want of memory.
const STARVED: &[u8] = b"3 0\n";

/// The frame of a line that is too long.
const LONG: &[u8] = b"1 27\na request line is too long\n";

/// The frame of rules that are too few.
const CUT: &[u8] = b"1 32\nthe rules end before their size\n";

/// The bytes that answer a request.
#[derive(Drop)]
pub(crate) enum Frame {
    /// A frame that was made for it.
    Made(Vec<u8>),
    /// A frame that is the same for each such request.
    Fixed(&'static [u8]),
}

impl Frame {
    /// The bytes.
    pub(crate) fn bytes(&self) -> &[u8]
        ensures { result.now ≡ frame_bytes self.now }
    {
        match self {
            Frame::Made(bytes) => bytes,
            Frame::Fixed(bytes) => bytes,
        }
    }
}

/// Adds the line before the bytes of a frame. After an error the output may have a beginning of it.
fn add_head(status: u8, size: usize, output: &mut Vec<u8>) -> Result<(), AllocError>
    ensures { OnOk result (output.new.items ≡ output.old.items ++ decimal status ++ 32 ∷ decimal size ++ 10 ∷ []) }
{
    writeln!(output, "{status} {size}").map_err(|_| AllocError)
}

/// The frame of what is told.
fn framed(alloc: Global, told: &Told) -> Result<Vec<u8>, AllocError>
    ensures { IfOk result (λ out. out.items ≡ frame told.now.status told.now.bytes.items) }
{
    let mut output = Vec::new(alloc);
    add_head(told.status, told.bytes.len(), &mut output)?;
    output.extend_from_slice(&told.bytes)?;
    Ok(output)
}

/// The frame of what is told of a line, over the rules, where there is memory for it.
fn told_frame<G: GroundGame, T: Threads + Sync + AllocGlobal>(
    rt: &T,
    line: &[u8],
    rules: &[u8],
    language: Language,
    kept: &mut Kept<G>,
) -> Result<Vec<u8>, AllocError>
    requires { AreKept (IsKeptGame G.Game G.source) language rules.now kept.old.written kept.old.made }
    ensures frame { IfOk result (λ out. Answers (IsToldIn language) rules.now out.items) }
    ensures kept { AreKept (IsKeptGame G.Game G.source) language rules.now kept.new.written kept.new.made }
{
    let told = told_in(rt, line, rules, language, kept)?;
    framed(rt.alloc(), &told)
}

/// The frame that answers a line over the rules.
fn frame_of<G: GroundGame, T: Threads + Sync + AllocGlobal>(
    rt: &T,
    line: &[u8],
    rules: &[u8],
    language: Language,
    kept: &mut Kept<G>,
) -> Frame
    requires { AreKept (IsKeptGame G.Game G.source) language rules.now kept.old.written kept.old.made }
    ensures frame { Answers (IsToldIn language) rules.now (frame_bytes result) }
    ensures kept { AreKept (IsKeptGame G.Game G.source) language rules.now kept.new.written kept.new.made }
{
    match told_frame(rt, line, rules, language, kept) {
        Ok(bytes) => Frame::Made(bytes),
        Err(AllocError) => Frame::Fixed(STARVED),
    }
}

/// The frame that answers the line of a desk.
fn line_frame<G: GroundGame, T: Threads + Sync + AllocGlobal>(
    rt: &T,
    desk: &Desk,
    language: Language,
    kept: &mut Kept<G>,
) -> Frame
    requires desk { IsDesk desk.now }
    requires kept { AreKept (IsKeptGame G.Game G.source) language (rules_kept desk.now) kept.old.written kept.old.made }
    ensures frame { AnswersDesk (IsToldIn language) desk.now (frame_bytes result) }
    ensures kept { AreKept (IsKeptGame G.Game G.source) language (rules_kept desk.now) kept.new.written kept.new.made }
{
    let Some(line) = desk.line() else {
        return Frame::Fixed(LONG);
    };
    frame_of(rt, line, desk.rules(), language, kept)
}

/// The frame that answers what was taken.
pub(crate) fn frame_for<G: GroundGame, T: Threads + Sync + AllocGlobal>(
    rt: &T,
    desk: &Desk,
    taken: Taken,
    language: Language,
    kept: &mut Kept<G>,
) -> Frame
    requires desk { IsDesk desk.now }
    requires kept { AreKept (IsKeptGame G.Game G.source) language (rules_kept desk.now) kept.old.written kept.old.made }
    ensures frame { IsFrameOf (IsToldIn language) taken desk.now (frame_bytes result) }
    ensures kept { AreKept (IsKeptGame G.Game G.source) language (rules_kept desk.now) kept.new.written kept.new.made }
{
    match taken {
        Taken::Line | Taken::LastLine => line_frame(rt, desk, language, kept),
        Taken::Rules => Frame::Fixed(TAKEN),
        Taken::Starved => Frame::Fixed(STARVED),
        Taken::Cut => Frame::Fixed(CUT),
        Taken::Nothing => Frame::Fixed(b""),
    }
}
