//! What is told of a line.
ghost use Rattle.std.specs.Prelude.{◌≡◌, IfOk, IfSome, Ok};
ghost use Rattle.program_streams.specs.Exits.{exit_status};
ghost use Rattle.program_session.specs.Telling.{IsToldOf, IsTold};
ghost use Rattle.program_session.specs.Kept.{IsKeptGame};

use crate::game_kept::{KeptGame, replied};
use crate::splitting::words_in;
use game_rules::GroundGame;
use program_run::lint_reply;
use program_searches::Reply;
use program_words::{Request, request_in};
use statement::{Status, Width};
use std::alloc::{AllocError, Global};
use std::thread::Threads;

/// The status of an answer, and of help.
const ANSWERED: u8 = 0;

/// The status of words that are no command.
const MISUSED: u8 = 1;

/// The status of a refusal.
const REFUSED: u8 = 2;

/// What is told of a line of rules that names no size.
const SIZE: &str =
    "a size is the number of bytes of the rules that follow, as `rules 149`, and nothing behind it\n";

/// What is told of a line.
#[derive(Drop)]
pub(crate) struct Told {
    pub(crate) status: u8,
    pub(crate) bytes: Vec<u8>,
}

/// What is told by a reply.
fn told_by(reply: Reply) -> Told
    ensures status { result.status ≡ exit_status (Ok reply.status) }
    ensures bytes { result.bytes ≡ reply.output }
{
    let status = match reply.status {
        Status::Answer => ANSWERED,
        Status::Refused => REFUSED,
    };
    Told {
        status,
        bytes: reply.output,
    }
}

/// What is told by a reply that is told again later.
pub(crate) fn told_again(alloc: Global, reply: &Reply) -> Result<Told, AllocError>
    ensures status { IfOk result (λ told. told.status ≡ exit_status (Ok reply.now.status)) }
    ensures bytes { IfOk result (λ told. told.bytes.items ≡ reply.now.output.items) }
{
    let mut output = Vec::new(alloc);
    output.extend_from_slice(&reply.output)?;
    Ok(told_by(Reply {
        output,
        status: reply.status,
    }))
}

/// A text that is told with a status.
fn told_text(alloc: Global, status: u8, text: &str) -> Result<Told, AllocError>
    ensures status { IfOk result (λ told. told.status ≡ status) }
    ensures bytes { IfOk result (λ told. told.bytes.items ≡ text.now) }
{
    let mut bytes = Vec::new(alloc);
    bytes.extend_from_slice(text.as_bytes())?;
    Ok(Told { status, bytes })
}

/// What is told of a request, over the rules.
fn told_of<G: GroundGame, T: Threads + Sync + AllocGlobal>(
    rt: &T,
    request: &Request,
    width: Width,
    rules: &[u8],
    made: &mut Option<KeptGame<G>>,
) -> Result<Told, AllocError>
    requires { IfSome made.old (IsKeptGame G.Game G.source width rules.now) }
    ensures told { IfOk result (λ told. IsToldOf request.now rules.now told.status told.bytes.items) }
    ensures made { IfSome made.new (IsKeptGame G.Game G.source width rules.now) }
{
    match request {
        Request::Run(command, _) => {
            let reply = replied::<G, T>(rt, command, width, rules, made)?;
            Ok(told_by(reply))
        }
        Request::Lint => {
            let reply = lint_reply(rt, rules)?;
            Ok(told_by(reply))
        }
        Request::Help(text) => told_text(rt.alloc(), ANSWERED, text.as_str()),
        Request::Misuse(text) => told_text(rt.alloc(), MISUSED, text.as_str()),
        Request::Unroll(_) | Request::Serve(_) => told_text(rt.alloc(), MISUSED, ""),
    }
}

/// What is told of a line, over the rules, by the limits of the width. It fails only for want of memory.
pub(crate) fn told_of_line<G: GroundGame, T: Threads + Sync + AllocGlobal>(
    rt: &T,
    line: &[u8],
    width: Width,
    rules: &[u8],
    made: &mut Option<KeptGame<G>>,
) -> Result<Told, AllocError>
    requires { IfSome made.old (IsKeptGame G.Game G.source width rules.now) }
    ensures told { IfOk result (λ told. IsTold width rules.now told.status told.bytes.items) }
    ensures made { IfSome made.new (IsKeptGame G.Game G.source width rules.now) }
{
    let Some(words) = words_in(rt.alloc(), line)? else {
        let fault = Request::Misuse(format!(in rt.alloc(); "a word is no UTF-8\n")?);
        return told_of(rt, &fault, width, rules, made);
    };
    if words.first() == Some(&"rules") {
        let fault = Request::Misuse(format!(in rt.alloc(); "{SIZE}")?);
        return told_of(rt, &fault, width, rules, made);
    }
    let request = request_in(rt.alloc(), &words, width)?;
    told_of(rt, &request, width, rules, made)
}
