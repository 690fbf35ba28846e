//! What a caller is told: the reply to a command, or what is said of words that make none.
ghost use Rattle.std.specs.Prelude.{◌≡◌, IfOk};
ghost use Rattle.gdlsolve_c.specs.Telling.{IsOutcomeOf, IsOutcome, told_bytes, status_of};
ghost use Rattle.gdlsolve_c.specs.Handles.{IsMadeOf};

use game_rules::RuleGame;
use position::NetGame;
use program_replies::{Reply, replied_alone, reply_alone};
use program_words::{Request, request_in};
use statement::{Status, Width};
use std::alloc::{AllocError, Global};

/// The status of a reply that answers a command.
const ANSWERED: u32 = 0;

/// The status of words that make no command.
const MISUSED: u32 = 1;

/// The status of a reply that is a refusal.
const REFUSED: u32 = 2;

/// What is said of a command that the program alone has.
const OF_THE_PROGRAM: &str = "the program alone has this command\n";

/// What a caller is told.
#[derive(Drop)]
pub(crate) enum Outcome {
    /// The reply to a command.
    Reply(Reply),
    /// A text for people, since the words make no command: what is wrong with them, or the help or the version that they ask for.
    Words(Vec<u8>),
}

impl Outcome {
    /// All the bytes that are told.
    pub(crate) fn bytes(&self) -> &[u8]
        ensures { result.now ≡ told_bytes self.now }
    {
        match self {
            Outcome::Reply(reply) => &reply.output,
            Outcome::Words(text) => text,
        }
    }

    /// The status that stands for its kind.
    pub(crate) fn status(&self) -> u32
        ensures { result ≡ status_of self.now }
    {
        match self {
            Outcome::Reply(reply) => match reply.status {
                Status::Answer => ANSWERED,
                Status::Refused => REFUSED,
            },
            Outcome::Words(_) => MISUSED,
        }
    }
}

/// What is told where the words make no command.
fn said(alloc: Global, text: &str) -> Result<Vec<u8>, AllocError> {
    let text = format!(in alloc; "{text}")?;
    Ok(text.into_bytes())
}

/// What is told where a request stands for the words: of a command its reply over the rules.
fn tell_of(alloc: Global, request: &Request, rules: &[u8]) -> Result<Outcome, AllocError>
    ensures { IfOk result (IsOutcomeOf request.now rules.now) }
{
    match request {
        Request::Run(command, _) => {
            let reply = reply_alone::<NetGame, RuleGame, ((), Global)>(
                &((), alloc),
                command,
                rules,
            )?;
            Ok(Outcome::Reply(reply))
        }
        Request::Help(text) | Request::Misuse(text) => Ok(Outcome::Words(said(alloc, text)?)),
        Request::Lint | Request::Unroll(_) | Request::Serve(_) => {
            Ok(Outcome::Words(said(alloc, OF_THE_PROGRAM)?))
        }
    }
}

/// The same, by the game that is kept of the rules, which is made first where there is none.
fn tell_of_kept(
    alloc: Global,
    request: &Request,
    rules: &[u8],
    made: &mut Option<NetGame>,
) -> Result<Outcome, AllocError>
    requires { IsMadeOf made.old rules.now }
    ensures told { IfOk result (IsOutcomeOf request.now rules.now) }
    ensures made { IsMadeOf made.new rules.now }
{
    match request {
        Request::Run(command, _) => {
            let reply = replied_alone(&((), alloc), command, rules, made)?;
            Ok(Outcome::Reply(reply))
        }
        Request::Help(text) | Request::Misuse(text) => Ok(Outcome::Words(said(alloc, text)?)),
        Request::Lint | Request::Unroll(_) | Request::Serve(_) => {
            Ok(Outcome::Words(said(alloc, OF_THE_PROGRAM)?))
        }
    }
}

/// The words of a text in which a byte 0 stands behind each. Behind the last it may be missing.
fn words_of<'a>(alloc: Global, text: &'a str) -> Result<Vec<&'a str>, AllocError> {
    text.split_terminator('\0').collect(alloc)
}

/// What is told of words and rules. It fails only for want of memory.
pub(crate) fn tell(alloc: Global, words: &[u8], rules: &[u8]) -> Result<Outcome, AllocError>
    ensures { IfOk result (IsOutcome rules.now) }
{
    let Ok(text) = str::from_utf8(words) else {
        return Ok(Outcome::Words(said(alloc, "a word is no UTF-8\n")?));
    };
    let list = words_of(alloc, text)?;
    let Ok(request) = request_in(alloc, &list, Width::Plain) else {
        return Err(AllocError);
    };
    tell_of(alloc, &request, rules)
}

/// The same, by the game that is kept of the rules. Also where it fails, what is kept is of the rules.
pub(crate) fn tell_over(
    alloc: Global,
    words: &[u8],
    rules: &[u8],
    made: &mut Option<NetGame>,
) -> Result<Outcome, AllocError>
    requires { IsMadeOf made.old rules.now }
    ensures told { IfOk result (IsOutcome rules.now) }
    ensures made { IsMadeOf made.new rules.now }
{
    let Ok(text) = str::from_utf8(words) else {
        return Ok(Outcome::Words(said(alloc, "a word is no UTF-8\n")?));
    };
    let list = words_of(alloc, text)?;
    let Ok(request) = request_in(alloc, &list, Width::Plain) else {
        return Err(AllocError);
    };
    tell_of_kept(alloc, &request, rules, made)
}
