//! Rules as they are found: what is written for them stands in their place.
ghost use Rattle.std.specs.Prelude.{◌≡◌, ℕ, List, None, IfOk, IfSome};
ghost use Rattle.program_searches.specs.Replies.{reply_of};
ghost use Rattle.statement.specs.declared.width.Width.TheVariants.{Wide};
ghost use Rattle.program_words.specs.declared.command.Language.TheVariants.{Whole};
ghost use Rattle.program_unroll.specs.Unrolled.{IsUnrollReply};
ghost use Rattle.program_session.specs.Telling.{IsToldFound, IsToldIn};
ghost use Rattle.program_session.specs.Kept.{AreKept, AreKeptFound, IsKeptGame, kept_after};

use crate::answering::{Told, told_again, told_of_line};
use crate::game_kept::KeptGame;
use game::Game;
use game_rules::GroundGame;
use program_requests::Taken;
use program_searches::Reply;
use program_unroll::unroll_reply;
use program_words::Language;
use statement::{Status, Width};
use std::alloc::AllocError;
use std::thread::Threads;
use unroll::Bounds;

/// What is kept of the rules that stand, once it was asked for.
#[derive(Drop)]
pub(crate) struct Kept<G: Game> {
    /// Of rules as they are found the text that is written for them, or the line that names why none is.
    pub(crate) written: Option<Reply>,
    /// The game of the rules, or of that text.
    pub(crate) made: Option<KeptGame<G>>,
}

/// Forgets what is kept, where other rules may stand.
pub(crate) fn forget<G: GroundGame>(taken: Taken, kept: &mut Kept<G>)
    ensures written { kept.new.written ≡ kept_after taken kept.old.written }
    ensures made { kept.new.made ≡ kept_after taken kept.old.made }
{
    match taken {
        Taken::Line | Taken::LastLine => {}
        Taken::Rules | Taken::Starved | Taken::Cut | Taken::Nothing => {
            kept.written = None;
            kept.made = None;
        }
    }
}

/// What is told of rules as they are found, which is taken out of what is kept, or made where it is not there. The game that is left is that
/// of the text.
fn taken_out<G: GroundGame, T: AllocGlobal>(
    rt: &T,
    rules: &[u8],
    bounds: Bounds,
    kept: &mut Kept<G>,
) -> Result<Reply, AllocError>
    requires { AreKeptFound (IsKeptGame G.Game G.source) bounds rules.now kept.old.written kept.old.made }
    ensures reply { IfOk result (λ reply. IsUnrollReply bounds rules.now (reply_of reply)
        × IfSome kept.new.made (IsKeptGame G.Game G.source Wide reply.output.items)) }
    ensures none { kept.new.written ≡ None }
{
    match kept.written.take() {
        Some(reply) => Ok(reply),
        None => {
            kept.made = None;
            unroll_reply(rt, rules, bounds)
        }
    }
}

/// What is told of a line over the text that is written for rules, or why none is.
fn told_of_written<G: GroundGame, T: Threads + Sync + AllocGlobal>(
    rt: &T,
    line: &[u8],
    reply: &Reply,
    made: &mut Option<KeptGame<G>>,
) -> Result<Told, AllocError>
    requires { IfSome made.old (IsKeptGame G.Game G.source Wide reply.now.output.items) }
    ensures told { (bounds : Bounds) (rules : List ℕ) → IsUnrollReply bounds rules (reply_of reply.now)
        → IfOk result (λ told. IsToldFound bounds rules told.status told.bytes.items) }
    ensures made { IfSome made.new (IsKeptGame G.Game G.source Wide reply.now.output.items) }
{
    match reply.status {
        Status::Answer => told_of_line(rt, line, Width::Wide, &reply.output, made),
        Status::Refused => told_again(rt.alloc(), reply),
    }
}

/// What is told of a line over rules as they are found, for which a text is written once.
fn told_of_found<G: GroundGame, T: Threads + Sync + AllocGlobal>(
    rt: &T,
    line: &[u8],
    rules: &[u8],
    bounds: Bounds,
    kept: &mut Kept<G>,
) -> Result<Told, AllocError>
    requires { AreKeptFound (IsKeptGame G.Game G.source) bounds rules.now kept.old.written kept.old.made }
    ensures told { IfOk result (λ told. IsToldFound bounds rules.now told.status told.bytes.items) }
    ensures kept { AreKeptFound (IsKeptGame G.Game G.source) bounds rules.now kept.new.written kept.new.made }
{
    let reply = taken_out(rt, rules, bounds, kept)?;
    let told = told_of_written(rt, line, &reply, &mut kept.made);
    kept.written = Some(reply);
    told
}

/// What is told of a line over rules in a language. It fails only for want of memory.
pub(crate) fn told_in<G: GroundGame, T: Threads + Sync + AllocGlobal>(
    rt: &T,
    line: &[u8],
    rules: &[u8],
    language: Language,
    kept: &mut Kept<G>,
) -> Result<Told, AllocError>
    requires { AreKept (IsKeptGame G.Game G.source) language rules.now kept.old.written kept.old.made }
    ensures told { IfOk result (λ told. IsToldIn language rules.now told.status told.bytes.items) }
    ensures kept { AreKept (IsKeptGame G.Game G.source) language rules.now kept.new.written kept.new.made }
{
    match language {
        Language::Profile => told_of_line(rt, line, Width::Plain, rules, &mut kept.made),
        Language::Whole => told_of_found(rt, line, rules, Bounds::AsStated, kept),
        Language::Tightened => told_of_found(rt, line, rules, Bounds::Tightened, kept),
    }
}
