//! What is lawful in rules and most likely wrong, as a reply.
ghost use Rattle.std.specs.Prelude.{◌≡◌, IfOk};
ghost use Rattle.statement.specs.Tree.{trees_of};
ghost use Rattle.statement.specs.Reading.{Reads};
ghost use Rattle.kif.specs.View.{trees_in};
ghost use Rattle.program_searches.specs.Replies.{reply_of};
ghost use Rattle.program_run.specs.Linted.{status_of_lines, IsLintReply};

use bumpalo::Bump;
use diagnose_lint::{add_dropped, add_openings, dropped_heads, finding_lines, openings_of};
use game_rules::RuleGame;
use ground::{GroundFault, instantiate_flat_alone};
use kif::{Expr, KifFault};
use program_replies::check;
use program_searches::Reply;
use rules::{RuleFault, RuleSet};
use statement::{Status, Width};
use std::alloc::{AllocError, Allocator, Global};

/// The status of lines of findings.
fn status_of_lines(lines: &[u8]) -> Status
    ensures { result ≡ status_of_lines lines.now }
{
    match lines {
        [] => Status::Answer,
        _ => Status::Refused,
    }
}

/// Adds what is found of how play stands at the start. Where the rules pass a limit nothing is added.
fn add_start<T: AllocGlobal, A: Allocator>(
    rt: &T,
    bytes: &[u8],
    items: &[Expr<A>],
    rules: &RuleSet,
    output: &mut Vec<u8>,
) -> Result<(), AllocError> {
    match instantiate_flat_alone(rt, rules, Width::Wide) {
        Ok(ground) => {
            let found = openings_of::<RuleGame>(rt.alloc(), ground)?;
            add_openings(bytes, items, rules, &found, output)
        }
        Err(GroundFault::TooMany(_)) => Ok(()),
        Err(GroundFault::NoMemory) => Err(AllocError),
    }
}

/// Adds what is found in rules by their instantiation: heads without effect, and how play stands at the start. Where the rules pass a limit
/// nothing is added: each command that instantiates them tells that.
fn add_found_in_play<T: AllocGlobal, A: Allocator>(
    rt: &T,
    bytes: &[u8],
    items: &[Expr<A>],
    rules: &RuleSet,
    output: &mut Vec<u8>,
) -> Result<(), AllocError> {
    match dropped_heads(rt.alloc(), items, rules) {
        Ok(found) => {
            add_dropped(bytes, items, &found, "", "", output)?;
            add_start(rt, bytes, items, rules, output)
        }
        Err(GroundFault::TooMany(_)) => Ok(()),
        Err(GroundFault::NoMemory) => Err(AllocError),
    }
}

/// The findings in the items that bytes are read as, which have no fault.
fn found<T: AllocGlobal, A: Allocator>(
    rt: &T,
    bytes: &[u8],
    items: &[Expr<A>],
    rules: &RuleSet,
) -> Result<Reply, AllocError>
    ensures { IfOk result (λ reply. reply.status ≡ status_of_lines reply.output.items) }
{
    let mut output = finding_lines(rt.alloc(), bytes, items)?;
    add_found_in_play(rt, bytes, items, rules, &mut output)?;
    let status = status_of_lines(&output);
    Ok(Reply { output, status })
}

/// The reply of `check` to bytes that it refuses. What it does not refuse is told to have no findings.
fn refused(alloc: Global, bytes: &[u8]) -> Result<Reply, AllocError>
    ensures { IfOk result (λ reply. IsLintReply bytes.now (reply_of reply)) }
{
    let checked = check(alloc, bytes)?;
    match checked.status {
        Status::Refused => Ok(checked),
        Status::Answer => Ok(Reply {
            output: Vec::new(alloc),
            status: Status::Answer,
        }),
    }
}

/// The reply to `lint` over bytes that are read as items.
fn reply_to_items<T: AllocGlobal, A: Allocator>(
    rt: &T,
    bytes: &[u8],
    items: &[Expr<A>],
) -> Result<Reply, AllocError>
    requires { Reads bytes.now (trees_of (trees_in items.now)) }
    ensures { IfOk result (λ reply. IsLintReply bytes.now (reply_of reply)) }
{
    match RuleSet::check(rt.alloc(), items) {
        Ok(rules) => found(rt, bytes, items, &rules),
        Err(RuleFault::NoMemory) => Err(AllocError),
        Err(_) => refused(rt.alloc(), bytes),
    }
}

/// The reply to `lint` over the bytes of the input: the refusal that `check` writes, or the lines of findings.
pub fn lint_reply<T: AllocGlobal>(rt: &T, bytes: &[u8]) -> Result<Reply, AllocError>
    ensures { IfOk result (λ reply. IsLintReply bytes.now (reply_of reply)) }
{
    let arena = Bump::new(rt.alloc());
    match kif::read(&arena, bytes) {
        Ok(items) => reply_to_items(rt, bytes, &items),
        Err(KifFault::NoMemory) => Err(AllocError),
        Err(_) => refused(rt.alloc(), bytes),
    }
}
