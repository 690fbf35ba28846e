//! What explains a refusal, for people.
ghost use Rattle.std.specs.Prelude.{IfOk};
ghost use Rattle.diagnose_refusals.specs.Headed.{IsHeaded};

use crate::headed::headed;
use crate::passing::item_over;
use bumpalo::Bump;
use diagnose_explain::{
    Before, PlayFault, Source, explain_history, explain_limit, explain_role, explain_rules,
    explain_text, explain_unread_history, item_spot, rule_fault_in,
};
use game_rules::GroundGame;
use ground::{GroundFault, instantiate_flat_alone};
use kif::{Expr, KifFault, read};
use program_searches::moves_reply;
use program_words::{Command, Inquiry};
use rules::{RuleFault, RuleSet};
use statement::Width;
use std::alloc::{AllocError, AllocGlobal, Allocator, Global};
use std::str::from_utf8;

/// What the input is called.
const INPUT: &str = "<input>";

/// The names of the roles, each with a space before it.
fn role_names(alloc: Global, rules: &RuleSet) -> Result<Vec<u8>, AllocError> {
    let mut names = Vec::new(alloc);
    for role in 0..rules.roles() {
        names.push(b' ')?;
        names.extend_from_slice(rules.role_text(role))?;
    }
    Ok(names)
}

/// The text of the history that an inquiry is over.
fn history_of<'a>(inquiry: &Inquiry<'a>) -> &'a str {
    match inquiry {
        Inquiry::Net => "",
        Inquiry::Moves { after } | Inquiry::State { after } => after,
        Inquiry::Solve(sought)
        | Inquiry::SolveWithin(sought, _)
        | Inquiry::Values(sought)
        | Inquiry::ValuesWithLines(sought)
        | Inquiry::Deepen(sought) => sought.after,
    }
}

/// What `moves` tells after the beginning of a history.
fn lines_after<G: GroundGame, T: AllocGlobal>(
    rt: &T,
    rules: &RuleSet,
    width: Width,
    front: &[u8],
) -> Result<Vec<u8>, AllocError> {
    let alloc = rt.alloc();
    let Ok(after) = from_utf8(front) else {
        return Ok(Vec::new(alloc));
    };
    let ground = match instantiate_flat_alone(rt, rules, width) {
        Ok(ground) => ground,
        Err(GroundFault::NoMemory) => return Err(AllocError),
        Err(GroundFault::TooMany(_)) => return Ok(Vec::new(alloc)),
    };
    let game = G::over(alloc, ground)?;
    let reply = moves_reply(alloc, &game, after)?;
    Ok(reply.output)
}

/// What `moves` tells before the turn that has a fault, where a move of it is not legal.
fn lines_before<G: GroundGame, T: AllocGlobal, A: Allocator>(
    rt: &T,
    rules: &RuleSet,
    width: Width,
    after: &[u8],
    turns: &[Expr<A>],
    fault: &PlayFault,
) -> Result<Vec<u8>, AllocError> {
    if let PlayFault::NotLegal(turn, _) = fault {
        if let Some(spot) = item_spot(after, turns, *turn) {
            return lines_after::<G, T>(rt, rules, width, after.get(..spot.offset).unwrap_or(b""));
        }
    }
    Ok(Vec::new(rt.alloc()))
}

/// Adds what explains the fault of a history.
fn explain_turns<G: GroundGame, T: AllocGlobal>(
    rt: &T,
    rules: &RuleSet,
    width: Width,
    after: &[u8],
    fault: &PlayFault,
    roles: &[u8],
    output: &mut Vec<u8>,
) -> Result<(), AllocError> {
    let arena = Bump::new(rt.alloc());
    match read(&arena, after) {
        Ok(turns) => {
            let lines = lines_before::<G, T, _>(rt, rules, width, after, &turns, fault)?;
            let before = Before {
                roles,
                lines: &lines,
            };
            explain_history(after, &turns, fault, before, output)
        }
        Err(KifFault::NoMemory) => Err(AllocError),
        Err(fault) => explain_unread_history(after, &fault, output),
    }
}

/// Adds what explains the refusal of an inquiry over rules without a fault.
fn explain_inquiry<G: GroundGame, T: AllocGlobal, A: Allocator>(
    rt: &T,
    inquiry: &Inquiry,
    width: Width,
    source: &Source<A>,
    rules: &RuleSet,
    refusal: &[u8],
    output: &mut Vec<u8>,
) -> Result<(), AllocError> {
    let roles = role_names(rt.alloc(), rules)?;
    if let Some(fault) = PlayFault::named_by(refusal) {
        let after = history_of(inquiry).as_bytes();
        return explain_turns::<G, T>(rt, rules, width, after, &fault, &roles, output);
    }
    if refusal.get(8..10) == Some(b"S1".as_slice()) {
        return explain_role(&roles, output);
    }
    let over = item_over(rt, source.items, rules, width)?;
    explain_limit(source, over, width, refusal, output)
}

/// Adds what explains the refusal of a command over items.
fn explain_items<G: GroundGame, T: AllocGlobal, A: Allocator>(
    rt: &T,
    command: &Command,
    source: &Source<A>,
    refusal: &[u8],
    output: &mut Vec<u8>,
) -> Result<(), AllocError> {
    if let Some(fault) = rule_fault_in(refusal) {
        return explain_rules(rt.alloc(), source, &fault, output);
    }
    let Command::Ask(inquiry, width) = command else {
        return Ok(());
    };
    match RuleSet::check(rt.alloc(), source.items) {
        Ok(rules) => {
            explain_inquiry::<G, T, A>(rt, inquiry, *width, source, &rules, refusal, output)
        }
        Err(RuleFault::NoMemory) => Err(AllocError),
        Err(_) => Ok(()),
    }
}

/// What explains the refusal of a command over the bytes of the input, if it is one.
fn explained<G: GroundGame, T: AllocGlobal>(
    rt: &T,
    command: &Command,
    bytes: &[u8],
    refusal: &[u8],
) -> Result<Vec<u8>, AllocError> {
    let mut output = Vec::new(rt.alloc());
    let arena = Bump::new(rt.alloc());
    match read(&arena, bytes) {
        Ok(items) => {
            let source = Source {
                name: INPUT,
                text: bytes,
                items: &items,
            };
            explain_items::<G, T, _>(rt, command, &source, refusal, &mut output)?;
        }
        Err(KifFault::NoMemory) => return Err(AllocError),
        Err(fault) => explain_text(INPUT, bytes, &fault, &mut output)?,
    }
    Ok(output)
}

/// What explains the refusal of a command over the bytes of the input: a text that begins with what it is about, which is the input or
/// the text of an option. `refusal` is the line that was written, and the type `G` says who plays the game of the rules. It fails only for
/// want of memory.
pub fn explanation<G: GroundGame, T: AllocGlobal>(
    rt: &T,
    command: &Command,
    bytes: &[u8],
    refusal: &[u8],
) -> Result<Vec<u8>, AllocError>
    ensures { IfOk result (λ text. IsHeaded text.items) }
{
    let text = explained::<G, T>(rt, command, bytes, refusal)?;
    headed(rt.alloc(), text)
}
