//! What is told of a role that is none, of a limit, and of the fault of a history.
use crate::marked::add_marked_line;
use crate::refusals::PlayFault;
use crate::spots::item_spot;
use crate::told_rules::Source;
use crate::told_text::explain_text;
use crate::wording::{add_bytes, add_end, add_reason, add_start, add_words};
use kif::Expr;
use statement::Width;
use std::alloc::{AllocError, Allocator, Global};
use std::io::Write;

/// How many legal moves are shown.
const SHOWN: usize = 12;

/// How play stands before a turn: the names of the roles with a space before each, and the lines that `moves` tells there.
#[derive(Clone, Copy)]
pub struct Before<'a> {
    pub roles: &'a [u8],
    pub lines: &'a [u8],
}

/// Adds what is told of a text that names no role: the roles that there are, each with a space before it.
pub fn explain_role(roles: &[u8], output: &mut Vec<u8>) -> Result<(), AllocError> {
    output.extend_from_slice(b"--role: refused S1 NoSuchRole: the roles are")?;
    output.extend_from_slice(roles)?;
    output.push(b'\n')?;
    Ok(())
}

/// What the limit is that a line of a refusal names.
fn words_of_limit(line: &[u8], width: Width) -> &'static str {
    match line.get(19..).unwrap_or(b"") {
        b"base\n" => "more than 65536 base propositions",
        b"inputs\n" => match width {
            Width::Plain => "more than 4096 moves of all roles together",
            Width::Wide => "more than 65536 moves of all roles together",
        },
        b"instances\n" => "more than 262144 instances of rules",
        b"text\n" => "a head of more than 4096 bytes",
        _ => "a limit is passed",
    }
}

/// Adds a way out of a limit that a line of a refusal names, where there is one beside the limits of a width.
fn add_way_out(line: &[u8], width: Width, output: &mut Vec<u8>) -> Result<(), AllocError> {
    if line.ends_with(b"text\n") {
        return Ok(());
    }
    let words = match width {
        Width::Plain => {
            "with `--whole --tighten` there are only the moves and propositions that play can come to"
        }
        Width::Wide => {
            "with `--tighten` there are only the moves and propositions that play can come to"
        }
    };
    add_reason(words, output)
}

/// Adds what is told of rules that pass a limit of a width where they are instantiated: with the item of this number, counted from 1, if it is known.
pub fn explain_limit<A: Allocator>(
    source: &Source<A>,
    number: Option<usize>,
    width: Width,
    line: &[u8],
    output: &mut Vec<u8>,
) -> Result<(), AllocError> {
    let spot = match number {
        Some(number) => item_spot(source.text, source.items, number),
        None => None,
    };
    add_start(source.name, spot, "N1 TooMany", output)?;
    add_end(words_of_limit(line, width), output)?;
    if let Some(spot) = spot {
        add_marked_line(source.text, spot.offset, output)?;
        add_reason(
            "with this item the limit is passed; the items that are instantiated before it pass none",
            output,
        )?;
    }
    add_way_out(line, width, output)
}
/// Whether a line of the reply to `moves` tells of a legal move of a role.
pub fn is_legal_line(line: &[u8], role: &[u8]) -> bool {
    match line.get(6..) {
        Some(rest) => {
            line.get(..6) == Some(b"legal ".as_slice())
                && rest.get(..role.len()) == Some(role)
                && rest.get(role.len()) == Some(&b' ')
        }
        None => false,
    }
}

/// The move that a line tells of, behind the name of the role.
fn move_in<'a>(line: &'a [u8], role: &[u8]) -> &'a [u8] {
    line.get(role.len().saturating_add(7)..).unwrap_or(b"")
}

/// Adds the legal moves of a role, twelve at most, and how many more there are.
fn add_legal_moves(role: &[u8], lines: &[u8], output: &mut Vec<u8>) -> Result<(), AllocError> {
    let mut count: usize = 0;
    for line in lines.split(|byte| *byte == b'\n') {
        if is_legal_line(line, role) {
            if count < SHOWN {
                add_words("  ", output)?;
                add_bytes(move_in(line, role), output)?;
                add_end("", output)?;
            }
            count = count.saturating_add(1);
        }
    }
    if count > SHOWN {
        let more = count - SHOWN;
        return writeln!(output, "  and {more} more").map_err(|_| AllocError);
    }
    Ok(())
}

/// Adds the name of the fault of a history, and what is wrong with the turn.
fn add_headline(fault: &PlayFault, roles: &[u8], output: &mut Vec<u8>) -> Result<(), AllocError> {
    let turn = fault.turn();
    match fault {
        PlayFault::BadForm(_) => {
            write!(output, "turn {turn} is no list with a move for each of").map_err(
                |_| AllocError,
            )?;
            output.extend_from_slice(roles)?;
        }
        PlayFault::NotLegal(_, role) => {
            write!(output, "turn {turn} has no legal move for ").map_err(|_| AllocError)?;
            output.extend_from_slice(role)?;
        }
        PlayFault::Over(_) => {
            write!(output, "the game had ended before turn {turn}").map_err(|_| AllocError)?;
        }
        PlayFault::Stuck(_) => {
            write!(output, "before turn {turn} some role had no legal move").map_err(
                |_| AllocError,
            )?;
        }
    }
    output.push(b'\n')?;
    Ok(())
}

/// The number and name of the fault of a history.
fn name_of(fault: &PlayFault) -> &'static str {
    match fault {
        PlayFault::BadForm(_) => "H1 BadForm",
        PlayFault::NotLegal(_, _) => "H2 NotLegal",
        PlayFault::Over(_) => "H3 Over",
        PlayFault::Stuck(_) => "H4 Stuck",
    }
}

/// Says that nobody takes a quote away, where the turn at an offset of a history begins with one.
fn add_quoted(after: &[u8], offset: usize, output: &mut Vec<u8>) -> Result<(), AllocError> {
    if after.get(offset) != Some(&b'\'') {
        return Ok(());
    }
    add_reason(
        "this quote is a part of the text: write the turns without it",
        output,
    )
}

/// Adds what is told of the fault of a history whose text is read as turns: the place of the turn, the line with a mark, and for a move
/// that is not legal those that are.
pub fn explain_history<A: Allocator>(
    after: &[u8],
    turns: &[Expr<A>],
    fault: &PlayFault,
    before: Before,
    output: &mut Vec<u8>,
) -> Result<(), AllocError> {
    let spot = item_spot(after, turns, fault.turn());
    add_start("--after", spot, name_of(fault), output)?;
    add_headline(fault, before.roles, output)?;
    if let Some(spot) = spot {
        add_marked_line(after, spot.offset, output)?;
        add_quoted(after, spot.offset, output)?;
    }
    if let PlayFault::NotLegal(_, role) = fault {
        add_reason("the legal moves of the role there:", output)?;
        return add_legal_moves(role, before.lines, output);
    }
    Ok(())
}

/// Adds what is told of the text of a history that can't be read: the fault of the text.
pub fn explain_unread_history(
    after: &[u8],
    fault: &kif::KifFault,
    output: &mut Vec<u8>,
) -> Result<(), AllocError> {
    add_start("--after", None, "H1 BadForm", output)?;
    add_end("the text can't be read", output)?;
    explain_text("--after", after, fault, output)
}
