//! The commands that words make.
use game::{AtBound, Worth};
use program_words::{Command, Inquiry, Request, Sought, request_in};
use search_split::Cut;
use statement::{Width, Window};
use std::alloc::{AllocError, Global};

/// Whether words make a command.
fn make(alloc: Global, words: &[&str], command: &Command) -> Result<bool, AllocError> {
    let Request::Run(made, _) = request_in(alloc, &*words, Width::Plain)? else {
        return Ok(false);
    };
    Ok(made == *command)
}

/// A command that seeks nothing, of some with the history that they are asked after.
#[derive(Clone, Copy)]
enum Plain<'a> {
    Show,
    Check,
    Net,
    Moves(&'a str),
    State(&'a str),
}

/// Words that seek nothing, and their commands.
const PLAIN: [(&[&str], Plain); 7] = [
    (&["show"], Plain::Show),
    (&["check"], Plain::Check),
    (&["net"], Plain::Net),
    (&["moves"], Plain::Moves("")),
    (&["state"], Plain::State("")),
    (&["moves", "--after", "(h t)"], Plain::Moves("(h t)")),
    (&["state", "--after", "(h t)"], Plain::State("(h t)")),
];

/// Whether words make the command that seeks nothing.
fn is_plain(alloc: Global, words: &[&str], plain: Plain) -> Result<bool, AllocError> {
    match plain {
        Plain::Show => make(alloc, words, &Command::Show),
        Plain::Check => make(alloc, words, &Command::Check),
        Plain::Net => make(alloc, words, &Command::Ask(Inquiry::Net, Width::Plain)),
        Plain::Moves(after) => make(
            alloc,
            words,
            &Command::Ask(Inquiry::Moves { after }, Width::Plain),
        ),
        Plain::State(after) => make(
            alloc,
            words,
            &Command::Ask(Inquiry::State { after }, Width::Plain),
        ),
    }
}

/// In which way best play is sought, the last within a window.
#[derive(Clone, Copy)]
enum Way {
    Solve,
    Values,
    Within(Option<u8>, u8),
}

use Way::{Solve, Values, Within};

/// What a state at the bound is worth.
#[derive(Clone, Copy)]
enum BoundWorth {
    Nothing,
    Goal,
    Unfinished(u8),
}

use BoundWorth::{Goal, Nothing, Unfinished};

/// What is sought: a role, turns, what the bound is worth, the levels of a cut, the size of a table and a history.
type Plan<'a> = (&'a str, u32, BoundWorth, &'a [u8], u32, &'a str);

/// What is sought within a turn, over a table of 64 MiB.
const SHORT: Plan = ("a", 1, Nothing, &[1], 64, "");

/// Words, the way and what is sought.
type Row<'a> = (&'a [&'a str], Way, Plan<'a>);

const SEEKING: [Row; 7] = [
    (&["solve", "--role", "a", "--depth", "1"], Solve, SHORT),
    (&["values", "--role", "a", "--depth", "1"], Values, SHORT),
    (
        &["solve", "--role", "a", "--depth", "1", "--at-bound", "goal"],
        Solve,
        ("a", 1, Goal, &[1], 64, ""),
    ),
    (
        &["solve", "--role", "a", "--depth", "1", "--unfinished", "37"],
        Solve,
        ("a", 1, Unfinished(37), &[1], 64, ""),
    ),
    (
        &["solve", "--role", "a", "--depth", "1", "--window", "-1:101"],
        Within(None, 101),
        SHORT,
    ),
    (
        &["solve", "--role", "a", "--depth", "1", "--window", "59:61"],
        Within(Some(59), 61),
        SHORT,
    ),
    (
        &[
            "solve",
            "--role",
            " A ; the first",
            "--depth",
            "64",
            "--at-bound",
            "goal",
            "--cut",
            "16x4",
            "--table",
            "1",
            "--after",
            "(h t)",
        ],
        Solve,
        (" A ; the first", 64, Goal, &[16, 4], 1, "(h t)"),
    ),
];

/// The worth at the bound, if it is one.
fn at_bound_of(bound: BoundWorth) -> Option<AtBound> {
    match bound {
        Nothing => Some(AtBound::Zero),
        Goal => Some(AtBound::Goal),
        Unfinished(value) => Some(AtBound::Unfinished(Worth::of(value)?)),
    }
}

/// What is sought by a plan, if there is such a cut and such a worth.
fn sought_by(plan: Plan) -> Option<Sought> {
    let (role, depth, bound, levels, table, after) = plan;
    Some(Sought {
        role,
        depth,
        at_bound: at_bound_of(bound)?,
        cut: Cut::new(levels)?,
        table,
        after,
    })
}

/// The window that a way seeks within, if it has one and there is such a window.
fn window_of(way: Way) -> Option<Window> {
    match way {
        Within(low, high) => Window::of(low, high),
        Solve | Values => None,
    }
}

/// Whether the words of a row make the command that it tells, within a window where there is one.
fn is_made(alloc: Global, row: Row) -> Result<bool, AllocError> {
    let (words, way, plan) = row;
    let Some(sought) = sought_by(plan) else {
        return Ok(false);
    };
    match (window_of(way), way) {
        (Some(window), _) => make(
            alloc,
            words,
            &Command::Ask(Inquiry::SolveWithin(sought, window), Width::Plain),
        ),
        (None, Values) => make(
            alloc,
            words,
            &Command::Ask(Inquiry::Values(sought), Width::Plain),
        ),
        (None, Solve | Within(_, _)) => make(
            alloc,
            words,
            &Command::Ask(Inquiry::Solve(sought), Width::Plain),
        ),
    }
}

/// The place of the first row that seeks nothing and makes another command.
fn first_other_plain(alloc: Global) -> Result<Option<usize>, AllocError> {
    for (place, (words, plain)) in PLAIN.into_iter().enumerate() {
        if !is_plain(alloc, words, plain)? {
            return Ok(Some(place));
        }
    }
    Ok(None)
}

/// The place of the first row that seeks something and makes another command.
fn first_other_seeking(alloc: Global) -> Result<Option<usize>, AllocError> {
    for (place, row) in SEEKING.into_iter().enumerate() {
        if !is_made(alloc, row)? {
            return Ok(Some(place));
        }
    }
    Ok(None)
}

#[test]
fn words_make_their_commands(rt: HostRuntime) -> Result<(), AllocError> {
    let others = (
        first_other_plain(rt.alloc())?,
        first_other_seeking(rt.alloc())?,
    );
    assert_eq!(rt; others, (None, None));
    Ok(())
}
