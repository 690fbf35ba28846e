//! Play over networks beside play over rules, and states that are taken out of many.
ghost use Rattle.std.specs.Prelude.{◌≡◌, ◌<◌, ◌≤◌, All, length, IfOk, IfSome};
ghost use Rattle.statement.specs.Rules.{IsTurn};

mod judged;
mod refused;

use crate::made::{net_game, rule_game};
use game::{Game, Joint, is_stuck, new_joint, put_move};
use judged::{second_worths, worths};
use std::alloc::{AllocGlobal, Global};
use std::io::Write;
use std::test::Fail;
use test_games::texts::{MARKS, MATCH};

/// Two moves, and no base proposition: the one state never ends.
const TIMELESS: &[u8] = b"(role a)(input a x)(input a y)(legal a y)(goal a 30)";

/// No inputs, so its one legal atom gives no move.
const SILENT: &[u8] =
    b"(role a)(base p)(init p)(<= (legal a x) (true p))(<= (goal a 40) (true p))(<= terminal (not (true p)))";

/// The second role picks a cell of eight by eight, in printed order. The last of each eight ends the game, and each eight is worth 10
/// more to the first role than the one before.
const PICK: &[u8] = b"(role a)(role b)(t 0)(t 1)(t 2)(t 3)(t 4)(t 5)(t 6)(t 7)
    (v 0 0)(v 1 10)(v 2 20)(v 3 30)(v 4 40)(v 5 50)(v 6 60)(v 7 70)(input a go)(legal a go)
    (<= (input b (m ?x ?y)) (t ?x) (t ?y))(<= (legal b (m ?x ?y)) (t ?x) (t ?y))
    (<= (base (at ?x ?y)) (t ?x) (t ?y))(<= (next (at ?x ?y)) (does b (m ?x ?y)))
    (<= terminal (true (at ?x 7)))(<= (goal a ?v) (true (at ?x ?y)) (v ?x ?v))";

/// Adds what is told of a state: whether the game has ended, and the goal and the legal moves of each role.
fn add_state<G: Game>(game: &G, p: &G::Pos, text: &mut Vec<u8>) -> Result<(), Fail>
    requires { G.fits game.now p.now }
{
    write!(text, "{}", game.ended(p))?;
    for role in 0..game.roles() {
        write!(text, " {}:", game.goal(p, role))?;
        for place in 0..100usize {
            if let Some(number) = game.legal(p, role, place) {
                write!(text, " {number}")?;
            }
        }
    }
    writeln!(text)?;
    Ok(())
}

/// The legal move of a role at a place, or, where there is none, the first.
fn move_at<G: Game>(game: &G, p: &G::Pos, role: usize, place: usize) -> Option<u32>
    requires fits { G.fits game.now p.now }
    requires role { role < (G.rules game.now).roles }
    ensures { IfSome result (λ m. m < (G.rules game.now).moves role) }
{
    if let Some(number) = game.legal(p, role, place) {
        return Some(number);
    }
    game.legal(p, role, 0)
}

/// The legal moves of all roles at a place, each the first where there is none at that place.
fn turn_at<G: Game>(alloc: Global, game: &G, p: &G::Pos, place: usize) -> Result<Joint, Fail>
    requires { G.fits game.now p.now }
    ensures { IfOk result (λ joint. IsTurn (G.rules game.now) joint.items) }
{
    let mut joint = new_joint(alloc, game.roles())?;
    for role in 0..game.roles() {
        let Some(number) = move_at(game, p, role, place) else {
            return Err(Fail::new("no legal move"));
        };
        put_move(&mut joint, role, number);
    }
    Ok(joint)
}

/// Writes the state after another and the second of two turns, stepped to alone or taken out of two.
fn play<G: Game>(
    game: &G,
    here: &G::Pos,
    turns: [Joint; 2],
    many: bool,
    next: &mut G::Pos,
) -> Result<(), Fail>
    requires here { G.fits game.now here.now }
    requires next { G.fits game.now next.old }
    requires turns { All (λ j. IsTurn (G.rules game.now) j.items) turns }
    ensures { G.fits game.now next.new }
{
    if !many {
        game.step(here, &turns[1], next);
        return Ok(());
    }
    let mut wide = game.new_wide()?;
    let mut states = game.new_many()?;
    game.steps(here, &turns, &mut wide, &mut states);
    game.take(&states, 1, next);
    Ok(())
}

/// What is told of the states of a play, until it is over.
fn course<G: Game>(alloc: Global, game: &G, many: bool) -> Result<Vec<u8>, Fail> {
    let mut text = Vec::new(alloc);
    let mut here = game.fresh()?;
    let mut next = game.fresh()?;
    add_state(game, &here, &mut text)?;
    for place in 0..9usize {
        if game.ended(&here) || is_stuck(game, &here) {
            return Ok(text);
        }
        let first = turn_at(alloc, game, &here, place + 1)?;
        let second = turn_at(alloc, game, &here, place)?;
        play(game, &here, [first, second], many, &mut next)?;
        game.copy(&next, &mut here);
        add_state(game, &here, &mut text)?;
    }
    Ok(text)
}

/// The first joint moves of a state, as the second role's moves go on.
fn turns_of<G: Game>(alloc: Global, game: &G, p: &G::Pos, count: usize) -> Result<Vec<Joint>, Fail>
    requires { G.fits game.now p.now }
    ensures size { IfOk result (λ turns. length turns.items ≡ count) }
    ensures each { IfOk result (λ turns. All (λ j. IsTurn (G.rules game.now) j.items) turns.items) }
{
    let mut turns = Vec::new(alloc);
    for place in 0..count {
        turns.push(turn_at(alloc, game, p, place)?)?;
    }
    Ok(turns)
}

/// Whether the game has ended after each of the first joint moves, and the goal of the first role then.
fn told_after<G: Game>(alloc: Global, game: &G, count: usize) -> Result<Vec<u8>, Fail> {
    if game.roles() == 0 || count == 0 || count > 64 {
        return Err(Fail::new("not of this game"));
    }
    let start = game.fresh()?;
    let mut child = game.fresh()?;
    let mut wide = game.new_wide()?;
    let mut states = game.new_many()?;
    let turns = turns_of(alloc, game, &start, count)?;
    game.steps(&start, &turns, &mut wide, &mut states);
    let mut text = Vec::new(alloc);
    for place in 0..count {
        game.take(&states, place, &mut child);
        writeln!(text, "{} {}", game.ended(&child), game.goal(&child, 0))?;
    }
    Ok(text)
}

/// What is to be told of the first cells.
fn cells(alloc: Global, count: usize) -> Result<Vec<u8>, Fail> {
    let mut text = Vec::new(alloc);
    for place in 0..count.min(64) {
        writeln!(text, "{} {}", place % 8 == 7, place / 8 * 10)?;
    }
    Ok(text)
}

/// What is told of a game.
#[derive(Clone, Copy)]
enum Asked {
    /// The states of a play.
    Course,
    /// The end and the goals after so many joint moves.
    After(usize),
    /// The goals after so many joint moves of each state of a play.
    Worths(usize),
    /// The goals two turns after the start, by so many joint moves.
    SecondWorths(usize),
}

use Asked::{After, Course, SecondWorths, Worths};

/// What is told, by states that are taken out of many, or judged, or neither.
fn answer<G: Game>(alloc: Global, game: &G, asked: Asked, many: bool) -> Result<Vec<u8>, Fail> {
    match asked {
        Course => course(alloc, game, many),
        After(count) => told_after(alloc, game, count),
        Worths(count) => worths(alloc, game, count, many),
        SecondWorths(count) => second_worths(alloc, game, count, many),
    }
}

/// What is told over the kept instances of a description.
fn by_rules<R: AllocGlobal>(
    rt: &R,
    text: &[u8],
    asked: Asked,
    many: bool,
) -> Result<Vec<u8>, Fail> {
    let game = rule_game(rt, text)?;
    answer(rt.alloc(), &game, asked, many)
}

/// What is told over the network of a description.
fn by_network<R: AllocGlobal>(
    rt: &R,
    text: &[u8],
    asked: Asked,
    many: bool,
) -> Result<Vec<u8>, Fail> {
    let game = net_game(rt, text)?;
    answer(rt.alloc(), &game, asked, many)
}

/// What is asked, and whether many states are looked at over rules and over networks. Rules judge nothing.
type Pair = (Asked, bool, bool);

/// Plays, by states that are stepped to and by such as are taken out of many.
const COURSES: &[Pair] = &[
    (Course, false, false),
    (Course, false, true),
    (Course, true, true),
];

/// Games, and what is asked of them.
const ALIKE: [(&[u8], &[Pair]); 8] = [
    (MATCH, COURSES),
    (MARKS, COURSES),
    (TIMELESS, COURSES),
    (SILENT, COURSES),
    (
        MATCH,
        &[(Worths(3), false, true), (SecondWorths(3), false, true)],
    ),
    (MARKS, &[(Worths(9), false, true)]),
    (TIMELESS, &[(Worths(2), false, true)]),
    (
        PICK,
        &[
            (After(1), false, true),
            (After(63), false, true),
            (After(64), false, true),
            (Worths(64), false, true),
            (SecondWorths(64), false, true),
        ],
    ),
];

#[test]
fn networks_tell_as_rules_do(rt: HostRuntime) -> Result<(), Fail> {
    for (row, (text, pairs)) in ALIKE.into_iter().enumerate() {
        for (place, (asked, taken, judged)) in pairs.iter().enumerate() {
            let want = by_rules(&rt, text, *asked, *taken)?;
            assert!(rt;
                by_network(&rt, text, *asked, *judged)? == want,
                "game {row}, at {place}"
            );
        }
    }
    Ok(())
}

/// Games, and what is told of their first states.
const TOLD: [(&[u8], &[u8]); 3] = [
    (MATCH, b"false 0: 0 1 100: 0 1\ntrue 100: 0:\n"),
    (SILENT, b"false 40:\n"),
    (
        TIMELESS,
        b"false 30: 1\nfalse 30: 1\nfalse 30: 1\nfalse 30: 1\nfalse 30: 1\n\
        false 30: 1\nfalse 30: 1\nfalse 30: 1\nfalse 30: 1\nfalse 30: 1\n",
    ),
];

#[test]
fn networks_tell_of_states(rt: HostRuntime) -> Result<(), Fail> {
    for (text, want) in TOLD {
        let got = by_network(&rt, text, Course, true)?;
        assert_eq!(rt; got.as_slice(), want);
    }
    Ok(())
}

/// Games, how many joint moves are looked at, and the goals after those of each state of a play.
const JUDGED: [(&[u8], usize, &[u8]); 3] = [
    (MATCH, 3, b" 100 0 100 0 100 0"),
    (TIMELESS, 1, b" - - - - - - - - -"),
    (
        PICK,
        17,
        b" - - - - - - - - - - - - - - 0 0 - - - - - - - - - - - - - - 10 0 - -",
    ),
];

#[test]
fn networks_judge_known_states(rt: HostRuntime) -> Result<(), Fail> {
    for (text, count, want) in JUDGED {
        let got = by_network(&rt, text, Worths(count), true)?;
        assert!(rt; got.starts_with(want), "{count}");
    }
    for count in [1, 63, 64] {
        let want = cells(rt.alloc(), count)?;
        assert_eq!(rt; by_network(&rt, PICK, After(count), true)?, want);
    }
    Ok(())
}
