//! Answers over games of rules, whose workers meet.
ghost use Rattle.std.specs.Prelude.{◌<◌};

use crate::made::rule_game;
use game::{AtBound, Game, Joint, Question};
use search_split::Cut;
use share::{Answer, Gate, solve};
use std::alloc::AllocGlobal;
use std::hint::spin_loop;
use std::process::Abort;
use std::sync::atomic::{AtomicBool, AtomicUsize, Ordering};
use std::test::Fail;
use std::thread::Threads;
use test_games::memory::mark;
use test_games::texts::{FOUR, LIVE};
use test_games::watched::{Watch, Watched};

/// Two roles choose at once. Whatever b chooses, y is worth 90 to a and z 20, and x is worth 10 or 60.
const PAIRS: &[u8] = b"(role a) (role b) (own x) (own y) (own z) (reply l) (reply r)
(<= (input a ?m) (own ?m)) (<= (input b ?n) (reply ?n))
(<= (base (did ?m ?n)) (own ?m) (reply ?n))
(<= (legal a ?m) (own ?m)) (<= (legal b ?n) (reply ?n))
(<= (next (did ?m ?n)) (does a ?m) (does b ?n))
(<= terminal (true (did ?m ?n)))
(<= (goal a 10) (true (did x l))) (<= (goal a 60) (true (did x r)))
(<= (goal a 90) (true (did y ?n))) (<= (goal a 20) (true (did z ?n)))";

/// Four roles with sixteen moves each, and one turn.
const WIDE: &[u8] = b"(role r1) (role r2) (role r3) (role r4)
(d 0) (d 1) (d 2) (d 3) (d 4) (d 5) (d 6) (d 7) (d 8) (d 9) (d 10) (d 11) (d 12) (d 13) (d 14) (d 15)
(base on)
(<= (input ?r ?m) (role ?r) (d ?m))
(<= (legal ?r ?m) (role ?r) (d ?m))
(<= (next on) (does r1 ?m))
(<= terminal (true on))
(<= (goal r1 30) (true on))";

/// Five roles with ten moves each: a hundred thousand joint moves.
const WIDER: &[u8] = b"(role r1) (role r2) (role r3) (role r4) (role r5)
(d 0) (d 1) (d 2) (d 3) (d 4) (d 5) (d 6) (d 7) (d 8) (d 9)
(base on)
(<= (input ?r ?m) (role ?r) (d ?m))
(<= (legal ?r ?m) (role ?r) (d ?m))
(<= (next on) (does r1 ?m))
(<= terminal (true on))
(<= (goal r1 30) (true on))";

// What the first role can be sure of from the start.
fn solved<R: Threads + Abort + Sync + AllocGlobal, G: Game, K: Gate>(
    rt: &R,
    game: &G,
    depth: u32,
    cut: &[u8],
    gate: &K,
) -> Result<Answer, Fail> {
    if game.roles() == 0 {
        panic!(rt; "no role");
    }
    let start = game.fresh()?;
    let Some(cut) = Cut::parse(cut) else {
        panic!(rt; "no cut")
    };
    let asked = Question {
        role: 0,
        depth,
        at: AtBound::Zero,
    };
    mark(rt.alloc());
    let found = solve(rt, game, &start, asked, &cut, gate);
    mark(rt.alloc());
    Ok(found?)
}

/// Searches a game from its start for the first role, and asserts its value and choice.
pub(crate) fn finds<R: Threads + Abort + Sync + AllocGlobal, G: Game, K: Gate>(
    rt: &R,
    game: &G,
    depth: u32,
    cut: &[u8],
    gate: &K,
    value: i16,
    choice: u32,
) -> Result<(), Fail> {
    let answer = solved(rt, game, depth, cut, gate)?;
    assert_eq!(rt; answer.value, value);
    assert_eq!(rt; answer.choice, Some(choice));
    Ok(())
}

// Waits until a number is reached, at most 2^30 turns. It tells whether it gave up.
pub(crate) fn gives_up(number: &AtomicUsize, least: usize) -> bool {
    for _ in 0..1u32 << 30 {
        if number.load(Ordering::SeqCst) >= least {
            return false;
        }
        spin_loop();
    }
    true
}

/// A gate that counts.
#[derive(Drop)]
pub(crate) struct Tally {
    passed: AtomicUsize,
}

impl Gate for Tally {
    fn at(&self, _task: usize) {
        self.passed.fetch_add(1, Ordering::SeqCst);
    }
}

pub(crate) fn new_tally() -> Tally {
    Tally {
        passed: AtomicUsize::new(0),
    }
}

/// A gate that holds a task until another was called.
#[derive(Drop)]
struct Held {
    task: usize,
    until: usize,
    called: AtomicUsize,
    gave_up: AtomicBool,
}

impl Gate for Held {
    fn at(&self, task: usize) {
        if task == self.until {
            self.called.fetch_add(1, Ordering::SeqCst);
        }
        if task == self.task && gives_up(&self.called, 1) {
            self.gave_up.store(true, Ordering::SeqCst);
        }
    }
}

/// A gate that holds task 1 until task 4 was called, and how many steps of the joint move of task 1 were made.
#[derive(Drop)]
struct Late {
    gate: Held,
    steps: AtomicUsize,
}

impl Watch for &Late {
    fn stepped(&self, joint: &Joint) {
        if is_move(joint, [0, 1]) {
            self.steps.fetch_add(1, Ordering::SeqCst);
        }
    }

    fn gave(&self) {}
}

impl Gate for Late {
    fn at(&self, task: usize) {
        self.gate.at(task);
    }
}

const TWO_AT_THE_ROOT: [&[u8]; 3] = [b"2", b"2x2", b"2x2x2"];

/// Searches the pairs by cuts of two workers at the root, and asserts that task 1 was held and not searched.
fn passes_over_what_was_held<R: Threads + Abort + Sync + AllocGlobal, G: Game>(
    rt: &R,
    game: &G,
    late: &Late,
) -> Result<(), Fail> {
    for cut in TWO_AT_THE_ROOT {
        late.gate.called.store(0, Ordering::SeqCst);
        finds(rt, game, 1, cut, late, 90, 1)?;
    }
    assert!(rt; !late.gate.gave_up.load(Ordering::SeqCst));
    assert_eq!(rt; late.steps.load(Ordering::SeqCst), 0);
    Ok(())
}

// The moves are x, y and z, the replies l and r. When task 4 is called, x is known to be worth at most 10 and y 90. So a window
// that is read behind the gate leaves nothing to search of task 1, x and r, and one that was read before it leaves something.
#[test]
fn a_window_is_read_behind_the_gate(rt: HostRuntime) -> Result<(), Fail> {
    let late = Late {
        gate: Held {
            task: 1,
            until: 4,
            called: AtomicUsize::new(0),
            gave_up: AtomicBool::new(false),
        },
        steps: AtomicUsize::new(0),
    };
    let game = Watched {
        inner: rule_game(&rt, PAIRS)?,
        watch: &late,
    };
    passes_over_what_was_held(&rt, &game, &late)
}

/// A gate whose first call waits until a second was made.
#[derive(Drop)]
struct Second {
    calls: AtomicUsize,
    gave_up: AtomicBool,
}

impl Gate for Second {
    fn at(&self, _task: usize) {
        if self.calls.fetch_add(1, Ordering::SeqCst) == 0 && gives_up(&self.calls, 2) {
            self.gave_up.store(true, Ordering::SeqCst);
        }
    }
}

// The other worker goes on while one is held, and two pass the gate at once.
#[test]
fn work_goes_on_past_a_worker_that_is_held(rt: HostRuntime) -> Result<(), Fail> {
    let game = rule_game(&rt, FOUR)?;
    let gate = Held {
        task: 1,
        until: 3,
        called: AtomicUsize::new(0),
        gave_up: AtomicBool::new(false),
    };
    finds(&rt, &game, 1, b"2", &gate, 70, 1)?;
    assert!(rt; !gate.gave_up.load(Ordering::SeqCst));
    let gate = Second {
        calls: AtomicUsize::new(0),
        gave_up: AtomicBool::new(false),
    };
    finds(&rt, &game, 1, b"2", &gate, 70, 1)?;
    assert!(rt; !gate.gave_up.load(Ordering::SeqCst));
    Ok(())
}

/// Two joint moves, each of whose steps waits until that of the other has begun.
#[derive(Drop)]
struct Meeting {
    one: [u32; 2],
    other: [u32; 2],
    begun: [AtomicUsize; 2],
    gave_up: AtomicBool,
}

fn is_move(joint: &Joint, moves: [u32; 2]) -> bool {
    let joint = joint.as_slice();
    joint.first() == Some(&moves[0]) && (joint.len() < 2 || joint.get(1) == Some(&moves[1]))
}

impl Watch for Meeting {
    fn stepped(&self, joint: &Joint) {
        if is_move(joint, self.one) {
            self.begun[0].fetch_add(1, Ordering::SeqCst);
            if gives_up(&self.begun[1], 1) {
                self.gave_up.store(true, Ordering::SeqCst);
            }
        } else if is_move(joint, self.other) {
            self.begun[1].fetch_add(1, Ordering::SeqCst);
            if gives_up(&self.begun[0], 1) {
                self.gave_up.store(true, Ordering::SeqCst);
            }
        }
    }

    fn gave(&self) {}
}

fn meeting_of(one: [u32; 2], other: [u32; 2]) -> Meeting {
    Meeting {
        one,
        other,
        begun: [AtomicUsize::new(0), AtomicUsize::new(0)],
        gave_up: AtomicBool::new(false),
    }
}

/// A game, two joint moves that meet, how many turns are looked ahead, a cut, the value, and how often the gate is passed.
type Met<'a> = (&'a [u8], [u32; 2], [u32; 2], u32, &'a [u8], i16, usize);

const MEETINGS: [Met; 2] = [
    // The moves are x, y, z and zz.
    (FOUR, [0, 0], [1, 0], 1, b"2", 70, 4),
    // The moves of a are go, x, y and z, those of b are noop and r0 to r9: two inner workers search at once.
    (LIVE, [0, 1], [0, 2], 2, b"1x2", 90, 3),
];

#[test]
fn two_workers_search_at_once(rt: HostRuntime) -> Result<(), Fail> {
    for (text, one, other, depth, cut, value, passed) in MEETINGS {
        let game = Watched {
            inner: rule_game(&rt, text)?,
            watch: meeting_of(one, other),
        };
        finds_and_passes(&rt, &game, depth, cut, value, 1, passed)?;
        assert!(rt; !game.watch.gave_up.load(Ordering::SeqCst));
    }
    Ok(())
}

/// The step of x waits until those of go with r0 and with r1 have begun, and these wait until the gate was called for task 2.
#[derive(Drop)]
struct Bounds {
    begun: AtomicUsize,
    later: AtomicUsize,
    called: AtomicUsize,
    gave_up: AtomicBool,
}

impl Watch for &Bounds {
    fn stepped(&self, joint: &Joint) {
        if is_move(joint, [1, 0]) {
            if gives_up(&self.begun, 2) {
                self.gave_up.store(true, Ordering::SeqCst);
            }
        } else if is_move(joint, [0, 1]) || is_move(joint, [0, 2]) {
            self.begun.fetch_add(1, Ordering::SeqCst);
            if gives_up(&self.called, 1) {
                self.gave_up.store(true, Ordering::SeqCst);
            }
        } else if joint.as_slice().first() == Some(&0) {
            self.later.fetch_add(1, Ordering::SeqCst);
        }
    }

    fn gave(&self) {}
}

impl Gate for Bounds {
    fn at(&self, task: usize) {
        if task == 2 {
            self.called.fetch_add(1, Ordering::SeqCst);
        }
    }
}

// By then x is known to be worth 90, so no reply past the first two is stepped into.
#[test]
fn inner_workers_see_what_the_root_knows(rt: HostRuntime) -> Result<(), Fail> {
    let bounds = Bounds {
        begun: AtomicUsize::new(0),
        later: AtomicUsize::new(0),
        called: AtomicUsize::new(0),
        gave_up: AtomicBool::new(false),
    };
    let game = Watched {
        inner: rule_game(&rt, LIVE)?,
        watch: &bounds,
    };
    finds(&rt, &game, 2, b"2x2", &bounds, 90, 1)?;
    assert!(rt; !bounds.gave_up.load(Ordering::SeqCst));
    assert_eq!(rt; bounds.later.load(Ordering::SeqCst), 0);
    Ok(())
}

/// Searches a game by a cut, and asserts what is found and how often the gate was passed.
fn finds_and_passes<R: Threads + Abort + Sync + AllocGlobal, G: Game>(
    rt: &R,
    game: &G,
    depth: u32,
    cut: &[u8],
    value: i16,
    choice: u32,
    passed: usize,
) -> Result<(), Fail> {
    let gate = new_tally();
    finds(rt, game, depth, cut, &gate, value, choice)?;
    assert_eq!(rt; gate.passed.load(Ordering::SeqCst), passed);
    Ok(())
}

/// A game, how many turns are looked ahead, cuts, the value, the choice, and how often the gate is passed.
type Row<'a> = (&'a [u8], u32, &'a [&'a [u8]], i16, u32, usize);

const ROWS: [Row; 3] = [
    (
        LIVE,
        2,
        &[b"1", b"2", b"2x2", b"2x4", b"16x4", b"1x1x1", b"2x2x2"],
        90,
        1,
        3,
    ),
    // As many tasks as a board may have, and more, of which none passes.
    (WIDE, 1, &[b"1", b"4"], 30, 0, 65_536),
    (WIDER, 1, &[b"1", b"4"], 30, 0, 0),
];

#[test]
fn each_cut_has_the_same_answer(rt: HostRuntime) -> Result<(), Fail> {
    for (text, depth, cuts, value, choice, passed) in ROWS {
        let game = rule_game(&rt, text)?;
        for cut in cuts {
            finds_and_passes(&rt, &game, depth, cut, value, choice, passed)?;
        }
    }
    Ok(())
}

// Whatever of the other workers' memory is refused, there is an answer: no gate counts here, since without a board none is passed.
#[test]
fn search_of_two_turns_is_shared(rt: HostRuntime) -> Result<(), Fail> {
    let game = rule_game(&rt, LIVE)?;
    finds(&rt, &game, 2, b"2x2", &new_tally(), 90, 1)
}
