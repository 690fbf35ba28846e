//! Searches by workers who all have to search at once: so each level of a cut has as many as it names.
use crate::made::rule_game;
use crate::plays::{finds, gives_up, new_tally};
use game::Joint;
use std::alloc::{AllocError, AllocGlobal, Global};
use std::process::Abort;
use std::sync::atomic::{AtomicBool, AtomicUsize, Ordering};
use std::test::Fail;
use std::thread::Threads;
use test_games::watched::{Watch, Watched};

/// A game of one role and at most three turns, in which each move leads to the next turn. Facts behind it tell the moves of each turn, and
/// a turn without a move is the end.
const TURNS: &[u8] = b"(role a) (init (at 1)) (follows 1 2) (follows 2 3) (follows 3 4)
(base (at 1)) (base (at 2)) (base (at 3)) (base (at 4))
(<= (input a (go ?t ?m)) (has ?t ?m))
(<= (legal a (go ?t ?m)) (true (at ?t)) (has ?t ?m))
(<= (next (at ?u)) (true (at ?t)) (follows ?t ?u))
(<= (open ?t) (has ?t ?m))
(<= terminal (true (at ?t)) (not (open ?t)))
(goal a 50) ";

/// Steps of the last turn, whose moves have the numbers from `first` on. Each of them waits until so many have begun.
#[derive(Drop)]
struct Crowd {
    first: u32,
    most: usize,
    begun: AtomicUsize,
    gave_up: AtomicBool,
}

impl Watch for &Crowd {
    fn stepped(&self, joint: &Joint) {
        let Some(own) = joint.as_slice().first() else {
            return;
        };
        if *own < self.first || self.gave_up.load(Ordering::SeqCst) {
            return;
        }
        self.begun.fetch_add(1, Ordering::SeqCst);
        if gives_up(&self.begun, self.most) {
            self.gave_up.store(true, Ordering::SeqCst);
        }
    }

    fn gave(&self) {}
}

/// The moves of each turn, a cut with a worker for each move of a turn, the number of the first move of the last turn, and how many ways
/// lead through all turns.
type Row<'a> = (&'a [u8], &'a str, u32, usize);

/// Whether the last turn is searched at once on all ways through the game.
fn all_meet<R: Threads + Abort + Sync + AllocGlobal>(rt: &R, row: Row) -> Result<bool, Fail> {
    let (moves, cut, first, most) = row;
    let mut text = Vec::from_slice(rt.alloc(), TURNS)?;
    text.extend_from_slice(moves)?;
    let crowd = Crowd {
        first,
        most,
        begun: AtomicUsize::new(0),
        gave_up: AtomicBool::new(false),
    };
    let game = Watched {
        inner: rule_game(rt, &text)?,
        watch: &crowd,
    };
    finds(rt, &game, 3, cut.as_bytes(), &new_tally(), 50, 0)?;
    Ok(!crowd.gave_up.load(Ordering::SeqCst))
}

// In the cuts of three levels each level names another number, so a cut whose levels change places has too few workers at one of them.
const CROWDS: [Row; 5] = [
    (b"(has 1 w) (has 1 x) (has 1 y) (has 1 z)", "4", 0, 4),
    (
        b"(has 1 x) (has 1 y) (has 1 z) (has 2 x) (has 2 y)",
        "3x2",
        3,
        6,
    ),
    (
        b"(has 1 x) (has 2 x) (has 2 y) (has 3 x) (has 3 y) (has 3 z)",
        "1x2x3",
        3,
        6,
    ),
    (
        b"(has 1 x) (has 1 y) (has 2 x) (has 2 y) (has 2 z) (has 3 x)",
        "2x3x1",
        5,
        6,
    ),
    (
        b"(has 1 x) (has 1 y) (has 1 z) (has 2 x) (has 3 x) (has 3 y)",
        "3x1x2",
        4,
        6,
    ),
];

#[test]
fn all_workers_of_a_cut_search_at_once(rt: HostRuntime) -> Result<(), Fail> {
    for row in CROWDS {
        let (_, cut, _, _) = row;
        assert!(rt; all_meet(&rt, row)?, "at {cut}");
    }
    Ok(())
}
