//! What no clause says: that hints reach the other workers.
use search_table::{Marks, SharedHistory};
use std::test::Fail;
use std::thread::{Threads, join};

const MOST: u64 = u64::MAX;

/// What is done with a history.
enum Noting {
    /// A weight is noted for a move of a role.
    Note(usize, u32, u64),
    /// All is forgotten.
    Forget,
    /// A move of a role has this score.
    Score(usize, u32, u64),
}

use Noting::{Forget, Note, Score};

/// How many moves the roles have, and what is done with their history, in order.
const HISTORIES: [(&[usize], &[Noting]); 5] = [
    // A note counts for its move alone.
    (
        &[2, 3],
        &[
            Note(1, 0, 7),
            Note(1, 0, 2),
            Note(0, 1, 5),
            Score(1, 0, 9),
            Score(0, 1, 5),
            Score(0, 0, 0),
            Score(1, 1, 0),
            Score(1, 2, 0),
        ],
    ),
    // What was noted can be forgotten.
    (
        &[2, 3],
        &[
            Note(1, 2, 7),
            Note(0, 0, 5),
            Forget,
            Score(1, 2, 0),
            Score(0, 0, 0),
            Note(1, 2, 3),
            Score(1, 2, 3),
        ],
    ),
    // A move that is not known scores nothing.
    (
        &[2, 3],
        &[
            Note(1, 3, 7),
            Note(2, 0, 7),
            Score(1, 3, 0),
            Score(2, 0, 0),
            Score(0, 0, 0),
        ],
    ),
    (&[], &[Note(0, 0, 7), Score(0, 0, 0)]),
    // A count stays at its greatest.
    (
        &[1],
        &[Note(0, 0, MOST - 1), Note(0, 0, 5), Score(0, 0, MOST)],
    ),
];

/// Does one thing with a history, and answers whether a score is as it has to be.
fn is_noted(history: &SharedHistory, noting: &Noting) -> bool {
    match noting {
        Note(role, number, weight) => history.note(*role, *number, *weight),
        Forget => history.forget(),
        Score(role, number, score) => return history.score(*role, *number) == *score,
    }
    true
}

#[test]
fn histories_score_what_was_noted(rt: HostRuntime) -> Result<(), Fail> {
    for (row, (moves, notings)) in HISTORIES.iter().enumerate() {
        let history = SharedHistory::new(rt.alloc(), moves)?;
        for (place, noting) in notings.iter().enumerate() {
            assert!(rt; is_noted(&history, noting), "history {row}, at {place}");
        }
    }
    Ok(())
}

/// What is done with marks.
enum Marking {
    /// A worker marks a state.
    Mark(u64, u8),
    /// A worker takes its mark away.
    Unmark(u64, u8),
    /// Whether a state is marked by another than this worker.
    IsMarked(u64, u8, bool),
    /// The end is not told yet.
    IsOpen,
}

use Marking::{IsMarked, IsOpen, Mark, Unmark};

const STATE: u64 = 0x1234_5678_9abc_def0;

/// Two states of one place, whose hashes differ elsewhere.
const FIRST: u64 = 0x0100_0000_0030_0000;

const SECOND: u64 = 0x0200_0000_0030_0000;

/// How many places there are, and what is done with their marks, in order.
const MARKINGS: [(u32, &[Marking]); 4] = [
    // A mark is seen by the others.
    (
        16,
        &[
            IsMarked(STATE, 1, false),
            Mark(STATE, 0),
            IsMarked(STATE, 1, true),
            IsMarked(STATE, 0, false),
            Unmark(STATE, 1),
            IsMarked(STATE, 1, true),
            Unmark(STATE, 0),
            IsMarked(STATE, 1, false),
        ],
    ),
    // A mark is of one state.
    (
        16,
        &[
            Mark(FIRST, 0),
            IsMarked(SECOND, 1, false),
            Mark(SECOND, 1),
            IsMarked(FIRST, 2, false),
            IsMarked(SECOND, 2, true),
            Unmark(FIRST, 0),
            IsMarked(SECOND, 2, true),
        ],
    ),
    (0, &[Mark(FIRST, 0), IsMarked(FIRST, 1, false)]),
    // No mark is the end.
    (16, &[IsOpen, Mark(STATE, 0), IsOpen]),
];

/// Does one thing with marks, and answers whether what is seen is as it has to be.
fn is_seen(marks: &Marks, marking: &Marking) -> bool {
    match marking {
        Mark(hash, worker) => marks.mark(*hash, *worker),
        Unmark(hash, worker) => marks.unmark(*hash, *worker),
        IsMarked(hash, worker, marked) => {
            return marks.is_marked_by_another(*hash, *worker) == *marked;
        }
        IsOpen => return !marks.is_over(),
    }
    true
}

#[test]
fn marks_are_seen_by_the_others(rt: HostRuntime) -> Result<(), Fail> {
    for (row, (places, markings)) in MARKINGS.iter().enumerate() {
        let marks = Marks::new(rt.alloc(), *places)?;
        for (place, marking) in markings.iter().enumerate() {
            assert!(rt; is_seen(&marks, marking), "marks {row}, at {place}");
        }
    }
    Ok(())
}

/// What two workers tell each other, the second also that the search is over. A note may be lost where both note the same move at once.
fn notes_of_two<R: Threads + Sync>(rt: &R, history: &SharedHistory, marks: &Marks) {
    let left = move || {
        history.note(0, 0, 3);
        marks.mark(0x0100_0000_0030_0000, 0);
    };
    let right = move || {
        history.note(0, 1, 4);
        marks.mark(0x0200_0000_0040_0000, 1);
        marks.end();
    };
    join(rt, left, right);
}

#[test]
fn workers_see_what_the_others_tell(rt: HostRuntime) -> Result<(), Fail> {
    let history = SharedHistory::new(rt.alloc(), &[2])?;
    let marks = Marks::new(rt.alloc(), 16)?;
    notes_of_two(&rt, &history, &marks);
    let scores = [history.score(0, 0), history.score(0, 1)];
    let seen = [
        marks.is_marked_by_another(0x0100_0000_0030_0000, 2),
        marks.is_marked_by_another(0x0200_0000_0040_0000, 2),
        marks.is_over(),
    ];
    assert_eq!(rt; scores, [3, 4]);
    assert_eq!(rt; seen, [true, true, true]);
    Ok(())
}
