//! Answers over the table by cuts of the work.
use game::{AtBound, Game, Question};
use search_split::Cut;
use share::{Gate, solve};
use std::alloc::{AllocError, AllocGlobal};
use std::sync::atomic::{AtomicUsize, Ordering};
use std::thread::Threads;
use test_games::table::Table;

/// A gate that counts how often it was passed.
#[derive(Drop)]
struct Tally {
    passed: AtomicUsize,
}

impl Gate for Tally {
    fn at(&self, task: usize) {
        self.passed.fetch_add(1, Ordering::SeqCst);
        if task < 100 {
            self.passed.fetch_add(10 * task, Ordering::SeqCst);
        }
    }
}

/// The row chooses the first or the second four of the cells, the others choose among the four.
const TABLE: Table = Table {
    worth: [10, 70, 60, 80, 90, 25, 30, 40],
    ends: [true; 8],
};

/// What is asked, the value and the choice, what the gate counts, and the cuts by which it is so.
type Row<'a> = (Question, i16, Option<u32>, usize, &'a [&'a [u8]]);

/// Tasks 0 to 7, each once; and no task, as no turn is to come.
const ROWS: [Row; 3] = [
    (
        Question {
            role: 0,
            depth: 1,
            at: AtBound::Zero,
        },
        25,
        Some(1),
        288,
        CUTS,
    ),
    (
        Question {
            role: 0,
            depth: 1,
            at: AtBound::Goal,
        },
        25,
        Some(1),
        288,
        CUTS,
    ),
    (
        Question {
            role: 1,
            depth: 0,
            at: AtBound::Zero,
        },
        0,
        None,
        0,
        &[&[4, 2]],
    ),
];

const CUTS: &[&[u8]] = &[
    &[1],
    &[4],
    &[2, 2],
    &[1, 3],
    &[1, 1, 1],
    &[2, 2, 2],
    &[16, 2, 2],
];

/// Whether the table is searched with a cut as the row says.
fn answers<R: Threads + Sync + AllocGlobal>(
    rt: &R,
    row: Row,
    levels: &[u8],
) -> Result<bool, AllocError> {
    let (asked, value, choice, passed, _) = row;
    let Some(cut) = Cut::new(levels) else {
        return Ok(false);
    };
    if asked.role >= 3 {
        return Ok(false);
    }
    let tally = Tally {
        passed: AtomicUsize::new(0),
    };
    let start = TABLE.fresh()?;
    let answer = solve(rt, &TABLE, &start, asked, &cut, &tally)?;
    Ok(
        answer.value == value
            && answer.choice == choice
            && tally.passed.load(Ordering::SeqCst) == passed,
    )
}

#[test]
fn each_cut_has_the_same_answer(rt: HostRuntime) -> Result<(), AllocError> {
    for row in ROWS {
        for levels in row.4 {
            assert!(rt; answers(&rt, row, levels)?, "{row:?} by {levels:?}");
        }
    }
    Ok(())
}
