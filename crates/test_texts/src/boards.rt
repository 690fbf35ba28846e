//! Boards whose windows and answers were worked out by hand.
ghost use Rattle.std.specs.Prelude.{◌≡◌, ℕ, ◌+◌, ◌*◌, ◌<◌, ◌≤◌, pos, negsuc, ◌<ℤ◌, ◌≤ℤ◌, [], true, false, length, slice_index, nat_eq, if◌then◌else◌, IfSome};
ghost use Rattle.board.specs.Values.{task_count, most_tasks};
ghost use Rattle.board.specs.Books.{all_shares};
ghost use Rattle.board.specs.Boards.{kept};
ghost use Rattle.board.specs.Windows.{Answers};
ghost use Rattle.board.specs.Seats.{book, task_number, task_own, task_reply, IsSeatOf};

use board::{Board, Seat, Task, Values};
use std::alloc::{AllocError, Global};
use std::marker::Brand;
use std::test::Fail;
use test_games::memory::mark;

/// A task that is handed out, by its number, its move and its reply, its window, and the result that is reported, if there is a window.
type Step = ((usize, u32, u32), Option<(i16, i16)>, i16);

/// A bound as it is kept.
fn keep(bound: i16) -> u64
    requires { (negsuc 1 ≤ℤ bound) × (bound ≤ℤ pos 101) }
    ensures { (result ≡ kept bound) × (result ≤ 103) }
{
    (bound + 2) as u64
}

/// Whether a result is right for a value in a window.
fn is_right(value: u8, window: (i16, i16), found: i16) -> bool
    requires low { (negsuc 1 ≤ℤ window.0) × (window.0 ≤ℤ pos 101) }
    requires high { (negsuc 1 ≤ℤ window.1) × (window.1 ≤ℤ pos 101) }
    ensures range { result ≡ true → (negsuc 1 ≤ℤ found) × (found ≤ℤ pos 101) }
    ensures answers { result ≡ true → Answers (kept (pos value)) (kept window.0) (kept window.1) (kept found) }
{
    if found < -2 || found > 101 {
        return false;
    }
    let (value, found) = (value as u64 + 2, keep(found));
    let (low, high) = (keep(window.0), keep(window.1));
    if found < value.min(high) {
        return false;
    }
    found <= value.max(low)
}

/// Claims a task, which has to be that of a step, looks at its window, which has to be that too, and reports it or skips it. The values of
/// the first two replies to each move stand one behind the other.
fn play_step<V: Values>(
    board: &Board<V>,
    mut seat: Seat<V>,
    values: &[u8],
    step: Step,
) -> Option<Seat<V>>
    requires seat { IsSeatOf board.now seat }
    requires hand { (book seat).hand ≡ [] }
    requires table { (i j : ℕ) → V.value i j ≡ pos (slice_index values.now (2 * i + j)) }
    ensures seat { IfSome result (λ s. IsSeatOf board.now s) }
    ensures hand { IfSome result (λ s. (book s).hand ≡ []) }
    ensures shares { IfSome result (λ s. (book s).shares ≡ (book seat).shares) }
{
    let ((number, own, reply), window, found) = step;
    let task = board.claim(&mut seat)?;
    if !is_task(&task, number, own, reply) {
        return None;
    }
    let now = board.window(&mut seat, &task);
    if now != window {
        return None;
    }
    let Some(bounds) = now else {
        board.skip(&mut seat, task);
        return Some(seat);
    };
    let place = 2 * task.own() as usize + task.reply() as usize;
    if place >= values.len() || !is_right(values[place], bounds, found) {
        return None;
    }
    board.report(&mut seat, task, found);
    Some(seat)
}

/// The answer of a board that hands out the tasks of some steps and no more.
fn play<V: Values>(
    alloc: Global,
    replies: &[u32],
    opening: (i16, i16, bool),
    values: &[u8],
    steps: &[Step],
) -> Result<Option<(i16, u32)>, AllocError>
    requires moves { 0 < length replies.now }
    requires replies { (i : ℕ) → i < length replies.now → 0 < slice_index replies.now i }
    requires few { task_count replies.now ≤ most_tasks }
    requires window { (negsuc 1 ≤ℤ opening.0) × (opening.0 <ℤ opening.1) × (opening.1 ≤ℤ pos 101) }
    requires tie { opening.2 ≡ true → negsuc 0 ≤ℤ opening.0 }
    requires table { (i j : ℕ) → V.value i j ≡ pos (slice_index values.now (2 * i + j)) }
{
    let (low, high, ties) = opening;
    let (board, mut seat) = Board::<V>::new(alloc, replies, low, high, ties)?;
    'steps: for place in 0..steps.len() {
        let Some(next) = play_step(&board, seat, values, steps[place]) else {
            return Ok(None);
        };
        seat = next;
    }
    if board.claim(&mut seat).is_some() {
        return Ok(None);
    }
    Ok(Some(board.finish(seat)))
}

#[test]
fn boards_of_one_reply_to_each_move(rt: HostRuntime) -> Result<(), AllocError> {
    let better = [
        ((0, 0, 0), Some((-2, 101)), 40),
        ((1, 1, 0), Some((39, 101)), 70),
    ];
    let answer = play::<Brand>(
        rt.alloc(),
        &[1, 1],
        (-1, 101, true),
        &[40, 0, 70, 0],
        &better,
    )?;
    assert!(rt; answer == Some((70, 1)), "the second move is better");
    let equal = [
        ((0, 0, 0), Some((-2, 101)), 70),
        ((1, 1, 0), Some((69, 101)), 70),
    ];
    let answer = play::<Brand>(
        rt.alloc(),
        &[1, 1],
        (-1, 101, true),
        &[70, 0, 70, 0],
        &equal,
    )?;
    assert!(rt; answer == Some((70, 0)), "the first of two equal moves");
    Ok(())
}

#[test]
fn boards_that_are_opened_without_ties(rt: HostRuntime) -> Result<(), AllocError> {
    let above = [
        ((0, 0, 0), Some((80, 101)), 60),
        ((1, 1, 0), Some((80, 101)), 75),
    ];
    let answer = play::<Brand>(
        rt.alloc(),
        &[1, 1],
        (80, 101, false),
        &[40, 0, 70, 0],
        &above,
    )?;
    assert!(rt;
        answer == Some((75, 1)),
        "any results up to an opening above both values will do"
    );
    let untied = [
        ((0, 0, 0), Some((-2, 101)), 40),
        ((1, 1, 0), Some((40, 101)), 70),
        ((2, 2, 0), Some((70, 101)), 70),
    ];
    let values = [40, 0, 70, 0, 70, 0];
    let answer = play::<Brand>(rt.alloc(), &[1, 1, 1], (-2, 101, false), &values, &untied)?;
    assert!(rt;
        answer == Some((70, 1)),
        "without ties the best move is not the first"
    );
    Ok(())
}

#[test]
fn boards_of_more_replies(rt: HostRuntime) -> Result<(), AllocError> {
    let refuted = [
        ((0, 0, 0), Some((-2, 101)), 70),
        ((1, 1, 0), Some((69, 101)), 69),
        ((2, 1, 1), None, 0),
    ];
    let answer = play::<Brand>(
        rt.alloc(),
        &[1, 2],
        (-1, 101, true),
        &[70, 0, 60, 90],
        &refuted,
    )?;
    assert!(rt; answer == Some((70, 0)), "a refuted move is skipped");
    let falling = [
        ((0, 0, 0), Some((-2, 101)), 10),
        ((1, 0, 1), Some((-2, 10)), 10),
    ];
    let answer = play::<Brand>(rt.alloc(), &[2], (-2, 101, false), &[10, 40], &falling)?;
    assert!(rt; answer == Some((10, 0)), "a reply narrows its move");
    Ok(())
}

// Two moves of one reply each.
struct Rising;

impl Values for Rising {
    ghost value = { λ i j. if nat_eq i 0 then pos 40 else pos 70 };

    ghost narrows = { false };
}

// The second move has two replies.
struct Refuted;

impl Values for Refuted {
    ghost value = { λ i j. if nat_eq i 0 then pos 70 else (if nat_eq j 0 then pos 60 else pos 90) };

    ghost narrows = { false };
}

/// Whether a task has this number, this move and this reply.
pub(crate) fn is_task<V: Values>(task: &Task<V>, number: usize, own: u32, reply: u32) -> bool
    ensures { result ≡ true → (task_number task.now ≡ number) × (task_own task.now ≡ own) × (task_reply task.now ≡ reply) }
{
    task.number() == number && task.own() == own && task.reply() == reply
}

#[test]
fn what_one_seat_reports_another_sees(rt: HostRuntime) -> Result<(), Fail> {
    let (board, seat) = Board::<Rising>::new(rt.alloc(), &[1, 1], -1, 101, true)?;
    let (mut first, mut second) = seat.split(&board);
    let Some(early) = board.claim(&mut first) else {
        panic!(rt; "no task")
    };
    assert!(rt; is_task(&early, 0, 0, 0));
    assert!(rt; board.window(&mut first, &early) == Some((-2, 101)));
    let Some(late) = board.claim(&mut second) else {
        panic!(rt; "no task")
    };
    assert!(rt; is_task(&late, 1, 1, 0));
    assert!(rt; board.window(&mut second, &late) == Some((-2, 101)));
    board.report(&mut first, early, 40);
    assert!(rt; board.window(&mut second, &late) == Some((39, 101)));
    board.report(&mut second, late, 70);
    let None = board.claim(&mut first) else {
        panic!(rt; "a task too many")
    };
    let None = board.claim(&mut second) else {
        panic!(rt; "a task too many")
    };
    let seat = first.join(second, &board);
    assert!(rt; board.finish(seat) == (70, 1));
    Ok(())
}

// The second move has two replies, and both moves were searched in a window that had become narrower.
struct Narrowed;

impl Values for Narrowed {
    ghost value = { λ i j. if nat_eq i 0 then pos 40 else pos 70 };

    ghost narrows = { true };
}

/// Reports the first task in the window of a search that was narrower.
fn report_first(board: &Board<Narrowed>, mut seat: Seat<Narrowed>) -> Option<Seat<Narrowed>>
    requires seat { IsSeatOf board.now seat }
    requires hand { (book seat).hand ≡ [] }
    ensures seat { IfSome result (λ s. IsSeatOf board.now s) }
    ensures hand { IfSome result (λ s. (book s).hand ≡ []) }
    ensures shares { IfSome result (λ s. (book s).shares ≡ (book seat).shares) }
{
    let task = board.claim(&mut seat)?;
    if !is_task(&task, 0, 0, 0) || board.window(&mut seat, &task) != Some((-2, 101)) {
        return None;
    }
    board.report_in(&mut seat, task, 89, 89, 101);
    Some(seat)
}

/// Reports the second task, whose window the first has made narrower.
fn report_second(board: &Board<Narrowed>, mut seat: Seat<Narrowed>) -> Option<Seat<Narrowed>>
    requires seat { IsSeatOf board.now seat }
    requires hand { (book seat).hand ≡ [] }
    ensures seat { IfSome result (λ s. IsSeatOf board.now s) }
    ensures hand { IfSome result (λ s. (book s).hand ≡ []) }
    ensures shares { IfSome result (λ s. (book s).shares ≡ (book seat).shares) }
{
    let task = board.claim(&mut seat)?;
    if !is_task(&task, 1, 1, 0) || board.look(&mut seat, &task) != (89, 101) {
        return None;
    }
    if board.window(&mut seat, &task) != Some((89, 101)) {
        return None;
    }
    board.report_in(&mut seat, task, 89, 89, 101);
    Some(seat)
}

/// Skips the third task, for which nothing is left.
fn skip_third(board: &Board<Narrowed>, mut seat: Seat<Narrowed>) -> Option<Seat<Narrowed>>
    requires seat { IsSeatOf board.now seat }
    requires hand { (book seat).hand ≡ [] }
    ensures seat { IfSome result (λ s. IsSeatOf board.now s) }
    ensures hand { IfSome result (λ s. (book s).hand ≡ []) }
    ensures shares { IfSome result (λ s. (book s).shares ≡ (book seat).shares) }
{
    let task = board.claim(&mut seat)?;
    if !is_task(&task, 2, 1, 1) || board.look(&mut seat, &task) != (89, 89) {
        return None;
    }
    if board.window(&mut seat, &task).is_some() {
        return None;
    }
    board.skip(&mut seat, task);
    Some(seat)
}

/// The answer of the board behind these three tasks, if there is no other.
fn narrowed_answer(board: Board<Narrowed>, seat: Seat<Narrowed>) -> Option<(i16, u32)>
    requires seat { IsSeatOf board seat }
    requires hand { (book seat).hand ≡ [] }
    requires shares { (book seat).shares ≡ all_shares }
{
    let seat = report_first(&board, seat)?;
    let seat = report_second(&board, seat)?;
    let mut seat = skip_third(&board, seat)?;
    if board.claim(&mut seat).is_some() {
        return None;
    }
    Some(board.finish(seat))
}

#[test]
fn results_of_narrower_windows(rt: HostRuntime) -> Result<(), Fail> {
    let (board, seat) = Board::<Narrowed>::new(rt.alloc(), &[1, 2], -2, 101, false)?;
    assert_eq!(rt; narrowed_answer(board, seat), Some((89, 0)));
    Ok(())
}

// Each growth is refused in turn by `rt try --test --fail-alloc N`: this test passes for every N, the others where none of
// their own growths was refused.
#[test]
fn a_board_is_opened_or_refused(rt: HostRuntime) {
    match Board::<Rising>::new(rt.alloc(), &[1, 1], -1, 101, true) {
        Ok((board, mut seat)) => {
            let Some(task) = board.claim(&mut seat) else {
                panic!(rt; "no task")
            };
            assert!(rt; task.number() == 0);
            assert!(rt; board.window(&mut seat, &task) == Some((-2, 101)));
        }
        Err(_) => {}
    }
}

#[test]
fn a_board_is_opened(rt: HostRuntime) -> Result<(), Fail> {
    mark(rt.alloc());
    let opened = Board::<Refuted>::new(rt.alloc(), &[1, 2], -1, 101, true);
    mark(rt.alloc());
    let (board, mut seat) = opened?;
    let Some(task) = board.claim(&mut seat) else {
        panic!(rt; "no task")
    };
    assert!(rt; board.window(&mut seat, &task) == Some((-2, 101)));
    Ok(())
}
