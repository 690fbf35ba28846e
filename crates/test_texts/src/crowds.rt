//! Boards that are searched to their end by two workers, and by one.
ghost use Rattle.std.specs.Prelude.{◌≡◌, ℕ, ◌%◌, ◌<◌, ◌≤◌, pos, negsuc, ◌≤ℤ◌, [], true, false, length, slice_index, IfOk};
ghost use Rattle.board.specs.Values.{moves, task_count};
ghost use Rattle.board.specs.Boards.{kept};
ghost use Rattle.board.specs.Seats.{book, setup_on, IsSeatOf};

use board::{Board, Seat, Values};
use std::alloc::{AllocError, Global};
use std::hint::spin_loop;
use std::marker::Brand;
use std::test::Fail;
use std::thread::join;

// Sixteen moves of one reply each, of which the seventh is the first of the best.
struct Rolling;

impl Values for Rolling {
    ghost value = { λ i j. pos (i % 7) };

    ghost narrows = { false };
}

// Searches tasks until all are handed out, with a pause before each window and each report, and answers a bit for each task
// that it was handed.
fn roll(board: &Board<Rolling>, mut seat: Seat<Rolling>, pauses: (u32, u32)) -> (Seat<Rolling>, u64)
    requires seat { IsSeatOf board.now seat }
    requires hand { (book seat).hand ≡ [] }
    ensures seat { IsSeatOf board.now result.0 }
    ensures hand { (book result.0).hand ≡ [] }
    ensures marked { (book result.0).marked ≡ true }
    ensures shares { (book result.0).shares ≡ (book seat).shares }
{
    let mut taken: u64 = 0;
    while let Some(task) = board.claim(&mut seat) {
        taken ^= 1 << (task.number() % 64) as u64;
        let value = (task.own() % 7) as i16;
        pause(pauses.0);
        let window = board.window(&mut seat, &task);
        pause(pauses.1);
        match window {
            Some(_) => board.report(&mut seat, task, value),
            None => board.skip(&mut seat, task),
        }
    }
    (seat, taken)
}

fn pause(turns: u32) {
    for _ in 0..turns {
        spin_loop();
    }
}

// The seed sets how long each thread waits between its steps.
#[test]
fn two_threads_are_handed_each_task_once(rt: HostRuntime) -> Result<(), Fail> {
    let replies = [1, 1, 1, 1, 1, 1, 1, 1, 1, 1, 1, 1, 1, 1, 1, 1];
    for seed in 0..200 {
        let (board, seat) = Board::<Rolling>::new(rt.alloc(), &replies, -1, 101, true)?;
        let (first, second) = seat.split(&board);
        let lent = &board;
        let ((first, early), (second, late)) = join(
            &rt,
            move ||
                requires { IsSeatOf lent.now first × ((book first).hand ≡ [])
                    × ((book first).shares ≡ 2147483648) }
                ensures { IsSeatOf lent.entry.now result.0 × ((book result.0).hand ≡ [])
                    × ((book result.0).marked ≡ true) × ((book result.0).shares ≡ 2147483648) }
            { roll(lent, first, (seed % 5 * 50, seed % 3 * 80)) },
            move ||
                requires { IsSeatOf lent.now second × ((book second).hand ≡ [])
                    × ((book second).shares ≡ 2147483648) }
                ensures { IsSeatOf lent.entry.now result.0 × ((book result.0).hand ≡ [])
                    × ((book result.0).marked ≡ true) × ((book result.0).shares ≡ 2147483648) }
            { roll(lent, second, (seed % 7 * 40, seed % 4 * 60)) },
        );
        assert!(rt;
            early & late == 0 && early | late == 65535,
            "the tasks at seed {seed}"
        );
        let seat = first.join(second, &board);
        assert!(rt; board.finish(seat) == (6, 6), "the answer at seed {seed}");
    }
    Ok(())
}

/// A bound as it is given, of one as it is kept.
fn bound_of(word: u64) -> i16
    requires { word ≤ 103 }
    ensures { (kept result ≡ word) × (negsuc 1 ≤ℤ result) × (result ≤ℤ pos 101) }
{
    word as i16 - 2
}

// Searches tasks until all are handed out, and answers how many it was handed.
fn work<V: Values>(board: &Board<V>, mut seat: Seat<V>, values: &[u8]) -> (Seat<V>, u64)
    requires seat { IsSeatOf board.now seat }
    requires hand { (book seat).hand ≡ [] }
    requires long { moves (setup_on board.now) ≤ length values.now }
    requires table { (i j : ℕ) → i < length values.now
        → V.value i j ≡ pos (slice_index values.now i % 7) }
    ensures seat { IsSeatOf board.now result.0 }
    ensures hand { (book result.0).hand ≡ [] }
    ensures marked { (book result.0).marked ≡ true }
    ensures shares { (book result.0).shares ≡ (book seat).shares }
{
    let mut count: u64 = 0;
    while let Some(task) = board.claim(&mut seat) {
        count = count.wrapping_add(1);
        let value = bound_of((values[task.own() as usize] % 7) as u64 + 2);
        match board.window(&mut seat, &task) {
            Some(_) => board.report(&mut seat, task, value),
            None => board.skip(&mut seat, task),
        }
    }
    (seat, count)
}

// So many moves of one reply each.
fn single_replies(alloc: Global, count: usize) -> Result<Vec<u32, Global>, AllocError>
    requires { count ≤ 65536 }
    ensures length { IfOk result (λ replies. length replies.items ≡ count) }
    ensures tasks { IfOk result (λ replies. task_count replies.items ≡ count) }
    ensures some { IfOk result (λ replies. (i : ℕ) → i < count → 0 < slice_index replies.items i) }
{
    let mut replies = Vec::new(alloc);
    'pushes: for _i in 0..count {
        replies.push(1)?;
    }
    Ok(replies)
}

// The answer of a board of one reply to each move, and how many tasks it handed out.
fn on_one_thread<V: Values>(
    alloc: Global,
    values: &[u8],
    moves: usize,
) -> Result<((i16, u32), u64), AllocError>
    requires some { 0 < moves }
    requires few { moves ≤ 65536 }
    requires long { moves ≤ length values.now }
    requires table { (i j : ℕ) → i < length values.now
        → V.value i j ≡ pos (slice_index values.now i % 7) }
{
    let replies = single_replies(alloc, moves)?;
    let (board, seat) = Board::<V>::new(alloc, replies.as_slice(), -1, 101, true)?;
    let (seat, count) = work(&board, seat, values);
    Ok((board.finish(seat), count))
}

// The value rises with every 9,000 moves, to 6 from move 54,000 on, and falls to 0 at move 63,000.
#[test]
fn a_board_of_as_many_tasks_as_there_may_be(rt: HostRuntime) -> Result<(), Fail> {
    let mut values = Vec::new(rt.alloc());
    for i in 0..65536u32 {
        values.push((i / 9000) as u8)?;
    }
    let (answer, count) = on_one_thread::<Brand>(rt.alloc(), values.as_slice(), 65536)?;
    assert!(rt; count == 65536);
    assert!(rt; answer == (6, 54000));
    Ok(())
}
