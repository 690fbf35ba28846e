//! The board of the position behind a task, whose workers look at the board of the task.
ghost use Rattle.std.specs.Prelude.{◌≡◌, ◌-◌, ◌≤◌, pos, negsuc, ◌≤ℤ◌, [], true, false, nat_eq, if◌then◌else◌};
ghost use Rattle.board.specs.Values.{best_worth};
ghost use Rattle.board.specs.Books.{seen};
ghost use Rattle.board.specs.Boards.{kept, table_of};
ghost use Rattle.board.specs.Looks.{IsLastSeat};
ghost use Rattle.board.specs.Windows.{BoundsWithin};
ghost use Rattle.board.specs.Seats.{book, setup_on, task_own, task_reply, IsSeatOf, IsTaskOf, IsInHand};

use super::boards::is_task;
use board::{Board, Seat, Task, Values};
use std::test::Fail;

// A task that is worth 40.
struct Above;

impl Values for Above {
    ghost value = { λ i j. pos 40 };

    ghost narrows = { false };
}

// And the position behind it.
struct Behind;

impl Values for Behind {
    ghost value = { λ i j. if nat_eq i 0 then pos 10 else pos 40 };

    ghost narrows = { true };
}

fn value_of(task: &Task<Behind>) -> i16
    ensures value { kept result
        ≡ table_of ⟦<Behind as Values>⟧.value (task_own task.now) (task_reply task.now) }
    ensures range { (negsuc 1 ≤ℤ result) × (result ≤ℤ pos 101) }
{
    if task.own() == 0 { 10 } else { 40 }
}

// An inner worker. It looks at the outer board, through a seat of its own, before each search.
fn work_behind(
    outer: &Board<Above>,
    mut above: Seat<Above>,
    task: &Task<Above>,
    inner: &Board<Behind>,
    mut seat: Seat<Behind>,
) -> (Seat<Above>, Seat<Behind>)
    requires outer { IsSeatOf outer.now above × IsTaskOf outer.now task.now }
    requires inner { IsSeatOf inner.now seat × ((book seat).hand ≡ []) }
    requires ties { (setup_on inner.now).margin ≡ 0 }
    requires bounds { BoundsWithin ((book above).best - (setup_on outer.now).margin)
        (seen (book above) (task_own task.now)) (setup_on inner.now) (book seat) }
    ensures outer { IsSeatOf outer.now result.0 }
    ensures inner { IsSeatOf inner.now result.1 × ((book result.1).hand ≡ []) × ((book result.1).marked ≡ true) }
    ensures shares { (book result.1).shares ≡ (book seat).shares }
    ensures bounds { BoundsWithin ((book result.0).best - (setup_on outer.now).margin)
        (seen (book result.0) (task_own task.now)) (setup_on inner.now) (book result.1) }
{
    while let Some(reply) = inner.claim(&mut seat) {
        let (lo, hi) = outer.look(&mut above, task);
        let value = value_of(&reply);
        match inner.window(&mut seat, &reply) {
            Some(_) => inner.report_in(&mut seat, reply, value, lo, hi),
            None => inner.skip(&mut seat, reply),
        }
    }
    (above, seat)
}

// The inner board's answer is reported to the outer one.
fn answer(
    outer: &Board<Above>,
    seat: Seat<Above>,
    above: Seat<Above>,
    task: Task<Above>,
    inner: Board<Behind>,
    behind: Seat<Behind>,
) -> (Seat<Above>, i16)
    requires seats { IsSeatOf outer.now seat × IsSeatOf outer.now above }
    requires task { IsTaskOf outer.now task × IsInHand seat task }
    requires inner { IsLastSeat inner behind }
    requires bounds { BoundsWithin ((book above).best - (setup_on outer.now).margin)
        (seen (book above) (task_own task)) (setup_on inner) (book behind) }
    requires low { (setup_on inner).low ≤ (book seat).best - (setup_on outer.now).margin }
    requires high { seen (book seat) (task_own task) ≤ (setup_on inner).high }
    requires worth { best_worth (table_of ⟦<Behind as Values>⟧.value) (setup_on inner)
        ≡ table_of ⟦<Above as Values>⟧.value (task_own task) (task_reply task) }
    ensures seat { IsSeatOf outer.now result.0 }
{
    let mut seat = seat.join(above, outer);
    let (value, _) = inner.finish(behind);
    match outer.window(&mut seat, &task) {
        Some(_) => outer.report(&mut seat, task, value),
        None => outer.skip(&mut seat, task),
    }
    (seat, value)
}

// The inner board is opened with the task's window, and its answer lies in what the outer board says by then.
#[test]
fn an_inner_board_answers_for_a_task(rt: HostRuntime) -> Result<(), Fail> {
    let (outer, mut seat) = Board::<Above>::new(rt.alloc(), &[1], -1, 101, true)?;
    let Some(task) = outer.claim(&mut seat) else {
        panic!(rt; "no task")
    };
    assert!(rt; is_task(&task, 0, 0, 0));
    let Some((lo, hi)) = outer.window(&mut seat, &task) else {
        panic!(rt; "no window")
    };
    let (inner, behind) = Board::<Behind>::new(rt.alloc(), &[1, 1], lo, hi, false)?;
    let (seat, above) = seat.split(&outer);
    let (above, behind) = work_behind(&outer, above, &task, &inner, behind);
    let (_, value) = answer(&outer, seat, above, task, inner, behind);
    assert!(rt; value == 40);
    Ok(())
}
