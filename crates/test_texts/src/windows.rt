//! Values, choices and replies over the table.
ghost use Rattle.std.specs.Prelude.{◌≡◌, ◌<◌};

use game::AtBound::{Goal, Zero};
use game::{AtBound, Game, Joint, Question};
use maximin::{Room, choice_by_value, first_reply, reply_by_value, value_in};
use smallvec::SmallVec;
use std::alloc::{AllocError, Global};
use std::sync::atomic::{AtomicUsize, Ordering};
use test_games::table::Table;
use test_games::watched::Watched;

/// What is asked of a state.
fn ask(role: usize, depth: u32, at: AtBound) -> Question
    ensures { result ≡ record { role = role; depth = depth; at = at } }
{
    Question { role, depth, at }
}

/// Whether the value of the start state within a window lies in a range. It is found through the bound alone, as in every caller.
fn lies_in<G: Game>(
    game: &G,
    alloc: Global,
    window: (i16, i16),
    range: (i16, i16),
) -> Result<bool, AllocError>
    requires { 0 < (G.rules game.now).roles }
{
    let (low, high) = window;
    if low < -2 || low >= high || high > 101 {
        return Ok(false);
    }
    let mut room = Room::new(alloc, game, 1)?;
    let start = game.fresh()?;
    let value = value_in(game, &start, ask(0, 1, Zero), low, high, &mut room);
    Ok(range.0 <= value && value <= range.1)
}

/// The row can be sure of 10 by its first side, and of 30 by its second.
const LEVEL: Table = Table {
    worth: [50, 10, 10, 50, 40, 30, 90, 95],
    ends: [true; 8],
};

/// The row can be sure of 40 by both sides.
const EQUAL: Table = Table {
    worth: [70, 40, 90, 80, 60, 40, 50, 45],
    ends: [true; 8],
};

/// Windows, the ranges in which the answers lie, and how many states are stepped to.
const NARROWED: [((i16, i16), (i16, i16), usize); 3] = [
    ((-1, 101), (30, 30), 8),
    // The first reply to each side is worth no more than 60 already.
    ((60, 101), (30, 60), 2),
    // The first side is worth 10, so the second is not looked at.
    ((0, 10), (10, 30), 4),
];

#[test]
fn narrow_window_steps_less(rt: HostRuntime) -> Result<(), AllocError> {
    let game = Watched {
        inner: LEVEL,
        watch: AtomicUsize::new(0),
    };
    for (window, range, steps) in NARROWED {
        assert!(rt; lies_in(&game, rt.alloc(), window, range)?, "{window:?}");
        assert_eq!(rt; game.watch.swap(0, Ordering::SeqCst), steps);
    }
    Ok(())
}

// Of the row's first side both cell 1 and cell 2 are worth 10. The column's move changes slower than the layer's.
#[test]
fn first_of_equal_replies_is_told(rt: HostRuntime) -> Result<(), AllocError> {
    let table = LEVEL;
    let mut room = Room::new(rt.alloc(), &table, 1)?;
    let start = table.fresh()?;
    let mut reply = SmallVec::new(rt.alloc());
    first_reply(&table, &start, ask(0, 1, Zero), 0, &mut room, &mut reply);
    assert_eq!(rt; reply.as_slice(), [0, 0, 1].as_slice());
    first_reply(&table, &start, ask(0, 1, Zero), 1, &mut room, &mut reply);
    assert_eq!(rt; reply.as_slice(), [1, 0, 1].as_slice());
    first_reply(&table, &start, ask(1, 1, Zero), 0, &mut room, &mut reply);
    assert_eq!(rt; reply.as_slice(), [0, 0, 0].as_slice());
    first_reply(&table, &start, ask(2, 1, Zero), 0, &mut room, &mut reply);
    assert_eq!(rt; reply.as_slice(), [1, 1, 0].as_slice());
    Ok(())
}

#[test]
fn known_values_step_less(rt: HostRuntime) -> Result<(), AllocError> {
    let game = Watched {
        inner: LEVEL,
        watch: AtomicUsize::new(0),
    };
    let mut room = Room::new(rt.alloc(), &game, 1)?;
    let start = game.fresh()?;
    let mut reply = SmallVec::new(rt.alloc());
    // The row's second side is worth 30. Nothing is behind it, so it is not looked at.
    assert_eq!(rt;
        choice_by_value(&game, &start, ask(0, 1, Zero), 30, &mut room),
        Some(1)
    );
    assert_eq!(rt; game.watch.swap(0, Ordering::SeqCst), 2);
    // Of the row's first side cell 1 is the first that is worth 10.
    reply_by_value(&game, &start, ask(0, 1, Zero), 0, 10, &mut room, &mut reply);
    assert_eq!(rt; reply.as_slice(), [0, 0, 1].as_slice());
    assert_eq!(rt; game.watch.load(Ordering::SeqCst), 2);
    Ok(())
}

#[test]
fn first_of_equals_by_a_known_value(rt: HostRuntime) -> Result<(), AllocError> {
    let table = EQUAL;
    let mut room = Room::new(rt.alloc(), &table, 1)?;
    let start = table.fresh()?;
    let mut reply = SmallVec::new(rt.alloc());
    assert_eq!(rt;
        choice_by_value(&table, &start, ask(0, 1, Zero), 40, &mut room),
        Some(0)
    );
    reply_by_value(
        &table,
        &start,
        ask(0, 1, Zero),
        0,
        40,
        &mut room,
        &mut reply,
    );
    assert_eq!(rt; reply.as_slice(), [0, 0, 1].as_slice());
    assert_eq!(rt;
        choice_by_value(&table, &start, ask(0, 0, Zero), 0, &mut room),
        None
    );
    Ok(())
}

// By its second side the row gets 100 whatever the others do, and the column gets nothing by its first.
#[test]
fn ends_of_the_range_are_known_values(rt: HostRuntime) -> Result<(), AllocError> {
    let table = Table {
        worth: [100, 100, 100, 0, 100, 100, 100, 100],
        ends: [true; 8],
    };
    let mut room = Room::new(rt.alloc(), &table, 1)?;
    let start = table.fresh()?;
    let mut reply = SmallVec::new(rt.alloc());
    assert_eq!(rt;
        choice_by_value(&table, &start, ask(0, 1, Zero), 100, &mut room),
        Some(1)
    );
    reply_by_value(
        &table,
        &start,
        ask(0, 1, Zero),
        1,
        100,
        &mut room,
        &mut reply,
    );
    assert_eq!(rt; reply.as_slice(), [1, 0, 0].as_slice());
    assert_eq!(rt;
        choice_by_value(&table, &start, ask(1, 1, Zero), 0, &mut room),
        Some(0)
    );
    reply_by_value(&table, &start, ask(1, 1, Zero), 0, 0, &mut room, &mut reply);
    assert_eq!(rt; reply.as_slice(), [0, 0, 0].as_slice());
    Ok(())
}

/// The value of the start state for a role a turn ahead.
fn value_for<G: Game>(game: &G, alloc: Global, role: usize, at: AtBound) -> Result<i16, AllocError>
    requires { role < (G.rules game.now).roles }
{
    let mut room = Room::new(alloc, game, 1)?;
    let start = game.fresh()?;
    Ok(value_in(game, &start, ask(role, 1, at), -1, 101, &mut room))
}

/// Whether the start state has these values for three roles, each by either bound.
fn has_values<G: Game>(game: &G, alloc: Global, values: [i16; 3]) -> Result<bool, AllocError>
    requires { 2 < (G.rules game.now).roles }
{
    for role in 0..3usize {
        if value_for(game, alloc, role, Zero)? != values[role]
            || value_for(game, alloc, role, Goal)? != values[role]
        {
            return Ok(false);
        }
    }
    Ok(true)
}

// In the second cell the game goes on, and the layer has no move. The table judges the last turn, and the watched game steps it.
#[test]
fn judged_turn_has_the_values_of_a_stepped_one(rt: HostRuntime) -> Result<(), AllocError> {
    let table = Table {
        worth: [30, 95, 40, 90, 60, 50, 70, 80],
        ends: [true, false, true, true, true, true, true, true],
    };
    assert!(rt; has_values(&table, rt.alloc(), [50, 10, 30])?);
    let game = Watched {
        inner: table,
        watch: AtomicUsize::new(0),
    };
    assert!(rt; has_values(&game, rt.alloc(), [50, 10, 30])?);
    assert!(rt; game.watch.load(Ordering::SeqCst) > 0);
    Ok(())
}
