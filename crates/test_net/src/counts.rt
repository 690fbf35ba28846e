//! Searches by one thread with windows, over a game of rules, and how many steps they make.
ghost use Rattle.std.specs.Prelude.{IfOk};

use crate::made::rule_game;
use game::{AtBound, Game, Joint, Question, replay};
use kif::read;
use maximin::{Room, value_in};
use std::alloc::{AllocError, Global};
use std::sync::atomic::{AtomicUsize, Ordering};
use std::test::Fail;
use test_games::texts::LIVE;
use test_games::watched::{Watch, Watched};

/// The state after a history. Any fault is told as want of memory.
fn state_after<G: Game>(alloc: Global, game: &G, history: &[u8]) -> Result<G::Pos, AllocError>
    ensures { IfOk result (λ p. G.fits game.now p) }
{
    let mut p = game.fresh()?;
    let Ok(turns) = read(alloc, history) else {
        return Err(AllocError);
    };
    if replay(alloc, game, &turns, &mut p).is_err() {
        return Err(AllocError);
    }
    Ok(p)
}

/// Whether the value of the state after a history, for the first role within one turn, found in a window, lies in a range. A fault of the
/// row is told as want of memory.
fn lies_in<G: Game>(alloc: Global, game: &G, history: &[u8], row: Row) -> Result<bool, AllocError> {
    let ((low, high), (least, most), _) = row;
    if game.roles() == 0 || low < -2 || low >= high || high > 101 {
        return Err(AllocError);
    }
    let here = state_after(alloc, game, history)?;
    let mut room = Room::new(alloc, game, 1)?;
    let asked = Question {
        role: 0,
        depth: 1,
        at: AtBound::Zero,
    };
    let value = value_in(game, &here, asked, low, high, &mut room);
    Ok(least <= value && value <= most)
}

/// A window, the range in which the answer lies, and how many steps are counted.
type Row = ((i16, i16), (i16, i16), usize);

/// How many steps were made.
#[derive(Drop)]
struct Steps {
    made: AtomicUsize,
}

impl Watch for &Steps {
    fn stepped(&self, _joint: &Joint) {
        self.made.fetch_add(1, Ordering::SeqCst);
    }

    fn gave(&self) {}
}

/// The place of the first row whose answer, in the state after a history, lies elsewhere, or is found in another number of steps.
fn first_other<G: Game>(
    alloc: Global,
    game: &G,
    steps: &Steps,
    history: &[u8],
    rows: &[Row],
) -> Result<Option<usize>, AllocError> {
    for place in 0..rows.len() {
        steps.made.store(0, Ordering::SeqCst);
        let lies = lies_in(alloc, game, history, rows[place])?;
        if !lies || steps.made.load(Ordering::SeqCst) != rows[place].2 {
            return Ok(Some(place));
        }
    }
    Ok(None)
}

/// Below a window one reply of ten is enough. The history has a turn itself.
const NARROWED: [Row; 2] = [((-1, 101), (10, 10), 11), ((89, 101), (10, 89), 2)];

#[test]
fn one_reply_of_ten_is_enough_below_the_window(rt: HostRuntime) -> Result<(), Fail> {
    let steps = Steps {
        made: AtomicUsize::new(0),
    };
    let game = Watched {
        inner: rule_game(&rt, LIVE)?,
        watch: &steps,
    };
    let other = first_other(rt.alloc(), &game, &steps, b"(y noop)", &NARROWED)?;
    assert_eq!(rt; other, None);
    Ok(())
}
