//! The cut that words name, on its way to the workers of a search.
use game::{Game, Joint};
use game_rules::RuleGame;
use ground::instantiate_flat_alone;
use program_replies::{Asked, Reading, Search, ask, read};
use program_run::told_by_workers;
use program_words::{Command, Request, request_in};
use statement::Width;
use std::alloc::AllocError;
use std::hint::spin_loop;
use std::sync::atomic::{AtomicBool, AtomicUsize, Ordering};
use std::thread::Threads;
use test_games::texts::FOUR;
use test_games::watched::{Watch, Watched};

/// Steps, each of which waits until so many have begun, at most 2^30 turns.
#[derive(Drop)]
struct StepsAtOnce {
    most: usize,
    begun: AtomicUsize,
    gave_up: AtomicBool,
}

impl StepsAtOnce {
    /// Waits, and answers whether as many have begun.
    fn is_there(&self) -> bool {
        for _ in 0..1u32 << 30 {
            if self.begun.load(Ordering::SeqCst) >= self.most {
                return true;
            }
            spin_loop();
        }
        false
    }
}

impl Watch for &StepsAtOnce {
    fn stepped(&self, _joint: &Joint) {
        self.begun.fetch_add(1, Ordering::SeqCst);
        if !self.gave_up.load(Ordering::SeqCst) && !self.is_there() {
            self.gave_up.store(true, Ordering::SeqCst);
        }
    }

    fn gave(&self) {}
}

/// The search that words ask for over a description, which is played by rules.
fn search_of<T: AllocGlobal>(
    rt: &T,
    words: &[&str],
    text: &[u8],
) -> Result<Search<RuleGame>, AllocError> {
    let request = request_in(rt.alloc(), &*words, Width::Plain)?;
    let Request::Run(Command::Ask(inquiry, _), _) = &request else {
        return Err(AllocError);
    };
    let Reading::Rules(rules) = read(rt.alloc(), text)? else {
        return Err(AllocError);
    };
    let instantiated = instantiate_flat_alone(rt, &rules, Width::Plain);
    let Asked::ToSearch(search) = ask::<RuleGame, RuleGame>(rt.alloc(), inquiry, instantiated)?
    else {
        return Err(AllocError);
    };
    Ok(search)
}

/// Whether the four moves of a game are stepped at once where words ask for a search of it.
fn step_at_once<T: Threads + Sync + AllocGlobal>(
    rt: &T,
    words: &[&str],
) -> Result<bool, AllocError> {
    let crowd = StepsAtOnce {
        most: 4,
        begun: AtomicUsize::new(0),
        gave_up: AtomicBool::new(false),
    };
    let search = search_of(rt, words, FOUR)?;
    let Search {
        game,
        here: _,
        asked,
        cut,
        table,
    } = search;
    let game = Watched {
        inner: game,
        watch: &crowd,
    };
    let here = game.fresh()?;
    if asked.role >= game.roles() {
        return Ok(false);
    }
    let search = Search {
        game,
        here,
        asked,
        cut,
        table,
    };
    let reply = told_by_workers(rt, search)?;
    let is_right = reply.output.as_slice() == b"value 70\nmove y\nline 1 y\n".as_slice();
    Ok(is_right && !crowd.gave_up.load(Ordering::SeqCst))
}

// Only the run itself is left out, which searches a game that nobody watches. With a table one worker would search so few states alone.
#[test]
fn as_many_workers_search_as_the_words_ask_for(rt: HostRuntime) -> Result<(), AllocError> {
    let words = [
        "solve", "--role", "a", "--depth", "1", "--table", "0", "--cut", "4",
    ];
    assert!(rt; step_at_once(&rt, &words)?);
    Ok(())
}
