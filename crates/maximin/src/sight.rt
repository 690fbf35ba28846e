//! What a search sees of others beside it.
use crate::memory::Memory;
use crate::run::LONGEST_RUN;
use game::{Game, Question};
use search_table::{Marks, hash_of};
use std::alloc::AllocError;
use std::sync::Arc;
use std::sync::atomic::{AtomicU64, Ordering};

/// States with fewer turns left are not marked in a long search: they are searched too soon.
const FEWEST_MARKED: u32 = 4;

/// States with fewer turns left are not marked in any search, as they are not looked up.
const FEWEST_TURNS: u32 = 2;

/// How many turns a state has left at least that is marked, in a search of so many turns. Were the states after the first moves not
/// marked, its workers would never part.
fn fewest_marked(depth: u32) -> u32 {
    depth.saturating_sub(1).clamp(FEWEST_TURNS, FEWEST_MARKED)
}

/// How many states a short search comes to at most, where the key of a state has so many words. The longer a key, the longer it takes to
/// step a state: so many take some two milliseconds, and more with a large network.
fn most_unaided(words: usize) -> u64 {
    match words {
        0 | 1 => 1_024,
        2 => 256,
        _ => 128,
    }
}

/// The marks of what workers are searching, if there are others. No answer rests on them, nor on how many states were counted.
#[derive(Drop)]
pub struct Sight {
    marks: Option<Arc<Marks>>,
    worker: u8,
    // States with fewer turns left are not marked.
    fewest: u32,
    // How many more states a search may come to that ends once it is long.
    states: AtomicU64,
}

impl Sight {
    /// Of a search beside which there is no other.
    pub fn alone() -> Sight {
        Sight {
            marks: None,
            worker: 0,
            fewest: FEWEST_MARKED,
            states: AtomicU64::new(0),
        }
    }

    /// Begins a search that is long once it has come to as many states as are too many for one without help, where their keys have so
    /// many words.
    pub fn restart(&self, words: usize) {
        self.states.store(most_unaided(words), Ordering::Relaxed);
    }

    /// Of the worker of this number, from 0 to 254, in a search of so many turns.
    pub fn among(marks: &Arc<Marks>, worker: u8, depth: u32) -> Result<Sight, AllocError> {
        Ok(Sight {
            marks: Some(Arc::try_clone(marks)?),
            worker,
            fewest: fewest_marked(depth),
            states: AtomicU64::new(0),
        })
    }

    /// Whether there are others.
    pub fn has_others(&self) -> bool {
        self.marks.is_some()
    }

    /// Whether the others have what this search is to help with, or need it no more.
    pub fn is_over(&self) -> bool {
        match &self.marks {
            Some(marks) => marks.is_over(),
            None => false,
        }
    }

    /// Counts a state, and tells whether it is one too many for a short search.
    pub fn is_long(&self) -> bool {
        let left = self.states.load(Ordering::Relaxed);
        self.states.store(left.saturating_sub(1), Ordering::Relaxed);
        left == 0
    }

    /// Marks a state, by its hash, while it is searched.
    pub fn mark(&self, hash: u64) {
        if let Some(marks) = &self.marks {
            marks.mark(hash, self.worker);
        }
    }

    /// Takes the mark away, if it is still there.
    pub fn unmark(&self, hash: u64) {
        if let Some(marks) = &self.marks {
            marks.unmark(hash, self.worker);
        }
    }

    /// Whether another is searching a state of this hash.
    pub fn is_marked_by_another(&self, hash: u64) -> bool {
        match &self.marks {
            Some(marks) => marks.is_marked_by_another(hash, self.worker),
            None => false,
        }
    }

    /// Whether states with so many turns left are marked by others.
    pub fn sees(&self, turns: u32) -> bool {
        turns >= self.fewest && self.has_others()
    }

    /// Whether states with so many turns left are put off that others have in hand. The first worker puts off none, so its search is that of
    /// one worker who finds more in the tables.
    pub fn puts_off(&self, turns: u32) -> bool {
        self.worker != 0 && self.sees(turns)
    }

    /// Whether another is searching the state at a place, by the hashes of states.
    pub fn is_in_hand(&self, hashes: &[u64; LONGEST_RUN], place: usize) -> bool {
        place < LONGEST_RUN && self.is_marked_by_another(hashes[place])
    }
}

/// Marks the state that was looked up last, if there are others to see it. The answer is its hash.
pub fn mark_state<G: Game>(memory: &Memory<G>, sight: &Sight, asked: Question) -> Option<u64> {
    if !sight.sees(asked.depth) {
        return None;
    }
    let hash = hash_of(&memory.key);
    sight.mark(hash);
    Some(hash)
}

/// Takes a mark away.
pub fn unmark_state(sight: &Sight, mark: Option<u64>) {
    if let Some(hash) = mark {
        sight.unmark(hash);
    }
}
