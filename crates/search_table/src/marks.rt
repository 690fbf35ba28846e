//! What is being searched.
ghost use Rattle.std.specs.Prelude.{◌≡◌, ◌≤◌, IfOk};
ghost use Rattle.search_table.specs.Words.{mark_words};

use std::alloc::{AllocError, Global};
use std::sync::atomic::{AtomicU64, Ordering};

/// The bits of a mark that name a worker. The others are of the hash.
const WORKER_BITS: u64 = 0xff;

/// The states that workers are searching, and whether what they find is still wanted. A mark is lost where another state that is marked
/// has the same place.
#[derive(Drop)]
pub struct Marks {
    // A place is 0 where nothing is marked.
    pub(crate) places: Vec<AtomicU64>,
    // Not 0 once nothing is wanted any more.
    over: AtomicU64,
}

// The mark of a state with this hash, which this worker is searching.
fn mark_of(hash: u64, worker: u8) -> u64 {
    let name = u64::from(worker) % WORKER_BITS + 1;
    hash & !WORKER_BITS | name
}

impl Marks {
    /// Marks for as many states at once, none of which is being searched. This is their only call that takes memory.
    pub fn new(alloc: Global, places: u32) -> Result<Marks, AllocError>
        ensures { IfOk result (λ marks. mark_words marks ≡ places) }
    {
        let mut words = Vec::with_capacity(alloc, places as usize)?;
        for _ in 0..places {
            words.push(AtomicU64::new(0))?;
        }
        Ok(Marks {
            places: words,
            over: AtomicU64::new(0),
        })
    }

    /// Takes all marks away, and says that what will be searched for is wanted. Searches that ended early have left marks.
    pub fn begin(&self) {
        for place in &self.places {
            place.store(0, Ordering::Relaxed);
        }
        self.over.store(0, Ordering::Relaxed);
    }

    /// Says that nothing that is searched for is wanted any more.
    pub fn end(&self) {
        self.over.store(1, Ordering::Relaxed);
    }

    /// Whether that was said.
    pub fn is_over(&self) -> bool {
        self.over.load(Ordering::Relaxed) != 0
    }

    // The place of a state, if there are any places.
    fn place(&self, hash: u64) -> Option<&AtomicU64> {
        let last = self.places.len().checked_sub(1)?;
        self.places.get((hash >> 20) as usize & last)
    }

    /// Marks a state by its hash as being searched by this worker.
    pub fn mark(&self, hash: u64, worker: u8) {
        if let Some(place) = self.place(hash) {
            place.store(mark_of(hash, worker), Ordering::Relaxed);
        }
    }

    /// Takes the worker's own mark of a state away, if it is still there.
    pub fn unmark(&self, hash: u64, worker: u8) {
        if let Some(place) = self.place(hash) {
            if place.load(Ordering::Relaxed) == mark_of(hash, worker) {
                place.store(0, Ordering::Relaxed);
            }
        }
    }

    /// Whether another worker is searching a state of this hash.
    pub fn is_marked_by_another(&self, hash: u64, worker: u8) -> bool {
        let Some(place) = self.place(hash) else {
            return false;
        };
        let mark = place.load(Ordering::Relaxed);
        let own = mark_of(hash, worker);
        mark & WORKER_BITS != 0 && mark != own && mark & !WORKER_BITS == own & !WORKER_BITS
    }
}
