//! How much each move has cut off.
ghost use Rattle.std.specs.Prelude.{◌≡◌, ◌+◌, ◌<◌, IfOk, length, sum};
ghost use Rattle.search_table.specs.Words.{history_words, history_roles};

use std::alloc::{AllocError, Global};
use std::sync::atomic::{AtomicU64, Ordering};

/// How much each move of each role has cut off, in the searches of all workers.
#[derive(Drop)]
pub struct SharedHistory {
    // Where the counts of each role begin.
    pub(crate) starts: Vec<usize>,
    pub(crate) counts: Vec<AtomicU64>,
}

impl SharedHistory {
    /// A history that remembers nothing yet, where role i has `moves[i]` moves. This is its only call that takes memory.
    pub fn new(alloc: Global, moves: &[usize]) -> Result<SharedHistory, AllocError>
        ensures roles { IfOk result (λ history. history_roles history ≡ length moves.now) }
        ensures words { IfOk result (λ history. history_words history ≡ sum moves.now) }
    {
        let mut starts = Vec::new(alloc);
        let mut counts = Vec::new(alloc);
        for &several in moves {
            starts.push(counts.len())?;
            for _ in 0..several {
                counts.push(AtomicU64::new(0))?;
            }
        }
        Ok(SharedHistory { starts, counts })
    }

    /// Forgets what was noted. What is noted meanwhile may be forgotten too.
    pub fn forget(&self) {
        for count in &self.counts {
            count.store(0, Ordering::Relaxed);
        }
    }

    // The count of a move. There is none of a move that no role has.
    fn count(&self, role: usize, number: u32) -> Option<&AtomicU64> {
        let start = *self.starts.get(role)?;
        self.counts.get(start.checked_add(number as usize)?)
    }

    /// How much the move of this number has cut off, by what is noted. It is 0 of a move that is not known.
    pub fn score(&self, role: usize, number: u32) -> u64 {
        match self.count(role, number) {
            Some(count) => count.load(Ordering::Relaxed),
            None => 0,
        }
    }

    /// Adds to what a move has cut off, up to the greatest count. What two workers note at once may count only once.
    pub fn note(&self, role: usize, number: u32, weight: u64) {
        if let Some(count) = self.count(role, number) {
            let so_far = count.load(Ordering::Relaxed);
            count.store(so_far.saturating_add(weight), Ordering::Relaxed);
        }
    }
}
