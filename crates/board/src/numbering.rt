//! Which move and which reply the number of a task stands for.
//!
//! The move is found by halves over the numbers of the moves' first tasks.
ghost use Rattle.std.specs.Prelude.{◌≡◌, ◌<◌, ◌≤◌, IfOk, IfSome, IfNone};
ghost use Rattle.board.specs.Values.{most_tasks, task_count, move_of, reply_of, starts_from};
ghost use Rattle.board.specs.Seats.{setup_on};

use super::parts::Board;
use super::values::Values;
use std::alloc::{AllocError, Global};

/// The number of each move's first task, and after them the number of tasks.
pub(crate) fn starts_of(alloc: Global, replies: &[u32]) -> Result<Vec<u32, Global>, AllocError>
    requires { task_count replies.now ≤ most_tasks }
    ensures { IfOk result (λ starts. starts.items ≡ starts_from 0 replies.now) }
{
    let mut starts = Vec::new(alloc);
    let mut total = 0;
    starts.push(total)?;
    for &count in replies {
        total += count;
        starts.push(total)?;
    }
    Ok(starts)
}

impl<V: Values> Board<V> {
    /// The move of a task and its reply. It answers `None` past the last task.
    pub(crate) fn place_of(&self, number: u64) -> Option<(u32, u32)>
        ensures own { IfSome result (λ place. place.0 ≡ move_of (setup_on self.now).replies number) }
        ensures reply { IfSome result (λ place. place.1 ≡ reply_of (setup_on self.now).replies number) }
        ensures some { IfSome result (λ place. number < task_count (setup_on self.now).replies) }
        ensures none { IfNone result (task_count (setup_on self.now).replies ≤ number) }
    {
        let starts = self.starts.as_slice();
        let mut low = 0;
        let mut high = self.terms.replies.len();
        if starts[high] as u64 <= number {
            return None;
        }
        let number = number as u32;
        // The task is one of the moves from `low` up to `high`.
        'halves: while high - low > 1 {
            let middle = low + (high - low) / 2;
            if starts[middle] <= number {
                low = middle;
            } else {
                high = middle;
            }
        }
        Some((low as u32, number - starts[low]))
    }
}
