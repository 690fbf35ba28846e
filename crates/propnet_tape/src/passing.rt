//! The pass over a tape, and what it tells.
ghost use Rattle.std.specs.Prelude.{ℕ, List, ◌≡◌, ◌<◌, length, slice_index};
ghost use Rattle.propnet.specs.declared.net.Net.{Net};
ghost use Rattle.propnet_tape.specs.Tapes.{slots_in, kept_in, IsTapeOf, IsTurnTapeOf, HasRun, IsWordOf, IsTurnWordOf};

use crate::gates::{fill_sources, run_gates};
use crate::tape::Tape;

impl Tape {
    /// How many words a pass needs.
    pub fn words(&self) -> usize
        ensures { result ≡ slots_in self.now }
    {
        self.first as usize + 2 * self.gates.len()
    }

    /// Writes the values of all gates in 64 lanes at once. The words are those of the base propositions and then of the inputs,
    /// role by role; those that are not there are 0. What was in the room is not read.
    pub fn run(&self, words: &[u64], room: &mut [u64])
        requires { length room.old ≡ slots_in self.now }
        ensures { HasRun self.now words.now room.new }
    {
        fill_sources(&self.sources, self.most, words, room);
        run_gates(&self.gates, self.first as usize, room);
    }

    /// The word of a kept node, behind a pass: each bit is the value of the node in the state and for the joint move that this lane
    /// of the given words tells.
    pub fn word(&self, room: &[u64], k: usize) -> u64
        requires room { length room.now ≡ slots_in self.now }
        requires kept { k < kept_in self.now }
        ensures tells { (net : Net) (kept words : List ℕ) → IsTapeOf net kept self.now → HasRun self.now words room.now
            → IsWordOf net words (slice_index kept k) result }
        ensures turns { (net : Net) (kept words : List ℕ) → IsTurnTapeOf net kept self.now → HasRun self.now words room.now
            → IsTurnWordOf net words (slice_index kept k) result }
    {
        room[self.kept[k] as usize]
    }
}
