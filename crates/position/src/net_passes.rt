//! Passes over tapes.
ghost use Rattle.std.specs.Prelude.{◌≡◌, ◌<◌, ◌≤◌, ◌+◌, ℕ, List, length, sum, slice_index, vec_capacity};
ghost use Rattle.propnet.specs.declared.net.Net.{Net};
ghost use Rattle.propnet.specs.Given.{AreGiven};
ghost use Rattle.propnet_tape.specs.Tapes.{slots_in, kept_in, IsTurnTapeOf, HasRun, IsTurnWordOf};

use game::Joint;
use propnet::Net;
use propnet_tape::Tape;

/// Writes words in front of those of the inputs, and these.
pub(crate) fn write_sources(net: &Net, from: &[u64], joints: &[Joint], words: &mut [u64])
    requires from { length from.now ≡ net.now.base }
    requires few { length joints.now ≤ 64 }
    requires room { length words.old ≡ net.now.base + sum net.now.inputs.items }
    ensures base { (p : ℕ) → p < net.now.base → slice_index words.new p ≡ slice_index from.now p }
    ensures given { AreGiven net.now.base net.now.inputs.items joints.now words.new }
{
    for p in 0..from.len() {
        words[p] = from[p];
    }
    net.write_joints(joints, words);
}

/// Makes so many words of a room that has place for them. A room that has not been used takes no pages of memory.
fn fill(room: &mut Vec<u64>, words: usize)
    requires { words ≤ vec_capacity room.old }
    ensures size { length room.new.items ≡ words }
    ensures capacity { vec_capacity room.new ≡ vec_capacity room.old }
{
    room.truncate(words);
    while room.len() < words {
        room.push_reserved(0);
    }
}

/// Makes a pass.
pub(crate) fn run(tape: &Tape, words: &[u64], room: &mut Vec<u64>)
    requires { slots_in tape.now ≤ vec_capacity room.old }
    ensures run { HasRun tape.now words.now room.new.items }
    ensures capacity { vec_capacity room.new ≡ vec_capacity room.old }
{
    fill(room, tape.words());
    tape.run(words, room);
}

/// Writes the words of the kept nodes, behind a pass.
fn gather(tape: &Tape, room: &[u64], out: &mut [u64])
    requires room { length room.now ≡ slots_in tape.now }
    requires kept { length out.old ≡ kept_in tape.now }
    ensures { (net : Net) (kept words : List ℕ) (k : ℕ) → IsTurnTapeOf net kept tape.now → HasRun tape.now words room.now → k < length out.old
        → IsTurnWordOf net words (slice_index kept k) (slice_index out.new k) }
{
    for k in 0..out.len() {
        out[k] = tape.word(room, k);
    }
}

/// Makes a pass, and writes the words of the kept nodes.
pub(crate) fn run_kept(tape: &Tape, words: &[u64], room: &mut Vec<u64>, out: &mut [u64])
    requires room { slots_in tape.now ≤ vec_capacity room.old }
    requires kept { length out.old ≡ kept_in tape.now }
    ensures told { (net : Net) (kept : List ℕ) (k : ℕ) → IsTurnTapeOf net kept tape.now → k < length out.old
        → IsTurnWordOf net words.now (slice_index kept k) (slice_index out.new k) }
    ensures capacity { vec_capacity room.new ≡ vec_capacity room.old }
{
    run(tape, words, room);
    gather(tape, room, out);
}
