//! Readers of what a probe wrote of up to 64 states. What holds is told by any test that agrees with the words of
//! kept nodes, as the tape speaks of them.
ghost use Rattle.std.specs.Prelude.{◌≡◌, ◌<◌, ◌≤◌, ◌+◌, ◌==◌, ◌||◌, ◌++◌, ℕ, Bool, All, [], ◌∷◌, length, max, take, if◌then◌else◌};
ghost use Rattle.std.specs.Int.{bit_at};
ghost use Rattle.std.specs.List.{list_any};
ghost use Rattle.propnet_tape.specs.Tapes.{slots_in, kept_in};
ghost use Rattle.position.specs.NetLanes.{Tells, moves_on, goal_on};

use crate::net_words::lane_bit;
use propnet_tape::Tape;

/// Whether what is asked at a place holds in a state.
fn holds_at(tape: &Tape, room: &[u64], k: usize, place: u32) -> bool
    requires room { length room.now ≡ slots_in tape.now }
    requires lane { k < 64 }
    requires place { place < kept_in tape.now }
    ensures { (on : ℕ → Bool) → Tells tape.now room.now k on → result ≡ on place }
{
    lane_bit(tape.word(room, place as usize), k) == 1
}

/// The lanes that are in one word or the other.
fn either(word: u64, other: u64) -> u64
    ensures { (k : ℕ) → (bit_at result k == 1) ≡ ((bit_at word k == 1) || (bit_at other k == 1)) }
{
    word | other
}

/// The states in which something holds of what is asked at some places.
pub(crate) fn holding_at(tape: &Tape, room: &[u64], places: &[u32]) -> u64
    requires room { length room.now ≡ slots_in tape.now }
    requires places { All (λ p. p < kept_in tape.now) places.now }
    ensures { (k : ℕ) (on : ℕ → Bool) → Tells tape.now room.now k on → (bit_at result k == 1) ≡ list_any on places.now }
{
    let mut any = 0;
    for i in 0..places.len() {
        any = either(any, tape.word(room, places[i] as usize));
    }
    any
}

/// Writes a number behind `count` others, and answers how many there are then: one more if it is marked.
fn put_number(mark: bool, number: u32, numbers: &mut [u32], count: usize) -> usize
    requires { count < length numbers.old }
    ensures listed { take result numbers.new ≡ take count numbers.old ++ (if mark then number ∷ [] else []) }
    ensures count { result ≤ count + 1 }
    ensures size { length numbers.new ≡ length numbers.old }
{
    numbers[count] = number;
    count + usize::from(mark)
}

/// Writes the moves whose places hold in a state, in their order, and answers how many they are.
pub(crate) fn read_moves(
    tape: &Tape,
    room: &[u64],
    k: usize,
    legals: &[(u32, u32)],
    numbers: &mut [u32],
) -> usize
    requires room { length room.now ≡ slots_in tape.now }
    requires lane { k < 64 }
    requires places { All (λ l. l.0 < kept_in tape.now) legals.now }
    requires many { length legals.now ≤ length numbers.old }
    ensures listed { (on : ℕ → Bool) → Tells tape.now room.now k on → take result numbers.new ≡ moves_on on legals.now }
    ensures count { result ≤ length numbers.new }
{
    let mut count = 0;
    for i in 0..legals.len() {
        let (place, number) = legals[i];
        let mark = holds_at(tape, room, k, place);
        count = put_number(mark, number, numbers, count);
    }
    count
}

/// The greater of a value, if it counts, and another.
fn raised(counts: bool, value: u8, best: u8) -> u8
    ensures { result ≡ max (if counts then value else 0) best }
{
    if counts {
        return value.max(best);
    }
    best
}

/// The greatest value of those whose places hold in a state, or 0.
pub(crate) fn read_goal(tape: &Tape, room: &[u64], k: usize, goals: &[(u32, u8)]) -> u8
    requires room { length room.now ≡ slots_in tape.now }
    requires lane { k < 64 }
    requires places { All (λ l. l.0 < kept_in tape.now) goals.now }
    ensures { (on : ℕ → Bool) → Tells tape.now room.now k on → result ≡ goal_on on goals.now }
{
    let mut best = 0;
    for i in 0..goals.len() {
        let (place, value) = goals[i];
        best = raised(holds_at(tape, room, k, place), value, best);
    }
    best
}
