//! And gates over literals, and the pass over them.
ghost use Rattle.std.specs.Prelude.{ℕ, Bool, not, ◌≡◌, ◌+◌, ◌*◌, ◌<◌, ◌≤◌, length, drop, All, slice_index};
ghost use Rattle.propnet_tape.specs.Values.{pass, is_bit_on, is_lane_on, slots, start};

/// Slot 2k has the value of node k of a tape, and slot 2k + 1 its negation. Node 0 is false.
pub type Literal = u32;

/// The and of two literals.
#[derive(Clone, Copy)]
#[repr(C)]
pub struct Gate {
    pub a: u32,
    pub b: u32,
}

/// The other bits.
#[inline(always)]
fn complement(word: u64) -> u64
    ensures { (k : ℕ) → k < 64 → is_bit_on result k ≡ not (is_bit_on word k) }
{
    !word
}

/// Writes the value of gate i and its negation, in 64 lanes at once.
#[inline(always)]
fn run_gate(gates: &[Gate], i: usize, first: usize, room: &mut [u64])
    requires gate { i < length gates.now }
    requires room { slots first gates.now ≡ length room.old }
    requires operands { All (λ g. (g.a < length room.old) × (g.b < length room.old)) gates.now }
    ensures values { (k l next : ℕ) → k < 64 → next ≡ i + 1
        → pass (first + 2 * next) (drop next gates.now) (is_lane_on room.new k) l ≡ pass (first + 2 * i) (drop i gates.now) (is_lane_on room.old k) l }
{
    let value = room[gates[i].a as usize] & room[gates[i].b as usize];
    room[first + 2 * i] = value;
    room[first + 2 * i + 1] = complement(value);
}

/// Writes the value of each gate and its negation, in 64 lanes at once. Four gates stand in each round of the first loop.
pub fn run_gates(gates: &[Gate], first: usize, room: &mut [u64])
    requires room { slots first gates.now ≡ length room.old }
    requires operands { All (λ g. (g.a < length room.old) × (g.b < length room.old)) gates.now }
    ensures values { (k l : ℕ) → k < 64 → is_lane_on room.new k l ≡ pass first gates.now (is_lane_on room.old k) l }
{
    let mut i = 0;
    'fours: while gates.len() - i >= 4 {
        run_gate(gates, i, first, room);
        run_gate(gates, i + 1, first, room);
        run_gate(gates, i + 2, first, room);
        run_gate(gates, i + 3, first, room);
        i += 4;
    }
    'rest: while i < gates.len() {
        run_gate(gates, i, first, room);
        i += 1;
    }
}

/// A word by its number, or 0.
#[inline(always)]
fn word_at(words: &[u64], n: usize) -> u64
    ensures { result ≡ slice_index words.now n }
{
    if n < words.len() {
        return words[n];
    }
    0
}

/// Writes the slots of the constants and of the words that are given, all of which are there.
fn fill_within(sources: &[u32], words: &[u64], room: &mut [u64])
    requires within { All (λ n. n < length words.now) sources.now }
    requires room { 2 + 2 * length sources.now ≤ length room.old }
    ensures values { (k l : ℕ) → k < 64 → l < 2 + 2 * length sources.now
        → is_lane_on room.new k l ≡ start (λ i. is_lane_on words.now k (slice_index sources.now i)) l }
{
    room[0] = 0;
    room[1] = complement(0);
    for i in 0..sources.len() {
        let word = words[sources[i] as usize];
        room[2 + 2 * i] = word;
        room[2 + 2 * i + 1] = complement(word);
    }
}

/// Writes the slots of the constants and of the words that are given.
fn fill_some(sources: &[u32], words: &[u64], room: &mut [u64])
    requires { 2 + 2 * length sources.now ≤ length room.old }
    ensures values { (k l : ℕ) → k < 64 → l < 2 + 2 * length sources.now
        → is_lane_on room.new k l ≡ start (λ i. is_lane_on words.now k (slice_index sources.now i)) l }
{
    room[0] = 0;
    room[1] = complement(0);
    for i in 0..sources.len() {
        let word = word_at(words, sources[i] as usize);
        room[2 + 2 * i] = word;
        room[2 + 2 * i + 1] = complement(word);
    }
}

/// Writes the slots of the constants and of the words that are given, whose numbers are below a bound.
pub fn fill_sources(sources: &[u32], most: usize, words: &[u64], room: &mut [u64])
    requires below { All (λ n. n < most) sources.now }
    requires room { 2 + 2 * length sources.now ≤ length room.old }
    ensures values { (k l : ℕ) → k < 64 → l < 2 + 2 * length sources.now
        → is_lane_on room.new k l ≡ start (λ i. is_lane_on words.now k (slice_index sources.now i)) l }
{
    if most <= words.len() {
        fill_within(sources, words, room);
        return;
    }
    fill_some(sources, words, room);
}
