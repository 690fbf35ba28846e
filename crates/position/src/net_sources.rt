//! Words of lanes, each of which is given one of many states.
//!
//! A word for each state marks the lanes that begin at it, and each word of a pass is gathered from the states between the
//! first and the last that are named: a step for each state, and not for each lane.
ghost use Rattle.std.specs.Prelude.{◌≡◌, ◌≢◌, ◌<◌, ◌≤◌, ◌+◌, ℕ, All, length, max, min, sum, slice_index};
ghost use Rattle.std.specs.Int.{bit_at};
ghost use Rattle.propnet.specs.Given.{AreGiven};
ghost use Rattle.propnet.specs.Values.{lane};
ghost use Rattle.position.specs.NetSources.{AreMarked, AreSources};

use crate::net_words::{all_alike, lane_bit};
use game::Joint;
use propnet::Net;

/// Which lanes are given each of many states.
#[derive(Drop)]
pub struct Sources {
    /// Bit l of word k: whether lane l is given state k.
    pub lanes: [u64; 64],
    /// No lane is given a state before this one.
    pub first: usize,
    /// Nor one from this on.
    pub end: usize,
}

/// Sets the bit of a lane in the word at a place.
fn mark_lane(words: &mut [u64], place: usize, l: usize)
    requires place { place < length words.old }
    requires lane { l < 64 }
    ensures here { lane words.new l place ≡ 1 }
    ensures word { (k : ℕ) → k ≢ place → lane words.new l k ≡ lane words.old l k }
    ensures others { (j k : ℕ) → j ≢ l → lane words.new j k ≡ lane words.old j k }
    ensures size { length words.new ≡ length words.old }
{
    words[place] |= 1 << l;
}

/// Marks for each place the lanes that have it.
fn mark_lanes(places: &[usize], words: &mut [u64])
    requires few { length places.now ≤ 64 }
    requires places { All (λ k. k < length words.old) places.now }
    requires fresh { (l k : ℕ) → lane words.old l k ≡ 0 }
    ensures { AreMarked places.now words.new (length places.now) }
{
    for l in 0..places.len() {
        mark_lane(words, places[l], l);
    }
}

/// The least of some places, or `end` where all are no less.
fn first_place(places: &[usize], end: usize) -> usize
    ensures { (l : ℕ) → l < length places.now → result ≤ slice_index places.now l }
{
    let mut first = end;
    for l in 0..places.len() {
        first = first.min(places[l]);
    }
    first
}

/// A place behind all of some.
fn end_place(places: &[usize]) -> usize
    requires { All (λ k. k < 64) places.now }
    ensures few { result ≤ 64 }
    ensures above { (l : ℕ) → l < length places.now → slice_index places.now l < result }
{
    let mut end = 0;
    for l in 0..places.len() {
        end = end.max(places[l] + 1);
    }
    end
}

/// Which lanes are given the state at each place.
pub(crate) fn list_sources(places: &[usize]) -> Sources
    requires few { length places.now ≤ 64 }
    requires places { All (λ k. k < 64) places.now }
    ensures { AreSources places.now result }
{
    let mut lanes = [0; 64];
    mark_lanes(places, &mut lanes);
    let end = end_place(places);
    Sources {
        lanes,
        first: first_place(places, end),
        end,
    }
}

/// Lanes, and those of a state if a bit of it is 1.
fn with_state(lanes: u64, bit: u64, own: u64) -> u64
    requires { bit < 2 }
    ensures { (l : ℕ) → l < 64 → bit_at result l ≡ max (bit_at lanes l) (min bit (bit_at own l)) }
{
    lanes | (all_alike(bit) & own)
}

/// The word in which each lane has the bit of the state that it is given.
fn word_from(word: u64, places: &[usize], sources: &Sources) -> u64
    requires few { length places.now ≤ 64 }
    requires sources { AreSources places.now sources.now }
    ensures { (l : ℕ) → l < length places.now → bit_at result l ≡ bit_at word (slice_index places.now l) }
{
    let mut lanes = 0;
    for k in sources.first..sources.end {
        lanes = with_state(lanes, lane_bit(word, k), sources.lanes[k]);
    }
    lanes
}

/// Writes words in which each lane is given the state at its place, in front of those of the inputs, and these.
pub(crate) fn write_from(
    net: &Net,
    states: &[u64],
    places: &[usize],
    joints: &[Joint],
    words: &mut [u64],
)
    requires from { length states.now ≡ net.now.base }
    requires few { length places.now ≤ 64 }
    requires places { All (λ k. k < 64) places.now }
    requires joints { length joints.now ≤ 64 }
    requires room { length words.old ≡ net.now.base + sum net.now.inputs.items }
    ensures base { (l p : ℕ) → l < length places.now → p < net.now.base → lane words.new l p ≡ lane states.now (slice_index places.now l) p }
    ensures given { AreGiven net.now.base net.now.inputs.items joints.now words.new }
{
    let sources = list_sources(places);
    for p in 0..states.len() {
        words[p] = word_from(states[p], places, &sources);
    }
    net.write_joints(joints, words);
}
