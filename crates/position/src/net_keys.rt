//! Keys of states: the packed base propositions.
ghost use Rattle.std.specs.Prelude.{◌≡◌, ◌≢◌, ◌<◌, ◌≤◌, ℕ, length};
ghost use Rattle.std.specs.Int.{bit_at};
ghost use Rattle.propnet.specs.Values.{lane};
ghost use Rattle.game.specs.Keys.{words_for, state_of_bits};
ghost use Rattle.position.specs.NetState.{lane_state};

use crate::net_words::lane_bit;

/// A word with a bit at a place that has none.
fn with_bit(word: u64, place: usize, bit: u64) -> u64
    requires place { place < 64 }
    requires bit { bit < 2 }
    requires none { bit_at word place ≡ 0 }
    ensures here { bit_at result place ≡ bit }
    ensures others { (k : ℕ) → k ≢ place → bit_at result k ≡ bit_at word k }
{
    word | (bit << place)
}

/// The bits that up to 64 words have in a lane.
fn pack_lane(states: &[u64], k: usize) -> u64
    requires lane { k < 64 }
    requires few { length states.now ≤ 64 }
    ensures { (p : ℕ) → p < length states.now → bit_at result p ≡ lane states.now k p }
{
    let mut word = 0;
    for p in 0..states.len() {
        word = with_bit(word, p, lane_bit(states[p], k));
    }
    word
}

/// Writes the key of the state in a lane. Bits that are no proposition's are 0.
pub(crate) fn write_lane_key(states: &[u64], k: usize, key: &mut [u64])
    requires lane { k < 64 }
    requires room { length key.old ≡ words_for (length states.now) }
    ensures { state_of_bits (length states.now) key.new ≡ lane_state states.now (length states.now) k }
{
    for w in 0..key.len() {
        let from = 64 * w;
        let end = states.len().min(from + 64);
        key[w] = pack_lane(&states[from..end], k);
    }
}
