//! Words with a bit for each lane.
ghost use Rattle.std.specs.Prelude.{◌≡◌, ◌<◌, ℕ};
ghost use Rattle.std.specs.Int.{bit_at};

/// A word with one bit in all lanes.
pub(crate) fn all_alike(bit: u64) -> u64
    requires { bit < 2 }
    ensures { (k : ℕ) → k < 64 → bit_at result k ≡ bit }
{
    if bit == 1 { u64::MAX } else { 0 }
}

/// Bit k of a word.
pub(crate) fn lane_bit(word: u64, k: usize) -> u64
    requires { k < 64 }
    ensures is_bit { result < 2 }
    ensures value { result ≡ bit_at word k }
{
    (word >> k) & 1
}
