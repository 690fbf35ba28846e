//! Words with a bit for each base proposition.
ghost use Rattle.std.specs.Prelude.{◌≡◌, ◌≢◌, ◌<◌, ◌/◌, ℕ, length, if◌then◌else◌};
ghost use Rattle.std.specs.Int.{bit_at};
ghost use Rattle.game.specs.Keys.{words_for as words_for_bits, has_bit};

/// How many words have a bit for each of so many propositions.
pub fn words_for(propositions: usize) -> usize
    ensures { result ≡ words_for_bits propositions }
{
    propositions.div_ceil(64)
}

/// A word with another bit at a place.
fn with_bit(word: u64, place: usize, on: bool) -> u64
    requires { place < 64 }
    ensures here { bit_at result place ≡ (if on then 1 else 0) }
    ensures others { (k : ℕ) → k < 64 → k ≢ place → bit_at result k ≡ bit_at word k }
{
    if on {
        word | (1 << place)
    } else {
        word & !(1 << place)
    }
}

/// Writes the bit of a proposition.
pub fn put_bit(key: &mut [u64], proposition: usize, on: bool)
    requires { proposition / 64 < length key.old }
    ensures here { has_bit key.new proposition ≡ on }
    ensures others { (p : ℕ) → p ≢ proposition → has_bit key.new p ≡ has_bit key.old p }
{
    let word = proposition / 64;
    key[word] = with_bit(key[word], proposition % 64, on);
}
