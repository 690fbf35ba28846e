//! What is kept of a state.
ghost use Rattle.std.specs.Prelude.{◌≡◌, ◌≢◌, ◌<◌, ◌≤◌, ◌+◌, ◌*◌, ◌/◌, ◌%◌, ◌^◌, ◌⊎◌, ℕ, true};
ghost use Rattle.search_table.specs.Worths.{AreBoundsOf, AreWorths};
ghost use Rattle.search_table.specs.Says.{Says, IsSmall, IsFound, entry_in};

use crate::bounds::Bounds;

/// The depth that stands for every depth.
pub(crate) const EVERY_DEPTH: u8 = 127;

/// A state is worth at least `lo` at one depth, and at most `hi` at another or at every depth. Each number has seven bits.
#[derive(Debug, Clone, Copy)]
pub(crate) struct Entry {
    pub(crate) lo: u8,
    pub(crate) hi: u8,
    pub(crate) lo_depth: u8,
    pub(crate) hi_depth: u8,
    /// The depth of the last search of the state. The entry of least depth makes way for another.
    pub(crate) depth: u8,
}

/// What a search found: bounds of a state's worth at a depth.
#[derive(Debug, Clone, Copy)]
pub(crate) struct Found {
    pub(crate) depth: u8,
    pub(crate) bounds: Bounds,
}

/// What is known of every state.
pub(crate) fn nothing_known() -> Entry
    ensures says { (worth : ℕ → ℕ) → ((d : ℕ) → worth d ≤ 100) → Says result worth }
    ensures small { IsSmall result }
{
    Entry {
        lo: 0,
        hi: 100,
        lo_depth: 0,
        hi_depth: EVERY_DEPTH,
        depth: 0,
    }
}

/// The entry that a word keeps.
pub(crate) fn read_entry(word: u64) -> Entry
    ensures says { result ≡ entry_in word }
    ensures small { IsSmall result }
{
    let hi = word / 128;
    let lo_depth = hi / 128;
    let hi_depth = lo_depth / 128;
    let depth = hi_depth / 128;
    Entry {
        lo: (word % 128) as u8,
        hi: (hi % 128) as u8,
        lo_depth: (lo_depth % 128) as u8,
        hi_depth: (hi_depth % 128) as u8,
        depth: (depth % 128) as u8,
    }
}

/// The word of seven bits and of what follows them.
fn with_digit(digit: u8, rest: u64) -> u64
    requires digit { digit < 128 }
    requires rest { rest < 2 ^ 56 }
    ensures digit { result % 128 ≡ digit }
    ensures rest { result / 128 ≡ rest }
    ensures within { result < 128 * (rest + 1) }
{
    u64::from(digit) + 128 * rest
}

/// The word that keeps an entry. It is not 0.
pub(crate) fn entry_word(entry: Entry) -> u64
    requires { IsSmall entry }
    ensures kept { entry_in result ≡ entry }
    ensures some { result ≢ 0 }
{
    let depth = with_digit(entry.depth, 1);
    let hi_depth = with_digit(entry.hi_depth, depth);
    let lo_depth = with_digit(entry.lo_depth, hi_depth);
    let hi = with_digit(entry.hi, lo_depth);
    with_digit(entry.lo, hi)
}

/// What the worth at a depth is at least.
fn lower_at(entry: Entry, rising: bool, depth: u32) -> u8
    ensures { (worth : ℕ → ℕ) → AreWorths rising worth → Says entry worth → result ≤ worth depth }
{
    let from = u32::from(entry.lo_depth);
    if depth == from {
        return entry.lo;
    }
    if rising && from < depth {
        return entry.lo;
    }
    0
}

/// What the worth at a depth is at most.
fn upper_at(entry: Entry, rising: bool, depth: u32) -> u8
    ensures at_most { (worth : ℕ → ℕ) → AreWorths rising worth → Says entry worth → worth depth ≤ result }
    ensures of_every { entry.hi_depth ≡ 127 → result ≡ entry.hi }
{
    if entry.hi_depth == EVERY_DEPTH {
        return entry.hi;
    }
    let to = u32::from(entry.hi_depth);
    if depth == to {
        return entry.hi;
    }
    if rising && depth < to {
        return entry.hi;
    }
    100
}

/// What an entry says of the worth at a depth. Where worths rise with the depth, a lower bound holds at each greater depth, and an
/// upper one at each smaller depth. An upper bound of every depth lasts.
pub(crate) fn bounds_at(entry: Entry, rising: bool, depth: u32) -> Bounds
    ensures { (worth : ℕ → ℕ) → AreWorths rising worth → Says entry worth → AreBoundsOf worth depth result }
{
    Bounds {
        lo: lower_at(entry, rising, depth),
        hi: upper_at(entry, rising, depth),
        lasts: entry.hi_depth == EVERY_DEPTH,
    }
}

/// An entry with a lower bound that was found, if that is greater or of smaller depth.
fn with_lower(entry: Entry, found: Found) -> Entry
    requires small { IsSmall entry }
    requires depth { found.depth < 127 }
    ensures says { (worth : ℕ → ℕ) → ((d : ℕ) → worth d ≤ 100) → IsFound found worth → Says entry worth → Says result worth }
    ensures small { IsSmall result }
{
    let lo = found.bounds.lo.min(100);
    if lo > entry.lo || found.depth < entry.lo_depth {
        return Entry {
            lo,
            hi: entry.hi,
            lo_depth: found.depth,
            hi_depth: entry.hi_depth,
            depth: entry.depth,
        };
    }
    entry
}

/// The depth to which an upper bound holds: every one where it lasts and worths rise with the depth, so that it holds at smaller depths too.
fn depth_of_upper(hi: u8, rising: bool, found: Found) -> u8
    requires { found.depth < 127 }
    ensures found { result ≢ 127 → result ≡ found.depth }
    ensures lasts { result ≡ 127 → (100 ≤ hi) ⊎ ((rising ≡ true) × (found.bounds.lasts ≡ true)) }
    ensures small { result < 128 }
{
    if hi >= 100 || (rising && found.bounds.lasts) {
        EVERY_DEPTH
    } else {
        found.depth
    }
}

/// An entry with an upper bound that was found, if that is smaller or of greater depth.
fn with_upper(entry: Entry, rising: bool, found: Found) -> Entry
    requires small { IsSmall entry }
    requires depth { found.depth < 127 }
    ensures says { (worth : ℕ → ℕ) → AreWorths rising worth → IsFound found worth → Says entry worth → Says result worth }
    ensures small { IsSmall result }
{
    let hi = found.bounds.hi.min(100);
    let hi_depth = depth_of_upper(hi, rising, found);
    if hi < entry.hi
        || entry.hi_depth < found.depth
        || (hi == entry.hi && entry.hi_depth < hi_depth)
    {
        return Entry {
            lo: entry.lo,
            hi,
            lo_depth: entry.lo_depth,
            hi_depth,
            depth: entry.depth,
        };
    }
    entry
}

/// An entry with what was found. Where worths do not rise nothing is kept of another depth.
pub(crate) fn merged(entry: Entry, rising: bool, found: Found) -> Entry
    requires small { IsSmall entry }
    requires depth { found.depth < 127 }
    ensures says { (worth : ℕ → ℕ) → AreWorths rising worth → IsFound found worth → Says entry worth → Says result worth }
    ensures small { IsSmall result }
{
    let kept = if rising || entry.depth == found.depth {
        entry
    } else {
        nothing_known()
    };
    let known = with_upper(with_lower(kept, found), rising, found);
    Entry {
        lo: known.lo,
        hi: known.hi,
        lo_depth: known.lo_depth,
        hi_depth: known.hi_depth,
        depth: found.depth,
    }
}
