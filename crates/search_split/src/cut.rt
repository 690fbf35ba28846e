//! How many threads take the parts of a search.
ghost use Rattle.std.specs.Prelude.{◌≡◌, ℕ, ◌≤◌, List, ◌∷◌, true, false, nat_eq, IfSome, IfNone, length};
ghost use Rattle.std.specs.Option.{option_map};
ghost use Rattle.std.specs.Cmp.Lexicographic.{pointwise};
ghost use Rattle.std.specs.Fmt.{decimal};
ghost use Rattle.std.specs.List.{slice_split, position_or_len};
ghost use Rattle.search_split.specs.Cuts.{IsCut, product, most_workers, numbers_of, levels_of, levels_of-numbers_of, cut_text, is_x, pieces_of};
ghost use Rattle.std.proofs.Common.{ap};

use std::marker::Model;

/// How many workers a level has at most.
const MOST_WORKERS: u8 = 16;

/// How many threads the workers of all levels come to at most.
const MOST_THREADS: u32 = 64;

/// How many workers each level has, that of the root first.
#[derive(Clone, Copy, Debug, PartialEq, Eq)]
pub enum Levels {
    /// The tasks of the root are shared.
    One(u32),
    /// And those behind each of them.
    Two(u32, u32),
    /// And those behind each of these.
    Three(u32, u32, u32),
}

/// How many threads search a state, the state behind each of its tasks, and the state behind each task of that, as far as
/// named. Contracts see the list of these numbers.
#[derive(Clone, Copy, Debug, PartialEq, Eq)]
pub struct Cut {
    levels: Levels,
}

impl Model for Cut {
    ghost Value = { List ℕ };

    ghost view = { λ cut. numbers_of cut.levels };

    ghost invariant = { λ cut. IsCut (numbers_of cut.levels) };

    ghost inverse = { λ numbers. record { levels = levels_of numbers } };

    ghost inverse_ok = { λ cut h. ap (λ levels. record { levels = levels }) (levels_of-numbers_of cut.levels) };
}

impl Cut {
    /// A cut of these levels: one to three, each of 1 to 16 workers, with a product of at most 64.
    pub fn new(levels: &[u8]) -> Option<Cut>
        ensures some { IfSome result (λ cut. IsCut levels.now × (cut ≡ levels.now)) }
        ensures none { IfNone result (IsCut levels.now → ⊥) }
    {
        let mut threads: u32 = 1;
        for &workers in levels {
            if workers < 1 || workers > MOST_WORKERS {
                return None;
            }
            threads *= u32::from(workers);
            if threads > MOST_THREADS {
                return None;
            }
        }
        let levels = match *levels {
            [first] => Levels::One(u32::from(first)),
            [first, second] => Levels::Two(u32::from(first), u32::from(second)),
            [first, second, third] => {
                Levels::Three(u32::from(first), u32::from(second), u32::from(third))
            }
            _ => return None,
        };
        Some(Cut { levels })
    }

    /// Reads a cut: its levels in decimal, without leading zeros, joined by the letter x. Each other text is refused.
    pub fn parse(text: &[u8]) -> Option<Cut>
        ensures some { IfSome result (λ cut. IsCut cut × (cut_text cut ≡ text.now)) }
        ensures none { IfNone result ((levels : List ℕ) → IsCut levels → cut_text levels ≡ text.now → ⊥) }
    {
        let (first, rest) = split_level(text)?;
        let Some(rest) = rest else {
            return Cut::new(&[first]);
        };
        let (second, rest) = split_level(rest)?;
        let Some(rest) = rest else {
            return Cut::new(&[first, second]);
        };
        let (third, rest) = split_level(rest)?;
        if rest.is_some() {
            return None;
        }
        Cut::new(&[first, second, third])
    }

    /// The levels, each of 1 to 16 workers.
    pub fn levels(&self) -> Levels
        ensures is { numbers_of result ≡ self.now }
        ensures lawful { IsCut self.now }
    {
        self.levels
    }

    /// How many levels are named: 1 to 3.
    pub fn count(&self) -> usize
        ensures is { result ≡ length self.now }
        ensures few { result ≤ 3 }
    {
        match self.levels {
            Levels::One(_) => 1,
            Levels::Two(..) => 2,
            Levels::Three(..) => 3,
        }
    }

    /// The greatest number of workers at a time: 1 to 64.
    pub fn workers(&self) -> u32
        ensures { result ≡ product self.now }
    {
        match self.levels {
            Levels::One(first) => first,
            Levels::Two(first, second) => first * second,
            Levels::Three(first, second, third) => first * second * third,
        }
    }
}

fn is_text(text: &[u8], other: &[u8]) -> bool
    ensures { result ≡ pointwise nat_eq text.now other.now }
{
    text == other
}

// Whether a text is a number from 1 to 16 in decimal.
fn is_level(text: &[u8], level: u8) -> bool
    requires { (1 ≤ level) × (level ≤ most_workers) }
    ensures yes { result ≡ true → decimal level ≡ text.now }
    ensures no { result ≡ false → decimal level ≡ text.now → ⊥ }
{
    if level < 10 {
        is_text(text, [b'0' + level].as_slice())
    } else {
        is_text(text, [b'1', b'0' + level % 10].as_slice())
    }
}

// The number from 1 to 16 that a text is in decimal, without a leading zero.
fn level_of(text: &[u8]) -> Option<u8>
    ensures some { IfSome result (λ n. (1 ≤ n) × (n ≤ most_workers) × (decimal n ≡ text.now)) }
    ensures none { IfNone result ((n : ℕ) → 1 ≤ n → n ≤ most_workers → decimal n ≡ text.now → ⊥) }
{
    for level in 1..MOST_WORKERS + 1 {
        if is_level(text, level) {
            return Some(level);
        }
    }
    None
}

// The place of the first x, or the length of the text where there is none.
fn first_x(text: &[u8]) -> usize
    ensures { result ≡ position_or_len is_x text.now }
{
    for place in 0..text.len() {
        if text[place] == b'x' {
            return place;
        }
    }
    text.len()
}

// The first level of a text, and what is behind the x that follows it, if one does.
fn split_level(text: &[u8]) -> Option<(u8, Option<&[u8]>)>
    ensures level { IfSome result (λ r. (1 ≤ r.0) × (r.0 ≤ most_workers)) }
    ensures some { IfSome result (λ r. slice_split is_x text.now ≡ decimal r.0 ∷ pieces_of (option_map (λ rest. rest.now) r.1)) }
    ensures none { IfNone result ((n : ℕ) (pieces : List (List ℕ)) → 1 ≤ n → n ≤ most_workers → slice_split is_x text.now ≡ decimal n ∷ pieces → ⊥) }
{
    let end = first_x(text);
    let level = level_of(&text[..end])?;
    if end == text.len() {
        return Some((level, None));
    }
    Some((level, Some(&text[end + 1..])))
}
