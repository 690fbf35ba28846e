//! How many atoms have no effect on play.
ghost use Rattle.std.specs.Prelude.{◌≡◌, length, map};
ghost use Rattle.ground_terms.specs.Dropping.{is_input_in, misses_base_in, misses_input_in, is_dropped_in, dropped_in};
ghost use Rattle.rules_clauses.specs.Marks.{NumbersBelow};

use crate::arena::Arena;
use crate::number_set::NumberSet;
use rules::Keywords;

/// Whether a term is an input of a role.
fn is_input(roles: &NumberSet, inputs: &[NumberSet], role: usize, input: usize) -> bool
    requires { length inputs.now ≡ length roles.now.keys }
    ensures { result ≡ is_input_in roles.now.keys (map (λ s. s.keys) inputs.now) role input }
{
    let place = roles.place(role);
    if place >= inputs.len() {
        return false;
    }
    inputs[place].contains(input)
}

/// Whether a word and a part are those of an `init` or `next` outside the base propositions.
fn misses_base(words: Keywords, bases: &NumberSet, word: usize, part: usize) -> bool
    ensures { result ≡ misses_base_in words bases.now.keys word part }
{
    (word == words.init || word == words.next) && !bases.contains(part)
}

/// Whether a word and two parts are those of a `legal` of no role or outside its inputs.
fn misses_input(
    words: Keywords,
    roles: &NumberSet,
    inputs: &[NumberSet],
    word: usize,
    role: usize,
    input: usize,
) -> bool
    requires { length inputs.now ≡ length roles.now.keys }
    ensures { result ≡ misses_input_in words roles.now.keys (map (λ s. s.keys) inputs.now) word role input }
{
    word == words.legal && !is_input(roles, inputs, role, input)
}

/// Whether the atom with a key has no effect on play.
fn is_dropped(
    words: Keywords,
    bases: &NumberSet,
    roles: &NumberSet,
    inputs: &[NumberSet],
    key: &[u32],
) -> bool
    requires { length inputs.now ≡ length roles.now.keys }
    ensures { result ≡ is_dropped_in words bases.now.keys roles.now.keys (map (λ s. s.keys) inputs.now) key.now }
{
    if key.len() == 2 {
        return misses_base(words, bases, key[0] as usize, key[1] as usize);
    }
    if key.len() == 3 {
        let (word, role, input) = (key[0] as usize, key[1] as usize, key[2] as usize);
        return misses_input(words, roles, inputs, word, role, input);
    }
    false
}

/// How many atoms have no effect on play: `init` and `next` of what is no base proposition, and `legal` of
/// no role or of what is no input of it. The inputs of the roles stand in the order of the roles.
pub fn count_dropped(
    arena: &Arena,
    words: Keywords,
    bases: &NumberSet,
    roles: &NumberSet,
    inputs: &[NumberSet],
    atoms: &[u32],
) -> usize
    requires atoms { NumbersBelow (length arena.now.keys) atoms.now }
    requires beside { length inputs.now ≡ length roles.now.keys }
    ensures { result ≡ dropped_in arena.now.keys words bases.now.keys roles.now.keys (map (λ s. s.keys) inputs.now) atoms.now }
{
    let mut count = 0;
    for atom in atoms {
        count += usize::from(is_dropped(words, bases, roles, inputs, arena.key(*atom as usize)));
    }
    count
}
