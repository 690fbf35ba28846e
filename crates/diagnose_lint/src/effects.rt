//! What heads lack to have an effect on play.
ghost use Rattle.std.specs.Prelude.{◌≡◌, nat_eq, true, map, IfSome};
ghost use Rattle.std.specs.List.{list_any};
ghost use Rattle.statement.specs.Printed.{first_place};
ghost use Rattle.util_interner.specs.KeyLists.{key_at};
ghost use Rattle.rules.specs.RuleSetView.{keywords_in};
ghost use Rattle.ground_terms.specs.Vectors.{items_of};
ghost use Rattle.ground_terms.specs.Dropping.{is_input_in, misses_base_in, misses_input_in};
ghost use Rattle.ground_rows.specs.Contexts.{terms_named};
ghost use Rattle.ground_rows.specs.SetWords.{words_of};
ghost use Rattle.diagnose_lint.specs.Keyed.{is_goal_key, misses_goal_in, lacks_in, numbers_of};

use crate::dropped_finding::Lack;
use crate::goals::is_goal_number;
use ground_listing::{ContextTerms, Listed};
use ground_terms::{Arena, Named};
use rules::{Keywords, RuleSet};

/// Whether a term is one of those that are named.
fn is_named(named: &[Named], term: usize) -> bool
    ensures { result ≡ list_any (nat_eq term) (terms_named named.now) }
{
    for one in named {
        if one.term == term {
            return true;
        }
    }
    false
}

/// The place of a term among those that are named; how many there are, if it is none of them.
fn place_of(named: &[Named], term: usize) -> usize
    ensures { result ≡ first_place (nat_eq term) (terms_named named.now) }
{
    for (place, one) in named.iter().enumerate() {
        if one.term == term {
            return place;
        }
    }
    named.len()
}

/// Whether a term is an input of a role.
fn is_input(context: &ContextTerms, role: usize, input: usize) -> bool
    ensures { result ≡ is_input_in (terms_named context.now.roles.items) (map terms_named (items_of context.now.inputs.items)) role input }
{
    let place = place_of(&context.roles, role);
    if place >= context.inputs.len() {
        return false;
    }
    is_named(&context.inputs[place], input)
}

/// Whether a word and a part are those of an `init` or a `next` of what is no base proposition.
fn misses_base(context: &ContextTerms, words: Keywords, word: usize, part: usize) -> bool
    ensures { result ≡ misses_base_in words (terms_named context.now.base.items) word part }
{
    (word == words.init || word == words.next) && !is_named(&context.base, part)
}

/// Whether a word and two parts are those of a `legal` of no role, or of what is no input of it.
fn misses_input(
    context: &ContextTerms,
    words: Keywords,
    word: usize,
    role: usize,
    input: usize,
) -> bool
    ensures { result ≡ misses_input_in words (terms_named context.now.roles.items) (map terms_named (items_of context.now.inputs.items))
        word role input }
{
    word == words.legal && !is_input(context, role, input)
}

/// The key of a term; an empty one if there is no term of the number.
pub(crate) fn key_of(arena: &Arena, number: usize) -> &[u32]
    ensures { result.now ≡ key_at arena.now.keys number }
{
    if number < arena.len() {
        return arena.key(number);
    }
    &[]
}

/// Whether a key is that of a name that is a goal value.
fn is_goal_key(rules: &RuleSet, key: &[u32]) -> bool
    ensures { result ≡ is_goal_key (words_of rules.now) key.now }
{
    match key {
        [symbol] => {
            let symbol = *symbol as usize;
            symbol < rules.count_symbols() && is_goal_number(rules.symbol(symbol))
        }
        _ => false,
    }
}

/// Whether a word and two parts are those of a `goal` of no role, or whose value is no number from 0 to 100.
fn misses_goal(
    rules: &RuleSet,
    listed: &Listed,
    words: Keywords,
    word: usize,
    role: usize,
    value: usize,
) -> bool
    ensures { result ≡ misses_goal_in (words_of rules.now) listed.now.arena.keys words (terms_named listed.now.context.roles.items)
        word role value }
{
    word == words.goal
        && !(is_named(&listed.context.roles, role)
            && is_goal_key(rules, key_of(&listed.arena, value)))
}

/// What the atom of a key lacks to have an effect on play, if it lacks something.
pub(crate) fn lack_of(rules: &RuleSet, listed: &Listed, key: &[u32]) -> Option<Lack>
    ensures { IfSome result (λ lack. lacks_in (numbers_of rules.now listed.now) lack key.now ≡ true) }
{
    let words = rules.keywords();
    let context = &listed.context;
    match key {
        [word, part] => {
            if misses_base(context, words, *word as usize, *part as usize) {
                return Some(Lack::Base);
            }
            None
        }
        [word, role, part] => {
            let (word, role, part) = (*word as usize, *role as usize, *part as usize);
            if misses_input(context, words, word, role, part) {
                return Some(Lack::Input);
            }
            if misses_goal(rules, listed, words, word, role, part) {
                return Some(Lack::Goal);
            }
            None
        }
        _ => None,
    }
}
