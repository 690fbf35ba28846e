//! Where ground atoms stand in play.
ghost use Rattle.std.specs.Prelude.{Some, None, ◌≡◌, ◌<◌, ◌^◌, length, map, if◌then◌else◌, IfSome};
ghost use Rattle.statement.specs.Clause.{Atom, relation_of, tree_of};
ghost use Rattle.statement.specs.Dependence.{is_fixed};
ghost use Rattle.rules.specs.RuleSetView.{lists_of_set, rules_in};
ghost use Rattle.ground_terms.specs.Keys.{term_at, trees};
ghost use Rattle.statement.specs.Kinds.{kind_of, value_of, two_numbers};
ghost use Rattle.ground_terms.specs.Tables.{AreTables, place_of, input_place, inputs_at, kind_without, kind_with_one, kind_with_two};

use crate::arena::Arena;
use crate::decimals::value_up_to;
use crate::number_set::NumberSet;
use meaning::Kind;
use rules::{Keywords, RuleSet};

impl Arena {
    /// Where an atom stands in play, by the numbers of roles, base propositions and inputs. `fixed`
    /// tells whether the relation of the atom is fixed.
    pub fn kind_of(
        &self,
        rules: &RuleSet,
        number: usize,
        fixed: bool,
        roles: &NumberSet,
        base: &NumberSet,
        inputs: &[NumberSet],
    ) -> Kind
        requires symbols { length self.now.sizes ≡ length (lists_of_set rules.now).words }
        requires number { number < length self.now.keys }
        requires tables { AreTables (rules_in rules.now) (trees (lists_of_set rules.now).words self.now.keys) roles.now.keys base.now.keys
            (map (λ s. s.keys) inputs.now) }
        ensures { (x : Atom) → tree_of x ≡ term_at (trees (lists_of_set rules.now).words self.now.keys) number
            → is_fixed (rules_in rules.now) (relation_of x) ≡ fixed → result ≡ kind_of (rules_in rules.now) x }
    {
        if fixed {
            return Kind::Fixed;
        }
        let key = self.key(number);
        let words = rules.keywords();
        if key.len() == 1 {
            return kind_without(words, key[0] as usize);
        }
        if key.len() == 2 {
            let place = place_of(base, key[1] as usize);
            return kind_with_one(words, key[0] as usize, place);
        }
        if key.len() == 3 {
            let (word, last) = (key[0] as usize, key[2] as usize);
            let role = place_of(roles, key[1] as usize);
            let input = input_place(inputs, role, last);
            let value = self.goal_value(rules, last, word == words.goal);
            return kind_with_two(words, word, role, input, value);
        }
        Kind::Other
    }

    /// The goal value that a term is, if it is asked for.
    fn goal_value(&self, rules: &RuleSet, number: usize, is_asked: bool) -> Option<u8>
        requires symbols { length self.now.sizes ≡ length (lists_of_set rules.now).words }
        requires number { number < length self.now.keys }
        ensures { result ≡ (if is_asked then value_of (term_at (trees (lists_of_set rules.now).words self.now.keys) number) else None) }
    {
        if !is_asked {
            return None;
        }
        let key = self.key(number);
        if key.len() != 1 {
            return None;
        }
        value_up_to(rules.symbol(key[0] as usize), 100)
    }
}

/// The place of a number, if it stands there.
fn place_of(numbers: &NumberSet, number: usize) -> Option<usize>
    ensures { result ≡ place_of number numbers.now.keys }
{
    let place = numbers.place(number);
    if place < numbers.len() {
        return Some(place);
    }
    None
}

/// The place of a number among the inputs of a role.
fn input_place(inputs: &[NumberSet], role: Option<usize>, number: usize) -> Option<usize>
    requires { IfSome role (λ k. k < length inputs.now) }
    ensures { result ≡ input_place (map (λ s. s.keys) inputs.now) role number }
{
    match role {
        None => None,
        Some(role) => place_of(&inputs[role], number),
    }
}

/// The kind of an atom without terms.
fn kind_without(words: Keywords, word: usize) -> Kind
    ensures { result ≡ kind_without words word }
{
    if word == words.terminal {
        return Kind::Terminal;
    }
    Kind::Other
}

/// The kind of an atom with one term, by the place of the term among the base propositions.
fn kind_with_one(words: Keywords, word: usize, place: Option<usize>) -> Kind
    requires { IfSome place (λ n. n < 2 ^ 32) }
    ensures { result ≡ kind_with_one words word place }
{
    let Some(place) = place else {
        return Kind::Other;
    };
    let place = place as u32;
    if word == words.now {
        return Kind::Now(place);
    }
    if word == words.next {
        return Kind::Next(place);
    }
    Kind::Other
}

/// The kind of an atom with two terms, by the place of a role, the place of an input of it, and a value.
fn kind_with_two(
    words: Keywords,
    word: usize,
    role: Option<usize>,
    input: Option<usize>,
    value: Option<u8>,
) -> Kind
    requires role { IfSome role (λ n. n < 2 ^ 32) }
    requires input { IfSome input (λ n. n < 2 ^ 32) }
    ensures { result ≡ kind_with_two words word role input value }
{
    let Some(role) = role else {
        return Kind::Other;
    };
    let role = role as u32;
    if word == words.does {
        return kind_of_move(true, role, input);
    }
    if word == words.legal {
        return kind_of_move(false, role, input);
    }
    if word == words.goal {
        return kind_of_goal(role, value);
    }
    Kind::Other
}

/// `does` or `legal` of a role and an input.
fn kind_of_move(is_done: bool, role: u32, input: Option<usize>) -> Kind
    requires { IfSome input (λ n. n < 2 ^ 32) }
    ensures { result ≡ (if is_done then two_numbers (λ k n. Kind.Does k n) (Some role) input else two_numbers (λ k n. Kind.Legal k n) (Some role)
        input) }
{
    let Some(input) = input else {
        return Kind::Other;
    };
    let input = input as u32;
    if is_done {
        return Kind::Does(role, input);
    }
    Kind::Legal(role, input)
}

/// `goal` of a role and a value.
fn kind_of_goal(role: u32, value: Option<u8>) -> Kind
    ensures { result ≡ two_numbers (λ k n. Kind.Goal k n) (Some role) value }
{
    match value {
        None => Kind::Other,
        Some(value) => Kind::Goal(role, value),
    }
}
