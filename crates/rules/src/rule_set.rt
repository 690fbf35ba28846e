//! A description that was accepted, in numbers.
ghost use Rattle.std.specs.Prelude.{map};
ghost use Rattle.rules.specs.Drafts.{numbered};
ghost use Rattle.rules.specs.Props.{rule_props};
ghost use Rattle.rules.specs.RuleSets.{HasItems, IsSound, rules_of, texts_of};
ghost use Rattle.rules_clauses.specs.StoreView.{data_of};

use rules_clauses::{Alternative, Literal, Part, Signature, Span, Store};

/// The numbers of the names that the language gives a meaning in play.
#[derive(Clone, Copy, Debug, PartialEq, Eq)]
pub struct Keywords {
    pub role: usize,
    pub base: usize,
    pub input: usize,
    pub init: usize,
    /// The number of `true`.
    pub now: usize,
    pub does: usize,
    pub next: usize,
    pub legal: usize,
    pub goal: usize,
    pub terminal: usize,
    pub distinct: usize,
}

/// A description without a fault: every alternative of it is safe, and no relation depends on itself.
/// Names, relations, terms and literals are numbers.
#[derive(Drop)]
pub struct RuleSet {
    pub(crate) store: Store,
    pub(crate) alternatives: Vec<Alternative>,
    pub(crate) fixed: Vec<bool>,
    pub(crate) order: Vec<usize>,
    pub(crate) roles: Vec<Vec<u8>>,
    pub(crate) keywords: Keywords,
    pub ghost accepted: { ∥ HasItems (rules_of (data_of store) (map numbered alternatives.items)) (texts_of roles.items) ∥₁ },
    pub ghost sound: { IsSound (data_of store) (map numbered alternatives.items) fixed.items order.items keywords } by { Prim.hlevel rule_props },
}

impl RuleSet {
    ghost use Rattle.std.specs.Prelude.{◌≡◌, ◌<◌, ◌≤◌, ◌+◌, false, length, slice_index, slice_index_or, slice_range};
    ghost use Rattle.rules_clauses.specs.Marks.{literal_in};
    ghost use Rattle.rules_clauses.specs.Numbers.{word_at};
    ghost use Rattle.rules.specs.RuleSets.{text_of_role};
    ghost use Rattle.rules.specs.RuleSetView.{alternatives_in, fixed_in, keywords_in, lists_of_set, order_in, roles_in};
    ghost use Rattle.rules_clauses.specs.Signatures.{signature_at};

    /// How many names there are.
    pub fn count_symbols(&self) -> usize
        ensures { result ≡ length (lists_of_set self.now).words }
    {
        self.store.count_symbols()
    }

    /// The bytes of a name.
    pub fn symbol(&self, number: usize) -> &[u8]
        requires { number < length (lists_of_set self.now).words }
        ensures { result.now ≡ word_at (lists_of_set self.now).words number }
    {
        self.store.symbol_at(number)
    }

    /// The numbers of the names that have a meaning in play.
    pub fn keywords(&self) -> Keywords
        ensures { result ≡ keywords_in self.now }
    {
        self.keywords
    }

    /// How many relations there are.
    pub fn count_relations(&self) -> usize
        ensures { result ≡ length (lists_of_set self.now).signatures }
    {
        self.store.count_relations()
    }

    /// A relation.
    pub fn relation(&self, number: usize) -> Signature
        requires { number < length (lists_of_set self.now).signatures }
        ensures { result ≡ signature_at (lists_of_set self.now).signatures number }
    {
        self.store.signature(number)
    }

    /// Whether a relation is fixed: its atoms hold in every state or in none.
    pub fn is_fixed(&self, number: usize) -> bool
        requires { number < length (fixed_in self.now) }
        ensures { result ≡ slice_index_or (fixed_in self.now) number false }
    {
        self.fixed[number]
    }

    /// The relations that head an alternative: fixed ones first, then by rank, by the bytes of the name and
    /// by the number of arguments.
    pub fn relations_in_order(&self) -> &[usize]
        ensures { result.now ≡ order_in self.now }
    {
        &self.order
    }

    /// The alternatives of the items, in the order of the text.
    pub fn alternatives(&self) -> &[Alternative]
        ensures { result.now ≡ alternatives_in self.now }
    {
        &self.alternatives
    }

    /// The symbol of the variable with this number in an item whose variables stand from a place on.
    pub fn variable(&self, from: usize, number: usize) -> usize
        requires { from + number < length (lists_of_set self.now).variables }
        ensures { result ≡ slice_index (lists_of_set self.now).variables (from + number) }
    {
        self.store.variable_at(from + number)
    }

    /// A literal by its number.
    pub fn literal(&self, number: usize) -> Literal
        requires { number < length (lists_of_set self.now).literals }
        ensures { result ≡ literal_in (lists_of_set self.now) number }
    {
        self.store.literal(number)
    }

    /// The parts that stand in a place.
    pub fn parts_at(&self, place: Span) -> &[Part]
        requires order { place.from ≤ place.to }
        requires within { place.to ≤ length (lists_of_set self.now).parts }
        ensures { result.now ≡ slice_range (lists_of_set self.now).parts place.from place.to }
    {
        self.store.parts_at(place)
    }

    /// How many roles there are.
    pub fn roles(&self) -> usize
        ensures { result ≡ length (roles_in self.now) }
    {
        self.roles.len()
    }

    /// The canonical text of a role, in the order in which the items state them first.
    pub fn role_text(&self, role: usize) -> &[u8]
        requires { role < length (roles_in self.now) }
        ensures { result.now ≡ text_of_role (roles_in self.now) role }
    {
        &self.roles[role]
    }
}
