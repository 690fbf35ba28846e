//! The lists in memory that a description is written to.
ghost use Rattle.std.specs.Prelude.{◌≡◌, ◌≤◌, ◌<◌, ◌+◌, ◌++◌, ◌∷◌, [], true, length, map, drop, slice_index, slice_range, IfOk, OnOk, MatchOption};
ghost use Rattle.std.specs.Prelude.{position, false, ◌==◌, if◌then◌else◌};
ghost use Rattle.statement.specs.Tree.{name, trees_of};
ghost use Rattle.kif.specs.View.{tree_of, trees_in};
ghost use Rattle.rules_profile.specs.Uses.{use_in};
ghost use Rattle.statement.specs.Items.{is_term, are_terms, is_atom, atom_in};
ghost use Rattle.rules_clauses.specs.Adding.{AddsTerms, MakesPart, BeginsList, NumbersRelation, AddsAtom, AddsLiteral};
ghost use Rattle.statement.specs.Clause.{positive, negative, is_word};
ghost use Rattle.rules_clauses.specs.Numbers.{word_at, with_word, with_fresh, is_number_in};
ghost use Rattle.rules_clauses.specs.StoreView.{data_of};
ghost use Rattle.rules_clauses.specs.Marks.{literal_in};
ghost use Rattle.statement.specs.Dependence.{is_distinct};
ghost use Rattle.rules_clauses.specs.Signatures.{signature_at};
ghost use Rattle.rules_clauses.specs.Spread.{numbers_of};
ghost use Rattle.rules_clauses.specs.Store.{relation_at};

use crate::numbered::{Atom, Literal, Part, Span};
use crate::signatures::{Signature, Signatures};
use crate::symbols::Symbols;
use kif::Expr;
use rules_profile::{Word, is_variable_name, split_word};
use std::alloc::{AllocError, Allocator, Global};

/// Names, relations, variables, terms and literals, each once.
#[derive(Drop)]
pub struct Store {
    symbols: Symbols,
    signatures: Signatures,
    variables: Vec<usize>,
    parts: Vec<Part>,
    literals: Vec<Literal>,
}

impl Store {
    /// Nothing yet.
    pub fn new(alloc: Global) -> Self
        ensures { data_of result ≡ record { words = []; signatures = []; variables = []; parts = []; literals = [] } }
    {
        Store {
            symbols: Symbols::new(alloc),
            signatures: Signatures::new(alloc),
            variables: Vec::new(alloc),
            parts: Vec::new(alloc),
            literals: Vec::new(alloc),
        }
    }

    /// The symbol of a name.
    pub fn symbol(&mut self, name: &[u8]) -> Result<usize, AllocError>
        ensures found { IfOk result (λ s. (s < length (data_of self.new).words) × (word_at (data_of self.new).words s ≡ name.now)) }
        ensures kept { OnOk result (data_of self.new ≡ record (data_of self.old) { words = with_word (data_of self.old).words name.now }) }
    {
        self.symbols.intern(name)
    }

    /// The number of a variable among those of its item, which stand from `from` on.
    fn variable(&mut self, from: usize, symbol: usize) -> Result<usize, AllocError>
        requires { from ≤ length (data_of self.old).variables }
        ensures found { IfOk result (λ v. (from + v < length (data_of self.new).variables)
            × (slice_index (data_of self.new).variables (from + v) ≡ symbol)) }
        ensures kept { OnOk result (data_of self.new
            ≡ record (data_of self.old) { variables = with_fresh from (data_of self.old).variables symbol }) }
    {
        let known = place_of(&self.variables[from..], symbol);
        if let Some(number) = known {
            return Ok(number);
        }
        let number = self.variables.len() - from;
        self.variables.push(symbol)?;
        Ok(number)
    }

    /// How many variables there are.
    pub(crate) fn count_variables(&self) -> usize
        ensures { result ≡ length (data_of self.now).variables }
    {
        self.variables.len()
    }

    /// A literal by its number.
    pub fn literal(&self, number: usize) -> Literal
        requires { number < length (data_of self.now).literals }
        ensures { result ≡ literal_in (data_of self.now) number }
    {
        self.literals[number]
    }

    /// Where a literal stands.
    pub(crate) fn place_of_literal(&self, number: usize) -> Span
        requires { number < length (data_of self.now).literals }
        ensures { numbers_of result ≡ number ∷ [] }
    {
        Span {
            from: number,
            to: number + 1,
        }
    }

    /// The parts that stand in a place.
    pub fn parts_at(&self, place: Span) -> &[Part]
        requires order { place.from ≤ place.to }
        requires within { place.to ≤ length (data_of self.now).parts }
        ensures { result.now ≡ slice_range (data_of self.now).parts place.from place.to }
    {
        &self.parts[place.from..place.to]
    }

    /// How many names there are.
    pub fn count_symbols(&self) -> usize
        ensures { result ≡ length (data_of self.now).words }
    {
        self.symbols.len()
    }

    /// The bytes of a name.
    pub fn symbol_at(&self, number: usize) -> &[u8]
        requires { number < length (data_of self.now).words }
        ensures { result.now ≡ word_at (data_of self.now).words number }
    {
        self.symbols.name(number)
    }

    /// The symbol of a variable.
    pub fn variable_at(&self, place: usize) -> usize
        requires { place < length (data_of self.now).variables }
        ensures { result ≡ slice_index (data_of self.now).variables place }
    {
        self.variables[place]
    }

    /// A relation.
    pub fn signature(&self, number: usize) -> Signature
        requires { number < length (data_of self.now).signatures }
        ensures { result ≡ signature_at (data_of self.now).signatures number }
    {
        self.signatures.as_slice()[number]
    }

    /// How many relations there are.
    pub fn count_relations(&self) -> usize
        ensures { result ≡ length (data_of self.now).signatures }
    {
        self.signatures.as_slice().len()
    }

    /// The bytes of a relation's name.
    pub fn relation_name(&self, relation: usize) -> &[u8]
        requires relation { relation < length (data_of self.now).signatures }
        requires word { (signature_at (data_of self.now).signatures relation).word < length (data_of self.now).words }
        ensures { result.now ≡ (relation_at (data_of self.now) relation).word }
    {
        let signature = self.signatures.as_slice()[relation];
        self.symbols.name(signature.word)
    }

    /// How many arguments a relation has.
    pub fn relation_arity(&self, relation: usize) -> usize
        requires { relation < length (data_of self.now).signatures }
        ensures { result ≡ (relation_at (data_of self.now) relation).arity }
    {
        self.signatures.as_slice()[relation].arity
    }

    /// Whether a relation is this word of the language, with its number of arguments.
    pub fn is_word(&self, relation: usize, word: Word) -> bool
        requires relation { relation < length (data_of self.now).signatures }
        requires word { (signature_at (data_of self.now).signatures relation).word < length (data_of self.now).words }
        ensures { result ≡ is_word (use_in word).word (use_in word).arity (relation_at (data_of self.now) relation) }
    {
        word.is_named(self.relation_name(relation)) && self.relation_arity(relation) == word.arity()
    }

    /// Whether a relation is `distinct` with two arguments.
    pub fn is_distinct(&self, relation: usize) -> bool
        requires relation { relation < length (data_of self.now).signatures }
        requires word { (signature_at (data_of self.now).signatures relation).word < length (data_of self.now).words }
        ensures { result ≡ is_distinct (relation_at (data_of self.now) relation) }
    {
        self.is_word(relation, Word::Distinct)
    }

    fn push_part(&mut self, part: Part) -> Result<(), AllocError>
        ensures { OnOk result (data_of self.new ≡ record (data_of self.old) { parts = (data_of self.old).parts ++ part ∷ [] }) }
    {
        self.parts.push(part)?;
        Ok(())
    }

    /// A part for a name: a variable of its item, or a constant.
    fn name_part(&mut self, from: usize, name: &[u8]) -> Result<Part, AllocError>
        requires { from ≤ length (data_of self.old).variables }
        ensures { IfOk result (λ part. MakesPart from (data_of self.old) (data_of self.new) part name.now) }
    {
        let symbol = self.symbol(name)?;
        if is_variable_name(name) {
            let variable = self.variable(from, symbol)?;
            Ok(Part::Variable(variable))
        } else {
            Ok(Part::Constant(symbol))
        }
    }

    fn add_name(&mut self, from: usize, word: &[u8]) -> Result<(), AllocError>
        requires { from ≤ length (data_of self.old).variables }
        ensures { OnOk result (AddsTerms from (data_of self.old) (data_of self.new) (name word.now ∷ [])) }
    {
        let part = self.name_part(from, word)?;
        self.push_part(part)
    }

    /// Begins a list of so many terms behind a word.
    fn begin_list(&mut self, from: usize, word: &[u8], terms: usize) -> Result<(), AllocError>
        ensures { OnOk result (BeginsList from (data_of self.old) (data_of self.new) word.now terms) }
    {
        let symbol = self.symbol(word)?;
        self.push_part(Part::List(symbol, terms))
    }

    #[cycle(terms)]
    fn add_term<A: Allocator>(&mut self, from: usize, e: &Expr<A>) -> Result<(), AllocError>
        requires variables { from ≤ length (data_of self.old).variables }
        requires term { is_term (tree_of e.now) ≡ true }
        ensures { OnOk result (AddsTerms from (data_of self.old) (data_of self.new) (tree_of e.now ∷ [])) }
    {
        match e {
            Expr::Name(name) => self.add_name(from, name),
            Expr::List(parts) => match split_word(parts) {
                None => unreachable!(),
                Some((word, terms)) => {
                    self.begin_list(from, word, terms.len())?;
                    self.add_terms(from, terms)
                }
            },
        }
    }

    #[cycle(terms)]
    fn add_terms<A: Allocator>(&mut self, from: usize, terms: &[Expr<A>]) -> Result<(), AllocError>
        requires variables { from ≤ length (data_of self.old).variables }
        requires terms { are_terms (trees_of (trees_in terms.now)) ≡ true }
        ensures { OnOk result (AddsTerms from (data_of self.old) (data_of self.new) (trees_in terms.now)) }
    {
        for term in terms {
            self.add_term(from, term)?;
        }
        Ok(())
    }

    /// The number of the relation of a word and so many terms.
    fn relation(&mut self, from: usize, word: &[u8], arity: usize) -> Result<usize, AllocError>
        ensures { IfOk result (λ r. NumbersRelation from (data_of self.old) (data_of self.new) r (record { word = word.now; arity = arity })) }
    {
        let word = self.symbol(word)?;
        let relation = self.signatures.intern(Signature { word, arity })?;
        Ok(relation)
    }

    /// AddsTerms the atom of a word and terms.
    fn add_atom_of<A: Allocator>(
        &mut self,
        from: usize,
        word: &[u8],
        terms: &[Expr<A>],
    ) -> Result<Atom, AllocError>
        requires variables { from ≤ length (data_of self.old).variables }
        requires terms { are_terms (trees_of (trees_in terms.now)) ≡ true }
        ensures { IfOk result (λ atom. AddsAtom from (data_of self.old) (data_of self.new) atom
            (record { word = word.now; terms = trees_of (trees_in terms.now) })) }
    {
        let relation = self.relation(from, word, terms.len())?;
        let begin = self.parts.len();
        self.add_terms(from, terms)?;
        let end = self.parts.len();
        Ok(Atom {
            relation,
            terms: Span {
                from: begin,
                to: end,
            },
        })
    }

    /// AddsTerms an atom.
    pub(crate) fn add_atom<A: Allocator>(
        &mut self,
        from: usize,
        e: &Expr<A>,
    ) -> Result<Atom, AllocError>
        requires variables { from ≤ length (data_of self.old).variables }
        requires atom { is_atom (tree_of e.now) ≡ true }
        ensures { IfOk result (λ atom. AddsAtom from (data_of self.old) (data_of self.new) atom (atom_in (tree_of e.now))) }
    {
        let (word, terms) = split_atom(e);
        self.add_atom_of(from, word, terms)
    }

    /// AddsTerms a literal, and tells its number.
    pub(crate) fn add_literal<A: Allocator>(
        &mut self,
        from: usize,
        e: &Expr<A>,
        is_negated: bool,
    ) -> Result<usize, AllocError>
        requires variables { from ≤ length (data_of self.old).variables }
        requires atom { is_atom (tree_of e.now) ≡ true }
        ensures { IfOk result (λ n. AddsLiteral from (data_of self.old) (data_of self.new) n
            (if is_negated then negative (atom_in (tree_of e.now)) else positive (atom_in (tree_of e.now)))) }
    {
        let atom = self.add_atom(from, e)?;
        let number = self.literals.len();
        self.literals.push(Literal { atom, is_negated })?;
        Ok(number)
    }
}

/// The word of an atom, and its terms.
fn split_atom<A: Allocator>(e: &Expr<A>) -> (&[u8], &[Expr<A>])
    requires { is_atom (tree_of e.now) ≡ true }
    ensures atom { atom_in (tree_of e.now) ≡ record { word = result.0.now; terms = trees_of (trees_in result.1.now) } }
    ensures terms { are_terms (trees_of (trees_in result.1.now)) ≡ true }
{
    match e {
        Expr::Name(word) => (word, &[]),
        Expr::List(parts) => match split_word(parts) {
            None => unreachable!(),
            Some((word, terms)) => (word, terms),
        },
    }
}

/// The first place of a number in a list, as the list's own search tells it.
fn first_place(numbers: &[usize], number: usize) -> Option<usize>
    ensures { result ≡ position (λ x. number == x) numbers.now }
{
    numbers.iter().position(|other| number == *other)
}

/// Where a number stands in a list, if it does.
fn place_of(numbers: &[usize], number: usize) -> Option<usize>
    ensures { MatchOption result (is_number_in number numbers.now ≡ false)
        (λ k. (k < length numbers.now) × (slice_index numbers.now k ≡ number) × (is_number_in number numbers.now ≡ true)) }
{
    first_place(numbers, number)
}
