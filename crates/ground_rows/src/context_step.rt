//! The context of play: the roles, base propositions and inputs that the fixed relations state.
ghost use Rattle.std.specs.Prelude.{ℕ, List, ◌≡◌, ◌<◌, length, map, nat_lt, None, IfOk, IfErr, OnOk};
ghost use Rattle.rules.specs.RuleSetView.{keywords_in, lists_of_set};
ghost use Rattle.ground_terms.specs.Arena.{AreNumbered};
ghost use Rattle.ground_rows.specs.Contexts.{
  AreAllNamed,
  AreContext,
  atoms_by,
  bases_stated,
  count_in,
  excess_of,
  excess_stated,
  inputs_of_roles,
  inputs_stated,
  moves_by,
  roles_stated,
  terms_named,
};
ghost use Rattle.ground_terms.specs.Vectors.{items_of};
ghost use Rattle.ground_terms.specs.Dropping.{AreListsBelow};
ghost use Rattle.rules_clauses.specs.Numbers.{BeginsWith, word_at};
ghost use Rattle.ground_terms.specs.Atoms.{AddsAtoms, WordTerms};
ghost use Rattle.rules_clauses.specs.Marks.{NumbersBelow};
ghost use Rattle.ground_terms.specs.Keys.{term_at, trees};
ghost use Rattle.statement.specs.Meaning.{atom1, atom2};
ghost use Rattle.ground_rows.specs.Progress.{IsFaultOf};
ghost use Rattle.ground_terms.specs.Stated.{second_parts};

use crate::most::Most;
use ground_terms::{
    Arena, Named, NumberSet, add_only_parts, add_pairs, add_second_parts, add_singles,
};
use meaning::Excess;
use rules::{Keywords, RuleSet};
use statement::GroundFault;
use std::alloc::{AllocError, Global};

/// The terms that are stated, as they come.
#[derive(Drop)]
struct Collected {
    roles: Vec<usize>,
    base: Vec<usize>,
    /// Those of each role.
    inputs: Vec<Vec<usize>>,
}

/// The roles in the order in which they are stated, and the base propositions and the inputs of each role
/// in printed order, with their texts.
#[derive(Drop)]
pub struct ContextTerms {
    pub roles: Vec<Named>,
    pub base: Vec<Named>,
    pub inputs: Vec<Vec<Named>>,
}

/// The inputs of a role.
fn inputs_of_role(
    alloc: Global,
    arena: &Arena,
    word: usize,
    role: usize,
    atoms: &[u32],
) -> Result<Vec<usize>, AllocError>
    requires { NumbersBelow (length arena.now.keys) atoms.now }
    ensures { IfOk result (λ terms. terms.items ≡ second_parts arena.now.keys word role atoms.now) }
{
    let mut terms = Vec::new(alloc);
    add_second_parts(arena, word, role, atoms, &mut terms)?;
    Ok(terms)
}

/// The inputs of each role, in the order of the roles.
fn inputs_of_roles(
    alloc: Global,
    arena: &Arena,
    word: usize,
    roles: &[usize],
    atoms: &[u32],
) -> Result<Vec<Vec<usize>>, AllocError>
    requires { NumbersBelow (length arena.now.keys) atoms.now }
    ensures { IfOk result (λ inputs. items_of inputs.items ≡ inputs_of_roles arena.now.keys word atoms.now roles.now) }
{
    let mut inputs = Vec::new(alloc);
    for role in roles {
        inputs.push(inputs_of_role(alloc, arena, word, *role, atoms)?)?;
    }
    Ok(inputs)
}

/// The roles, the base propositions, and the inputs of each role that atoms state.
fn collect(
    alloc: Global,
    arena: &Arena,
    words: Keywords,
    atoms: &[u32],
) -> Result<Collected, AllocError>
    requires { NumbersBelow (length arena.now.keys) atoms.now }
    ensures roles { IfOk result (λ c. c.roles.items ≡ roles_stated arena.now.keys words atoms.now) }
    ensures base { IfOk result (λ c. c.base.items ≡ bases_stated arena.now.keys words atoms.now) }
    ensures inputs { IfOk result (λ c. items_of c.inputs.items ≡ inputs_stated arena.now.keys words atoms.now) }
{
    let mut roles = Vec::new(alloc);
    add_only_parts(arena, words.role, atoms, &mut roles)?;
    let mut base = Vec::new(alloc);
    add_only_parts(arena, words.base, atoms, &mut base)?;
    let inputs = inputs_of_roles(alloc, arena, words.input, &roles, atoms)?;
    Ok(Collected {
        roles,
        base,
        inputs,
    })
}

/// Whether lists have more elements in all than a number.
fn have_more(lists: &[Vec<usize>], most: usize) -> bool
    ensures { result ≡ nat_lt most (count_in (items_of lists.now)) }
{
    let mut left = most;
    for list in lists {
        if left < list.len() {
            return true;
        }
        left -= list.len();
    }
    false
}

/// The limit that is passed by what is stated, if one is.
fn excess_of(collected: &Collected, most: Most) -> Option<Excess>
    ensures { result ≡ excess_of most (length collected.now.base.items) (count_in (items_of collected.now.inputs.items)) }
{
    if most.base < collected.base.len() {
        return Some(Excess::Base);
    }
    if have_more(&collected.inputs, most.inputs) {
        return Some(Excess::Inputs);
    }
    None
}

/// The terms of each list with their texts, in printed order.
fn name_lists(
    alloc: Global,
    arena: &Arena,
    set: &RuleSet,
    lists: &[Vec<usize>],
) -> Result<Vec<Vec<Named>>, AllocError>
    requires symbols { length arena.now.sizes ≡ length (lists_of_set set.now).words }
    requires within { AreListsBelow (length arena.now.keys) (items_of lists.now) }
    ensures { IfOk result (λ named. AreAllNamed (trees (lists_of_set set.now).words arena.now.keys) (items_of lists.now) (items_of named.items)) }
{
    let mut named = Vec::new(alloc);
    for list in lists {
        named.push(arena.sorted_by_text(alloc, set, list)?)?;
    }
    Ok(named)
}

/// The terms of what is named.
fn terms_named(alloc: Global, named: &[Named]) -> Result<Vec<usize>, AllocError>
    ensures { IfOk result (λ terms. terms.items ≡ terms_named named.now) }
{
    let mut terms = Vec::new(alloc);
    for one in named {
        terms.push(one.term)?;
    }
    Ok(terms)
}

/// Numbers the atoms `(w t)` of a word and the terms that are named, in their order.
fn add_named(
    alloc: Global,
    arena: &mut Arena,
    atoms: &mut NumberSet,
    word: usize,
    named: &[Named],
) -> Result<(), AllocError>
    requires word { word < length arena.old.sizes }
    requires terms { NumbersBelow (length arena.old.keys) (terms_named named.now) }
    ensures front { OnOk result (BeginsWith arena.old.keys arena.new.keys) }
    ensures sizes { OnOk result (arena.new.sizes ≡ arena.old.sizes) }
    ensures added { OnOk result ((words : List (List ℕ)) → WordTerms words arena.old
        → AddsAtoms words arena.old arena.new atoms.old.keys atoms.new.keys
        (map (λ t. atom1 (word_at words word) t) (map (term_at (trees words arena.old.keys)) (terms_named named.now)))) }
{
    let terms = terms_named(alloc, named)?;
    add_singles(arena, atoms, word, &terms)
}

/// Numbers the atoms `(w r t)` of a word, a role and the terms that are named, in their order.
fn add_moves_of(
    alloc: Global,
    arena: &mut Arena,
    atoms: &mut NumberSet,
    word: usize,
    role: usize,
    named: &[Named],
) -> Result<(), AllocError>
    requires word { word < length arena.old.sizes }
    requires role { role < length arena.old.keys }
    requires terms { NumbersBelow (length arena.old.keys) (terms_named named.now) }
    ensures front { OnOk result (BeginsWith arena.old.keys arena.new.keys) }
    ensures sizes { OnOk result (arena.new.sizes ≡ arena.old.sizes) }
    ensures added { OnOk result ((words : List (List ℕ)) → WordTerms words arena.old
        → AddsAtoms words arena.old arena.new atoms.old.keys atoms.new.keys
        (map (λ t. atom2 (word_at words word) (term_at (trees words arena.old.keys) role) t)
        (map (term_at (trees words arena.old.keys)) (terms_named named.now)))) }
{
    let terms = terms_named(alloc, named)?;
    add_pairs(arena, atoms, word, role, &terms)
}

/// Numbers the atoms `(w r t)` of a word, each role and the terms that are named beside it, in their order.
fn add_moves(
    alloc: Global,
    arena: &mut Arena,
    atoms: &mut NumberSet,
    word: usize,
    roles: &[usize],
    inputs: &[Vec<Named>],
) -> Result<(), AllocError>
    requires word { word < length arena.old.sizes }
    requires roles { NumbersBelow (length arena.old.keys) roles.now }
    requires terms { AreListsBelow (length arena.old.keys) (map terms_named (items_of inputs.now)) }
    requires each { length inputs.now ≡ length roles.now }
    ensures { OnOk result ((words : List (List ℕ)) → WordTerms words arena.old
        → AddsAtoms words arena.old arena.new atoms.old.keys atoms.new.keys
        (moves_by (word_at words word) (trees words arena.old.keys) roles.now (map terms_named (items_of inputs.now)))) }
{
    for place in 0..roles.len() {
        add_moves_of(alloc, arena, atoms, word, roles[place], &inputs[place])?;
    }
    Ok(())
}

/// What is stated, with texts.
fn name_all(
    alloc: Global,
    arena: &Arena,
    set: &RuleSet,
    collected: &Collected,
) -> Result<ContextTerms, AllocError>
    requires symbols { length arena.now.sizes ≡ length (lists_of_set set.now).words }
    requires roles { NumbersBelow (length arena.now.keys) collected.now.roles.items }
    requires base { NumbersBelow (length arena.now.keys) collected.now.base.items }
    requires inputs { AreListsBelow (length arena.now.keys) (items_of collected.now.inputs.items) }
    ensures { IfOk result (λ c. AreContext (trees (lists_of_set set.now).words arena.now.keys) collected.now.roles.items collected.now.base.items
        (items_of collected.now.inputs.items)
        c.roles.items c.base.items (items_of c.inputs.items)) }
{
    let roles = arena.with_texts(alloc, set, &collected.roles)?;
    let base = arena.sorted_by_text(alloc, set, &collected.base)?;
    let inputs = name_lists(alloc, arena, set, &collected.inputs)?;
    Ok(ContextTerms {
        roles,
        base,
        inputs,
    })
}

/// Numbers the atoms of the context: `true` of each base proposition, and `does` of each role and each of
/// its inputs.
fn number_all(
    alloc: Global,
    arena: &mut Arena,
    atoms: &mut NumberSet,
    words: Keywords,
    context: &ContextTerms,
) -> Result<(), AllocError>
    requires now { words.now < length arena.old.sizes }
    requires does { words.does < length arena.old.sizes }
    requires roles { NumbersBelow (length arena.old.keys) (terms_named context.now.roles.items) }
    requires base { NumbersBelow (length arena.old.keys) (terms_named context.now.base.items) }
    requires inputs { AreListsBelow (length arena.old.keys) (map terms_named (items_of context.now.inputs.items)) }
    requires each { length context.now.inputs.items ≡ length context.now.roles.items }
    ensures { OnOk result ((names : List (List ℕ)) → WordTerms names arena.old
        → AddsAtoms names arena.old arena.new atoms.old.keys atoms.new.keys
        (atoms_by names (trees names arena.old.keys) words (terms_named context.now.roles.items) (terms_named context.now.base.items)
        (map terms_named (items_of context.now.inputs.items)))) }
{
    let roles = terms_named(alloc, &context.roles)?;
    add_named(alloc, arena, atoms, words.now, &context.base)?;
    add_moves(alloc, arena, atoms, words.does, &roles, &context.inputs)?;
    Ok(())
}

/// The context of play of the atoms of the fixed relations, with its own atoms numbered behind those; the
/// base propositions and the inputs are counted before any is written.
pub fn list_context(
    alloc: Global,
    arena: &mut Arena,
    atoms: &mut NumberSet,
    set: &RuleSet,
    most: Most,
) -> Result<ContextTerms, GroundFault>
    requires numbered { AreNumbered (length arena.old.sizes) arena.old.keys }
    requires symbols { length arena.old.sizes ≡ length (lists_of_set set.now).words }
    requires atoms { NumbersBelow (length arena.old.keys) atoms.old.keys }
    ensures few { OnOk result (excess_stated most arena.old.keys (keywords_in set.now) atoms.old.keys ≡ None) }
    ensures fault { IfErr result (IsFaultOf (excess_stated most arena.old.keys (keywords_in set.now) atoms.old.keys)) }
    ensures context { IfOk result (λ c. AreContext (trees (lists_of_set set.now).words arena.old.keys)
        (roles_stated arena.old.keys (keywords_in set.now) atoms.old.keys) (bases_stated arena.old.keys (keywords_in set.now) atoms.old.keys)
        (inputs_stated arena.old.keys (keywords_in set.now) atoms.old.keys)
        c.roles.items c.base.items (items_of c.inputs.items)) }
    ensures added { IfOk result (λ c. (names : List (List ℕ)) → WordTerms names arena.old
        → AddsAtoms names arena.old arena.new atoms.old.keys atoms.new.keys
        (atoms_by names (trees names arena.old.keys) (keywords_in set.now) (terms_named c.roles.items) (terms_named c.base.items)
        (map terms_named (items_of c.inputs.items)))) }
{
    let words = set.keywords();
    let collected = collect(alloc, arena, words, atoms.as_slice())?;
    if let Some(excess) = excess_of(&collected, most) {
        return Err(GroundFault::TooMany(excess));
    }
    let context = name_all(alloc, arena, set, &collected)?;
    number_all(alloc, arena, atoms, words, &context)?;
    Ok(context)
}
