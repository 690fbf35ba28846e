//! The roles, base propositions and inputs as sets of terms, and their texts.
ghost use Rattle.std.specs.Prelude.{◌≡◌, [], map, IfOk};
ghost use Rattle.rules.specs.RuleSets.{texts_of};
ghost use Rattle.ground_terms.specs.Vectors.{items_of};
ghost use Rattle.ground_rows.specs.Contexts.{terms_named, texts_named};
ghost use Rattle.ground_terms.specs.Atoms.{with_numbers};

use ground_listing::ContextTerms;
use ground_terms::{Named, NumberSet};
use std::alloc::{AllocError, Global};

/// The roles, the base propositions and the inputs of each role, as terms that have the place that they stand
/// in as their number.
#[derive(Drop)]
pub struct Tables {
    pub roles: NumberSet,
    pub base: NumberSet,
    /// Those of each role.
    pub inputs: Vec<NumberSet>,
}

/// The terms that are named, each once.
fn set_of(alloc: Global, named: &[Named]) -> Result<NumberSet, AllocError>
    ensures { IfOk result (λ set. set.keys ≡ with_numbers [] (terms_named named.now)) }
{
    let mut set = NumberSet::new(alloc);
    for one in named {
        set.insert(one.term)?;
    }
    Ok(set)
}

/// The terms of each list, each once.
fn sets_of(alloc: Global, lists: &[Vec<Named>]) -> Result<Vec<NumberSet>, AllocError>
    ensures { IfOk result (λ sets. map (λ s. s.keys) sets.items ≡ map (λ ns. with_numbers [] (terms_named ns)) (items_of lists.now)) }
{
    let mut sets = Vec::with_capacity(alloc, lists.len())?;
    for list in lists {
        sets.push(set_of(alloc, list)?)?;
    }
    Ok(sets)
}

/// The roles, base propositions and inputs as sets.
pub fn tables_of(alloc: Global, context: &ContextTerms) -> Result<Tables, AllocError>
    ensures roles { IfOk result (λ t. t.roles.keys ≡ with_numbers [] (terms_named context.now.roles.items)) }
    ensures base { IfOk result (λ t. t.base.keys ≡ with_numbers [] (terms_named context.now.base.items)) }
    ensures inputs { IfOk result (λ t. map (λ s. s.keys) t.inputs.items ≡ map (λ ns. with_numbers [] (terms_named ns))
        (items_of context.now.inputs.items)) }
{
    let roles = set_of(alloc, &context.roles)?;
    let base = set_of(alloc, &context.base)?;
    let inputs = sets_of(alloc, &context.inputs)?;
    Ok(Tables {
        roles,
        base,
        inputs,
    })
}

/// The texts of the roles, of the base propositions, and of the inputs of each role.
#[derive(Drop)]
pub struct Texts {
    pub roles: Vec<Vec<u8>>,
    pub base: Vec<Vec<u8>>,
    pub inputs: Vec<Vec<Vec<u8>>>,
}

/// The same bytes in memory of their own.
pub fn copy_of(alloc: Global, text: &[u8]) -> Result<Vec<u8>, AllocError>
    ensures { IfOk result (λ copy. copy.items ≡ text.now) }
{
    let mut copy = Vec::with_capacity(alloc, text.len())?;
    copy.extend_from_slice(text)?;
    Ok(copy)
}

/// The texts of what is named.
fn texts_named(alloc: Global, named: &[Named]) -> Result<Vec<Vec<u8>>, AllocError>
    ensures { IfOk result (λ texts. texts_of texts.items ≡ texts_named named.now) }
{
    let mut texts = Vec::with_capacity(alloc, named.len())?;
    for one in named {
        texts.push(copy_of(alloc, &one.text)?)?;
    }
    Ok(texts)
}

/// The texts of each list.
fn texts_of_lists(alloc: Global, lists: &[Vec<Named>]) -> Result<Vec<Vec<Vec<u8>>>, AllocError>
    ensures { IfOk result (λ texts. map (λ v. texts_of v.items) texts.items ≡ map texts_named (items_of lists.now)) }
{
    let mut texts = Vec::with_capacity(alloc, lists.len())?;
    for list in lists {
        texts.push(texts_named(alloc, list)?)?;
    }
    Ok(texts)
}

/// The texts of the context.
pub fn texts_of(alloc: Global, context: &ContextTerms) -> Result<Texts, AllocError>
    ensures roles { IfOk result (λ t. texts_of t.roles.items ≡ texts_named context.now.roles.items) }
    ensures base { IfOk result (λ t. texts_of t.base.items ≡ texts_named context.now.base.items) }
    ensures inputs { IfOk result (λ t. map (λ v. texts_of v.items) t.inputs.items ≡ map texts_named (items_of context.now.inputs.items)) }
{
    let roles = texts_named(alloc, &context.roles)?;
    let base = texts_named(alloc, &context.base)?;
    let inputs = texts_of_lists(alloc, &context.inputs)?;
    Ok(Texts {
        roles,
        base,
        inputs,
    })
}
