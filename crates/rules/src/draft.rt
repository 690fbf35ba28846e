//! A rule set that is read item by item.
ghost use Rattle.std.specs.Prelude.{◌≡◌, ◌++◌, true, map, IfOk, IfErr, OnOk, None};
ghost use Rattle.kif.specs.View.{tree_of, trees_in};
ghost use Rattle.rules.specs.Drafts.{numbered, shared, numbered_of, AddsItem, IsDraftOf, IsSafetyFault};
ghost use Rattle.statement.specs.Items.{is_item};
ghost use Rattle.rules_clauses.specs.Numbers.{NamesDiffer};
ghost use Rattle.rules_profile.specs.Parts.{AreItems};
ghost use Rattle.statement.specs.Profile.{first_failing, not_safe, is_unsafe};
ghost use Rattle.rules_clauses.specs.StoreView.{data_of};

use crate::bodies::{is_resting, relations_of};
use crate::item_links::Links;
use kif::Expr;
use rules_clauses::{
    Alternative, Item, SharedAlternative, Store, is_safe_item, numbers_at, read_item,
};
use rules_profile::RuleFault;
use std::alloc::{AllocError, Allocator, Global};

/// What was read so far: names, relations and terms, the alternatives, and for each item what its
/// alternatives join and whether one of them has a literal.
#[derive(Drop)]
pub(crate) struct Draft {
    pub(crate) store: Store,
    pub(crate) alternatives: Vec<SharedAlternative>,
    pub(crate) links: Vec<Links>,
    pub(crate) rests: Vec<bool>,
}

/// Adds the alternatives of an item.
fn add_alternatives(item: Item, out: &mut Vec<SharedAlternative>) -> Result<(), AllocError>
    ensures { OnOk result (map shared out.new.items ≡ map shared out.old.items ++ numbered_of item) }
{
    let head = item.head;
    let variables = item.variables;
    for body in item.bodies {
        out.push(SharedAlternative {
            variables,
            head,
            body,
        })?;
    }
    Ok(())
}

/// An alternative with the numbers of its literals.
fn alone(alloc: Global, alternative: &SharedAlternative) -> Result<Alternative, AllocError>
    ensures { IfOk result (λ own. numbered own ≡ shared alternative.now) }
{
    Ok(Alternative {
        variables: alternative.variables,
        head: alternative.head,
        body: numbers_at(alloc, &alternative.body)?,
    })
}

/// Alternatives with the numbers of their literals, each for itself.
pub(crate) fn each_alone(
    alloc: Global,
    alternatives: &[SharedAlternative],
) -> Result<Vec<Alternative>, AllocError>
    ensures { IfOk result (λ all. map numbered all.items ≡ map shared alternatives.now) }
{
    let mut all = Vec::new(alloc);
    for alternative in alternatives {
        all.push(alone(alloc, alternative)?)?;
    }
    Ok(all)
}

/// Adds an item, unless one of its alternatives is not safe.
pub(crate) fn add_item<A: Allocator>(
    alloc: Global,
    draft: &mut Draft,
    e: &Expr<A>,
) -> Result<bool, AllocError>
    requires item { is_item (tree_of e.now) ≡ true }
    requires words { NamesDiffer (data_of draft.old.store).words }
    ensures { IfOk result (λ is_safe. AddsItem draft.old draft.new (tree_of e.now) is_safe) }
{
    let item = read_item(alloc, &mut draft.store, e)?;
    if !is_safe_item(alloc, &draft.store, &item)? {
        return Ok(false);
    }
    let body = relations_of(alloc, &draft.store, &item)?;
    let head = item.head.relation;
    draft.links.push(Links { head, body })?;
    let rests = is_resting(alloc, &item)?;
    draft.rests.push(rests)?;
    add_alternatives(item, &mut draft.alternatives)?;
    Ok(true)
}

/// Reads all items, up to the first that is not safe.
pub(crate) fn read_items<A: Allocator>(alloc: Global, items: &[Expr<A>]) -> Result<Draft, RuleFault>
    requires { AreItems (trees_in items.now) }
    ensures read { IfOk result (λ draft. IsDraftOf draft (trees_in items.now)) }
    ensures safe { OnOk result (first_failing not_safe is_unsafe 1 (trees_in items.now) ≡ None) }
    ensures faults { IfErr result (λ fault. IsSafetyFault (trees_in items.now) fault) }
{
    let mut draft = Draft {
        store: Store::new(alloc),
        alternatives: Vec::new(alloc),
        links: Vec::new(alloc),
        rests: Vec::new(alloc),
    };
    for (index, item) in items.iter().enumerate() {
        if !add_item(alloc, &mut draft, item)? {
            return Err(RuleFault::Unsafe(index + 1));
        }
    }
    Ok(draft)
}
