//! The heads without effect in a description.
ghost use Rattle.std.specs.Prelude.{ℕ, ◌≡◌, ◌<◌, List, length, IfOk, IfErr, IfSome, OnOk};
ghost use Rattle.std.specs.List.{All, AllPairs};
ghost use Rattle.ground_join.specs.Joining.{joined};
ghost use Rattle.ground_join_plans.specs.Matches.{AreMatched};
ghost use Rattle.statement.specs.Tree.{Tree, text};
ghost use Rattle.statement.specs.Items.{alternatives};
ghost use Rattle.statement.specs.declared.width.Width.TheVariants.{Wide};
ghost use Rattle.statement.specs.Limits.{excess_in};
ghost use Rattle.kif.specs.View.{trees_in};
ghost use Rattle.rules.specs.RuleSetView.{rules_in};
ghost use Rattle.ground_instances.specs.Lists.{AreLaid, numbers_of_list};
ghost use Rattle.ground_terms.specs.Keys.{term_at, trees};
ghost use Rattle.ground_terms.specs.Vectors.{items_of};
ghost use Rattle.ground_listing.specs.AllListed.{IsAllListed};
ghost use Rattle.ground_rows.specs.Progress.{IsFaultOf};
ghost use Rattle.ground_rows.specs.SetWords.{words_of};
ghost use Rattle.diagnose_lint.specs.Effects.{HasLackingHead, IsTrueDropped, IsBefore};
ghost use Rattle.diagnose_lint.specs.DroppedFindings.{AreFindings};
ghost use Rattle.diagnose_lint.specs.Owners.{AreOwners};

use crate::dropped_finding::{Dropped, Lack};
use crate::effects::{key_of, lack_of};
use crate::owners::owners_of;
use crate::searching::{Candidate, candidates};
use ground::limits_of_width;
use ground_join_plans::{Body, Matched};
use ground_listing::{GroundFault, Listed, list_all};
use kif::Expr;
use rules::RuleSet;
use statement::Width;
use std::alloc::{AllocError, Allocator, Global};

/// All that is listed of rules, on one thread.
pub(crate) fn listed_of(alloc: Global, rules: &RuleSet) -> Result<Listed, GroundFault>
    ensures listed { IfOk result (λ l. IsAllListed (rules_in rules.now) (words_of rules.now) l.arena l.atoms.keys (numbers_of_list l.found)
        l.fixed_atoms
        l.context.roles.items l.context.base.items (items_of l.context.inputs.items)) }
    ensures laid { IfOk result (λ l. AreLaid l.found) }
    ensures fault { IfErr result (IsFaultOf (excess_in Wide (rules_in rules.now))) }
{
    let matcher = |body: &Body<'_>, limit: usize| -> Result<Matched, AllocError>
        ensures { IfOk result (AreMatched limit (joined body.now.columns.now body.now.cells.now body.now.levels.now)) }
    { Ok(Matched::Declined) };
    list_all(alloc, rules, limits_of_width(Width::Wide), &matcher)
}

/// The text of a term.
fn text_of(
    alloc: Global,
    rules: &RuleSet,
    listed: &Listed,
    number: usize,
) -> Result<Vec<u8>, AllocError>
    requires listed { IsAllListed (rules_in rules.now) (words_of rules.now) listed.now.arena listed.now.atoms.keys
        (numbers_of_list listed.now.found) listed.now.fixed_atoms
        listed.now.context.roles.items listed.now.context.base.items (items_of listed.now.context.inputs.items) }
    requires number { number < length listed.now.arena.keys }
    ensures { IfOk result (λ bytes. bytes.items ≡ text (term_at (trees (words_of rules.now) listed.now.arena.keys) number)) }
{
    let mut text = Vec::new(alloc);
    let mut pending = Vec::new(alloc);
    listed
        .arena
        .write_term(rules, number, &mut text, &mut pending)?;
    Ok(text)
}

/// The alternative of a kept instance, and what its head lacks and its text, if it lacks something.
fn head_at(
    alloc: Global,
    rules: &RuleSet,
    listed: &Listed,
    index: usize,
) -> Result<Option<(usize, Lack, Vec<u8>)>, AllocError>
    requires listed { IsAllListed (rules_in rules.now) (words_of rules.now) listed.now.arena listed.now.atoms.keys
        (numbers_of_list listed.now.found) listed.now.fixed_atoms
        listed.now.context.roles.items listed.now.context.base.items (items_of listed.now.context.inputs.items) }
    requires laid { AreLaid listed.now.found }
    ensures { IfOk result (λ found. IfSome found (λ head. HasLackingHead (rules_in rules.now) head.0 head.1 head.2.items)) }
{
    if index >= listed.found.count() {
        return Ok(None);
    }
    let head = listed.found.head(index) as usize;
    let alternative = listed.found.alternative(index) as usize;
    if head >= listed.arena.len() {
        return Ok(None);
    }
    let Some(lack) = lack_of(rules, listed, key_of(&listed.arena, head)) else {
        return Ok(None);
    };
    let text = text_of(alloc, rules, listed, head)?;
    Ok(Some((alternative, lack, text)))
}

/// What is found of an instance of an item, if it is one of it and its head has no effect on play.
fn finding_at(
    alloc: Global,
    rules: &RuleSet,
    listed: &Listed,
    owners: &[usize],
    candidate: Candidate,
) -> Result<Option<Dropped>, AllocError>
    requires listed { IsAllListed (rules_in rules.now) (words_of rules.now) listed.now.arena listed.now.atoms.keys
        (numbers_of_list listed.now.found) listed.now.fixed_atoms
        listed.now.context.roles.items listed.now.context.base.items (items_of listed.now.context.inputs.items) }
    requires laid { AreLaid listed.now.found }
    ensures truth { IfOk result (λ found. IfSome found (λ d. (ts : List Tree) → AreOwners ts owners.now → rules_in rules.now ≡ alternatives ts
        → IsTrueDropped ts d)) }
    ensures place { IfOk result (λ found. IfSome found (λ d. d.place ≡ candidate.place)) }
{
    let Some((alternative, lack, text)) = head_at(alloc, rules, listed, candidate.index)? else {
        return Ok(None);
    };
    if alternative >= owners.len() || owners[alternative] != candidate.place {
        return Ok(None);
    }
    Ok(Some(Dropped {
        place: candidate.place,
        lack,
        text,
        more: candidate.more,
    }))
}

/// What is found, and the place of the first item behind those of which something is.
#[derive(Drop)]
struct Findings {
    found: Vec<Dropped>,
    next: usize,
}

/// Adds what is found of an instance of an item, if the item stands behind those of which something is found.
fn add_finding(
    alloc: Global,
    rules: &RuleSet,
    listed: &Listed,
    owners: &[usize],
    candidate: Candidate,
    findings: &mut Findings,
) -> Result<(), AllocError>
    requires listed { IsAllListed (rules_in rules.now) (words_of rules.now) listed.now.arena listed.now.atoms.keys
        (numbers_of_list listed.now.found) listed.now.fixed_atoms
        listed.now.context.roles.items listed.now.context.base.items (items_of listed.now.context.inputs.items) }
    requires laid { AreLaid listed.now.found }
    requires findings { AreFindings (rules_in rules.now) owners.now findings.old.next findings.old.found.items }
    ensures { OnOk result (AreFindings (rules_in rules.now) owners.now findings.new.next findings.new.found.items) }
{
    if candidate.place < findings.next || candidate.place == usize::MAX {
        return Ok(());
    }
    let Some(dropped) = finding_at(alloc, rules, listed, owners, candidate)? else {
        return Ok(());
    };
    findings.next = candidate.place + 1;
    findings.found.push(dropped)?;
    Ok(())
}

/// What is found of instances of items, of which each stands behind those before.
fn findings_of(
    alloc: Global,
    rules: &RuleSet,
    listed: &Listed,
    owners: &[usize],
    candidates: &[Candidate],
) -> Result<Vec<Dropped>, AllocError>
    requires listed { IsAllListed (rules_in rules.now) (words_of rules.now) listed.now.arena listed.now.atoms.keys
        (numbers_of_list listed.now.found) listed.now.fixed_atoms
        listed.now.context.roles.items listed.now.context.base.items (items_of listed.now.context.inputs.items) }
    requires laid { AreLaid listed.now.found }
    ensures { IfOk result (λ found. (next : ℕ) × AreFindings (rules_in rules.now) owners.now next found.items) }
{
    let mut findings = Findings {
        found: Vec::new(alloc),
        next: 0,
    };
    for candidate in candidates {
        add_finding(alloc, rules, listed, owners, *candidate, &mut findings)?;
    }
    Ok(findings.found)
}

/// The heads that have no effect on play, of each item the first with the number of further ones, in the order of the items. Where no item
/// states `base` no `init` and `next` is told, and where none states `input` no `legal`. It fails for want of memory, and where the rules
/// pass a limit of the wide ones.
pub fn dropped_heads<A: Allocator>(
    alloc: Global,
    items: &[Expr<A>],
    rules: &RuleSet,
) -> Result<Vec<Dropped>, GroundFault>
    ensures each { rules_in rules.now ≡ alternatives (trees_in items.now)
        → IfOk result (λ found. All (IsTrueDropped (trees_in items.now)) found.items) }
    ensures once { IfOk result (λ found. AllPairs IsBefore found.items) }
    ensures fault { IfErr result (IsFaultOf (excess_in Wide (rules_in rules.now))) }
{
    let listed = listed_of(alloc, rules)?;
    let owners = owners_of(alloc, items, rules.alternatives().len())?;
    let candidates = candidates(alloc, items, rules, &listed, &owners)?;
    let found = findings_of(alloc, rules, &listed, &owners, &candidates)?;
    Ok(found)
}
