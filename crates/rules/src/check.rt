//! Whether a list of trees is a set of rules.
ghost use Rattle.std.specs.Prelude.{◌≡◌, length, map, IfOk, IfErr, OnOk, None};
ghost use Rattle.statement.specs.Tree.{text};
ghost use Rattle.kif.specs.View.{trees_in};
ghost use Rattle.statement.specs.RuleFaults.{PassesFirstTests, IsRuleFault};
ghost use Rattle.rules.specs.Drafts.{IsDraftOf};
ghost use Rattle.statement.specs.Items.{alternatives};
ghost use Rattle.statement.specs.Profile.{HasNoFault, first_failing, not_safe, is_unsafe, roles};
ghost use Rattle.statement.specs.Order.{relations_in_order};
ghost use Rattle.rules.specs.RuleSets.{AreKeywords, texts_of};
ghost use Rattle.rules.specs.Described.{IsDescribed};
ghost use Rattle.rules.specs.RuleSetView.{rules_in, roles_in};
ghost use Rattle.rules_clauses.specs.StoreView.{data_of};

use crate::draft::{Draft, each_alone, read_items};
use crate::keywords::number_keywords;
use crate::layout::{Layout, layout_of};
use crate::role_texts::role_texts;
use crate::rule_set::{Keywords, RuleSet};
use kif::Expr;
use rules_profile::{RuleFault, first_tests};
use std::alloc::{Allocator, Global};

/// Reads the items, if each is safe, and numbers the names that have a meaning in play.
fn read_all<A: Allocator>(alloc: Global, items: &[Expr<A>]) -> Result<(Draft, Keywords), RuleFault>
    requires { PassesFirstTests (trees_in items.now) }
    ensures read { IfOk result (λ both. IsDraftOf both.0 (trees_in items.now)) }
    ensures keywords { IfOk result (λ both. AreKeywords (data_of both.0.store).words both.1) }
    ensures safe { OnOk result (first_failing not_safe is_unsafe 1 (trees_in items.now) ≡ None) }
    ensures faults { IfErr result (λ fault. IsRuleFault (trees_in items.now) fault) }
{
    let mut draft = read_items(alloc, items)?;
    let keywords = number_keywords(&mut draft.store)?;
    Ok((draft, keywords))
}

/// Items without a fault, in numbers.
#[derive(Drop)]
struct Described {
    draft: Draft,
    keywords: Keywords,
    layout: Layout,
    roles: Vec<Vec<u8>>,
}

/// The items in numbers, or the fault that comes first.
fn describe<A: Allocator>(alloc: Global, items: &[Expr<A>]) -> Result<Described, RuleFault>
    ensures accepted { IfOk result (λ all. IsDescribed all (trees_in items.now)) }
    ensures refused { IfErr result (λ fault. IsRuleFault (trees_in items.now) fault) }
{
    let places = first_tests(items)?;
    let (draft, keywords) = read_all(alloc, items)?;
    let layout = layout_of(alloc, &draft)?;
    if places.is_empty() {
        return Err(RuleFault::NoRole);
    }
    let roles = role_texts(alloc, items, &places)?;
    Ok(Described {
        draft,
        keywords,
        layout,
        roles,
    })
}

impl RuleSet {
    /// The rule set that the items stand for, or the fault that comes first: of forms, of words, of
    /// limits, of safety, of dependence, or that no item states a role.
    pub fn check<A: Allocator>(alloc: Global, items: &[Expr<A>]) -> Result<RuleSet, RuleFault>
        ensures accepted { IfOk result (λ set. HasNoFault (trees_in items.now)
            × (rules_in set ≡ alternatives (trees_in items.now))
            × (roles_in set ≡ map text (roles (trees_in items.now)))) }
        ensures refused { IfErr result (λ fault. IsRuleFault (trees_in items.now) fault) }
    {
        let all = describe(alloc, items)?;
        let alternatives = each_alone(alloc, &all.draft.alternatives)?;
        let draft = all.draft;
        let layout = all.layout;
        Ok(RuleSet {
            store: draft.store,
            alternatives,
            fixed: layout.fixed,
            order: layout.order,
            roles: all.roles,
            keywords: all.keywords,
        })
    }
}

/// What a description has.
#[derive(Drop)]
pub struct Counts {
    /// How many alternatives its items have.
    pub alternatives: usize,
    /// How many relations head an alternative.
    pub relations: usize,
    /// The canonical texts of the roles, in the order in which the items state them first.
    pub roles: Vec<Vec<u8>>,
}

/// What the items have as a description, or the fault that comes first, as `RuleSet::check` finds it. Alternatives of one item share its
/// literals, so this takes little more memory where they are many.
pub fn count_rules<A: Allocator>(alloc: Global, items: &[Expr<A>]) -> Result<Counts, RuleFault>
    ensures accepted { IfOk result (λ counts. HasNoFault (trees_in items.now)
        × (counts.alternatives ≡ length (alternatives (trees_in items.now)))
        × (counts.relations ≡ length (relations_in_order (alternatives (trees_in items.now))))
        × (texts_of counts.roles.items ≡ map text (roles (trees_in items.now)))) }
    ensures refused { IfErr result (λ fault. IsRuleFault (trees_in items.now) fault) }
{
    let all = describe(alloc, items)?;
    let alternatives = all.draft.alternatives.len();
    let relations = all.layout.order.len();
    Ok(Counts {
        alternatives,
        relations,
        roles: all.roles,
    })
}
