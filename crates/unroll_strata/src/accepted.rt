//! Whether a text is accepted, and has the roles of items.
ghost use Rattle.std.specs.Prelude.{◌≡◌, [], ◌∷◌, List, IfOk, IfErr, OnOk, map};
ghost use Rattle.std.specs.Bool.{OnTrue};
ghost use Rattle.statement.specs.Tree.{Tree, trees_of, text as canonical};
ghost use Rattle.statement.specs.Reading.{Reads};
ghost use Rattle.statement.specs.Profile.{roles};
ghost use Rattle.kif.specs.View.{trees_in};
ghost use Rattle.rules_profile.specs.Stated.{role_stated, roles_at};
ghost use Rattle.rules.specs.RuleSetView.{roles_in};
ghost use Rattle.unroll_strata.specs.Lawful.{IsAccepted, IsRefusal};

use crate::fault::UnrollFault;
use kif::{Expr, KifFault, read, text_is};
use rules::RuleSet;
use rules_profile::role_of;
use statement::RuleFault;
use std::alloc::Global;
use unroll_datalog::Excess;

/// Whether the item at a place states a role of this text.
fn is_role(items: &[Expr<Global>], place: usize, text: &[u8]) -> bool
    ensures { OnTrue result (map canonical (role_stated (trees_in items.now) place) ≡ text.now ∷ []) }
{
    if place >= items.len() {
        return false;
    }
    match role_of(&items[place]) {
        Some(role) => text_is(role, text),
        None => false,
    }
}

/// Whether the roles at places of items have the texts of the roles of a rule set, in the same order.
fn has_roles(items: &[Expr<Global>], places: &[usize], rules: &RuleSet) -> bool
    ensures { OnTrue result (map canonical (roles_at (trees_in items.now) places.now) ≡ roles_in rules.now) }
{
    if places.len() != rules.roles() {
        return false;
    }
    for (role, place) in places.iter().enumerate() {
        if !is_role(items, *place, rules.role_text(role)) {
            return false;
        }
    }
    true
}

/// The items of a text that was written.
pub fn read_back(alloc: Global, out: &[u8]) -> Result<Vec<Expr<Global>>, UnrollFault>
    ensures items { IfOk result (λ items. Reads out.now (trees_of (trees_in items.items))) }
    ensures fault { IfErr result (λ fault. (items : List Tree) → IsRefusal items fault) }
{
    match read(alloc, out) {
        Ok(items) => Ok(items),
        Err(KifFault::NoMemory) => Err(UnrollFault::NoMemory),
        Err(_) => Err(UnrollFault::TooMany(Excess::Text)),
    }
}

/// The rule set of what was written.
fn written_rules(alloc: Global, written: &[Expr<Global>]) -> Result<RuleSet, UnrollFault>
    ensures accepted { IfOk result (λ rules. IsAccepted (roles_in rules) (trees_in written.now)) }
    ensures fault { IfErr result (λ fault. (items : List Tree) → IsRefusal items fault) }
{
    match RuleSet::check(alloc, written) {
        Ok(rules) => Ok(rules),
        Err(RuleFault::NoMemory) => Err(UnrollFault::NoMemory),
        Err(_) => Err(UnrollFault::TooMany(Excess::Items)),
    }
}

/// Whether what was written is accepted and has the roles of the items, which stand at these places. If not it is told as items that are
/// too many.
pub fn accept(
    alloc: Global,
    items: &[Expr<Global>],
    places: &[usize],
    written: &[Expr<Global>],
) -> Result<(), UnrollFault>
    requires { roles_at (trees_in items.now) places.now ≡ roles (trees_in items.now) }
    ensures accepted { OnOk result (IsAccepted (map canonical (roles (trees_in items.now))) (trees_in written.now)) }
    ensures fault { IfErr result (IsRefusal (trees_in items.now)) }
{
    if places.is_empty() {
        return Err(UnrollFault::Rules(RuleFault::NoRole));
    }
    let rules = match written_rules(alloc, written) {
        Ok(rules) => rules,
        Err(fault) => return Err(fault),
    };
    if has_roles(items, places, &rules) {
        return Ok(());
    }
    Err(UnrollFault::TooMany(Excess::Items))
}
