//! Whether items are lawful in the whole language.
ghost use Rattle.std.specs.Prelude.{◌≡◌, List, IfOk, IfErr, OnOk};
ghost use Rattle.std.specs.Bool.{OnTrue, OnFalse};
ghost use Rattle.statement.specs.Tree.{Tree, trees_of};
ghost use Rattle.statement.specs.Reading.{Reads};
ghost use Rattle.statement.specs.Profile.{HasNoFault, roles};
ghost use Rattle.statement.specs.RuleFaults.{IsRuleFault};
ghost use Rattle.kif.specs.View.{trees_in};
ghost use Rattle.rules_profile.specs.Stated.{roles_at};
ghost use Rattle.unroll_strata.specs.Lawful.{AreStratified, IsRecursive, IsRefusal, IsUnread};

use crate::fault::UnrollFault;
use crate::stratified::first_unstratified;
use arrayvec::ArrayVec;
use kif::{Expr, KifFault, read};
use rules::RuleSet;
use rules_profile::{ROLES_LIMIT, first_tests};
use statement::RuleFault;
use std::alloc::Global;

/// The items of a text.
pub fn found_items(alloc: Global, text: &[u8]) -> Result<Vec<Expr<Global>>, UnrollFault>
    ensures items { IfOk result (λ items. Reads text.now (trees_of (trees_in items.items))) }
    ensures fault { IfErr result (IsUnread text.now) }
{
    match read(alloc, text) {
        Ok(items) => Ok(items),
        Err(KifFault::NoMemory) => Err(UnrollFault::NoMemory),
        Err(fault) => Err(UnrollFault::Text(fault)),
    }
}

/// The fault of items, where it is not recursion. Any other call is answered by want of memory.
fn refusal_of(fault: RuleFault) -> UnrollFault
    ensures { (items : List Tree) → IsRuleFault items fault → IsRefusal items result }
{
    match fault {
        RuleFault::NoMemory => UnrollFault::NoMemory,
        RuleFault::Recursive(_) => UnrollFault::NoMemory,
        other => UnrollFault::Rules(other),
    }
}

/// The places of the items that state each role for the first time, if the tests of forms, words and limits are passed.
pub fn role_places(items: &[Expr<Global>]) -> Result<ArrayVec<usize, ROLES_LIMIT>, UnrollFault>
    ensures roles { IfOk result (λ places. roles_at (trees_in items.now) places.items ≡ roles (trees_in items.now)) }
    ensures fault { IfErr result (IsRefusal (trees_in items.now)) }
{
    match first_tests(items) {
        Ok(places) => Ok(places),
        Err(fault) => Err(refusal_of(fault)),
    }
}

/// Whether items rest on themselves. Items with another fault are refused.
pub fn is_recursive(alloc: Global, items: &[Expr<Global>]) -> Result<bool, UnrollFault>
    ensures yes { IfOk result (λ is_so. OnTrue is_so (IsRecursive (trees_in items.now))) }
    ensures no { IfOk result (λ is_so. OnFalse is_so (HasNoFault (trees_in items.now))) }
    ensures fault { IfErr result (IsRefusal (trees_in items.now)) }
{
    let Err(fault) = RuleSet::check(alloc, items) else {
        return Ok(false);
    };
    match fault {
        RuleFault::Recursive(_) => Ok(true),
        other => Err(refusal_of(other)),
    }
}

/// Refuses items of which a head rests on itself through a negated atom.
pub fn refuse_crossed(alloc: Global, items: &[Expr<Global>]) -> Result<(), UnrollFault>
    ensures stratified { OnOk result (AreStratified (trees_in items.now)) }
    ensures fault { IfErr result (IsRefusal (trees_in items.now)) }
{
    match first_unstratified(alloc, items) {
        Ok(None) => Ok(()),
        Ok(Some(item)) => Err(UnrollFault::NotStratified(item)),
        Err(_) => Err(UnrollFault::NoMemory),
    }
}
