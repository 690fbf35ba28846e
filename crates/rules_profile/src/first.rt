//! The tests of forms, words and limits, which come first and take no memory.
ghost use Rattle.std.specs.Prelude.{◌≡◌, IfOk, IfErr, OnOk};
ghost use Rattle.kif.specs.View.{trees_in};
ghost use Rattle.statement.specs.RuleFaults.{PassesFirstTests, IsRuleFault};
ghost use Rattle.statement.specs.Profile.{roles};
ghost use Rattle.rules_profile.specs.Stated.{AreRolePlaces, roles_at};

use crate::forms::first_bad_form;
use crate::limits::ROLES_LIMIT;
use crate::places::first_misused_word;
use crate::roles::roles_within_limits;
use arrayvec::ArrayVec;
use kif::Expr;
use statement::RuleFault;
use std::alloc::Allocator;

/// The places of the items that state each role for the first time, if the tests of forms, words and
/// limits are passed. They take no memory.
pub fn first_tests<A: Allocator>(
    items: &[Expr<A>],
) -> Result<ArrayVec<usize, ROLES_LIMIT>, RuleFault>
    ensures passed { OnOk result (PassesFirstTests (trees_in items.now)) }
    ensures roles { IfOk result (λ places. roles_at (trees_in items.now) places.items ≡ roles (trees_in items.now)) }
    ensures places { IfOk result (λ places. AreRolePlaces (trees_in items.now) places.items) }
    ensures faults { IfErr result (λ fault. IsRuleFault (trees_in items.now) fault) }
{
    if let Some(item) = first_bad_form(items) {
        return Err(RuleFault::BadForm(item));
    }
    if let Some(item) = first_misused_word(items) {
        return Err(RuleFault::BadKeyword(item));
    }
    roles_within_limits(items)
}
