//! Alternatives whose instances have all the same body.
//!
//! Where each literal is of a fixed relation or has no variables, what is kept of the body is the same in each row, and so is whether a
//! negated literal is read. It is made for the first row that passes; of the others only those literals are asked that a row may fail at.
ghost use Rattle.std.specs.Prelude.{ℕ, List, Option, ◌≡◌, ◌<◌, length, false, true, IfOk};
ghost use Rattle.rules_clauses.specs.Marks.{literal_in};
ghost use Rattle.ground_rows.specs.Pairs.{HaveSameValues, simple_number};
ghost use Rattle.ground_rows.specs.Sharing.{AreCommon, IsCommon, IsLean, failing};
ghost use Rattle.ground_matching.specs.Placed.{placed_atom, placed_body};
ghost use Rattle.ground_matching.specs.Plans.{CanBuild, CanBuildEach, HaveRelations};
ghost use Rattle.rules.specs.Drafts.{numbered};
ghost use Rattle.rules.specs.RuleSetView.{lists_of_set, rules_in};
ghost use Rattle.ground_terms.specs.Vectors.{items_of};

use crate::collected::passes_always;
use ground_matching::{Join, RowPlan, parts_at, plan_of};
use ground_rows::{Lean, sought_atoms, steps_of};
use ground_terms::Terms;
use rules::{Alternative, Part, RuleSet};
use std::alloc::{AllocError, Global};

/// Whether a part with a place is a variable.
fn is_variable(part: Part) -> bool
    ensures { result ≡ false → (xs ys : List ℕ) → simple_number xs part ≡ simple_number ys part }
{
    match part {
        Part::Variable(_) => true,
        Part::Constant(_) => false,
        Part::List(_, _) => false,
    }
}

/// Whether parts with places have no variables.
fn have_no_variables(parts: &[Part]) -> bool
    ensures { result ≡ true → (xs ys : List ℕ) → HaveSameValues xs ys parts.now }
{
    for part in parts {
        if is_variable(*part) {
            return false;
        }
    }
    true
}

/// Whether what is kept of a literal, whose atom has these parts with places, is the same in each row.
fn is_common(set: &RuleSet, number: usize, parts: &[Part]) -> bool
    requires number { number < length (lists_of_set set.now).literals }
    requires relation { (literal_in (lists_of_set set.now) number).atom.relation < length (lists_of_set set.now).signatures }
    ensures { result ≡ true → (from : ℕ) (places : List (Option ℕ))
        → parts.now ≡ placed_atom (lists_of_set set.now) from places (literal_in (lists_of_set set.now) number).atom
        → IsCommon (rules_in set.now) (lists_of_set set.now) from places number }
{
    if set.is_fixed(set.literal(number).atom.relation) {
        return true;
    }
    have_no_variables(parts)
}

/// Whether what is kept of the body of an alternative is the same in each row.
fn are_common(set: &RuleSet, numbers: &[usize], plan: &RowPlan) -> bool
    requires relations { HaveRelations (lists_of_set set.now) numbers.now }
    requires parts { length plan.now.body.items ≡ length numbers.now }
    ensures { result ≡ true → (from : ℕ) (places : List (Option ℕ))
        → items_of plan.now.body.items ≡ placed_body (lists_of_set set.now) from places numbers.now
        → AreCommon (rules_in set.now) (lists_of_set set.now) from places numbers.now }
{
    for (index, number) in numbers.iter().enumerate() {
        if !is_common(set, *number, parts_at(&plan.body, index)) {
            return false;
        }
    }
    true
}

/// The literals of a body that a row may fail at.
fn failing_literals(
    alloc: Global,
    set: &RuleSet,
    numbers: &[usize],
) -> Result<Vec<usize>, AllocError>
    requires { HaveRelations (lists_of_set set.now) numbers.now }
    ensures { IfOk result (λ v. v.items ≡ failing (rules_in set.now) (lists_of_set set.now) numbers.now) }
{
    let mut failing = Vec::new(alloc);
    for number in numbers {
        if passes_always(set, *number) {
            continue;
        }
        failing.push(*number)?;
    }
    Ok(failing)
}

/// Nothing is shared.
fn no_lean(alloc: Global, alternative: &Alternative) -> Lean
    ensures { result.shares ≡ false }
{
    Lean {
        shares: false,
        alternative: Alternative {
            variables: alternative.variables,
            head: alternative.head,
            body: Vec::new(alloc),
        },
        plan: RowPlan {
            head: Vec::new(alloc),
            body: Vec::new(alloc),
            marks: Vec::new(alloc),
        },
        steps: Vec::new(alloc),
        sought: Vec::new(alloc),
    }
}

/// What is asked of a row of an alternative with a plan, whose rows are those of a join, if all instances have the same body. Where it has
/// one row there is nothing to share. The terms are those that are there now.
pub fn lean_of(
    alloc: Global,
    set: &RuleSet,
    terms: &Terms,
    alternative: &Alternative,
    plan: &RowPlan,
    join: &Join,
) -> Result<Lean, AllocError>
    requires body { items_of plan.now.body.items ≡ placed_body (lists_of_set set.now) alternative.now.variables.from join.now.places.items
        alternative.now.body.items }
    requires head { CanBuild (lists_of_set set.now) alternative.now.variables.from join.now.places.items alternative.now.head }
    requires each { CanBuildEach (lists_of_set set.now) alternative.now.variables.from join.now.places.items alternative.now.body.items }
    ensures { IfOk result (λ l. l.shares ≡ true → IsLean (rules_in set.now) (lists_of_set set.now) terms.now join.now.places.items (numbered alternative.now) l) }
{
    if join.levels.len() == 0 {
        return Ok(no_lean(alloc, alternative));
    }
    if !are_common(set, &alternative.body, plan) {
        return Ok(no_lean(alloc, alternative));
    }
    let lean = Alternative {
        variables: alternative.variables,
        head: alternative.head,
        body: failing_literals(alloc, set, &alternative.body)?,
    };
    let own = plan_of(alloc, set, &lean, &join.places)?;
    let steps = steps_of(alloc, &own, &[])?;
    let sought = sought_atoms(alloc, set, terms, &lean, &own)?;
    Ok(Lean {
        shares: true,
        alternative: lean,
        plan: own,
        steps,
        sought,
    })
}
