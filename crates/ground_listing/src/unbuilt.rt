//! Negated literals whose atoms are looked up and not made.
//!
//! The key of an atom without lists is its word and the numbers of its terms. One that is no key of a term is no atom found so far, so the
//! literal passes, and is not read. The key of a long one is kept (`sought`), as is that of one whose lists have no variables, and that of
//! another is written part by part.
ghost use Rattle.std.specs.Prelude.{List, ◌≡◌, Some, slice_get, IfOk, IfSome};
ghost use Rattle.statement.specs.Clause as said;
ghost use Rattle.statement.specs.Listing.{passes};
ghost use Rattle.rules_clauses.specs.Marks.{literal_in};
ghost use Rattle.ground_rows.specs.Instances.{IsRow, IsNumberIn, atom_by, literal_by};
ghost use Rattle.ground_rows.specs.Rows.{IsPlanned};
ghost use Rattle.ground_rows.specs.SetWords.{words_of};
ghost use Rattle.rules.specs.RuleSetView.{lists_of_set, rules_in};
ghost use Rattle.ground_terms.specs.Atoms.{AreAtoms, WordTerms};
ghost use Rattle.ground_terms.specs.Keys.{trees};

use ground_matching::{is_distinct, parts_at};
use ground_rows::{Planned, Rows, Sought, is_passing, put_key, put_sought, sought_at};
use ground_terms::Arena;
use rules::Literal;
use std::alloc::AllocError;

/// The same as `number_unbuilt`, where something is kept of the literal.
fn number_sought(
    rows: &Rows<'_>,
    arena: &Arena,
    planned: &Planned,
    sought: &Sought,
    values: &[u32],
    key: &mut Vec<u32>,
) -> Result<Option<Option<usize>>, AllocError>
    requires terms { WordTerms (words_of rows.now.set.now) arena.now }
    requires row { IsRow (lists_of_set rows.now.set.now) arena.now.keys rows.now.places.now values.now }
    requires planned { IsPlanned rows.now arena.now.keys planned.now }
    requires kept { slice_get rows.now.sought.now planned.now.index ≡ Some (Some sought.now) }
    ensures { IfOk result (λ told. IfSome told (λ number. IsNumberIn (words_of rows.now.set.now) arena.now.keys rows.now.atoms.now.keys (atom_by
        (lists_of_set rows.now.set.now) rows.now.alternative.now.variables.from arena.now.keys rows.now.places.now values.now planned.now.number)
        number)) }
{
    let Some(blank) = &sought.key else {
        return Ok(Some(None));
    };
    let Some(hash) = put_sought(blank, values, key)? else {
        return Ok(None);
    };
    Ok(Some(arena.terms().number_by(key.as_slice(), hash)))
}

/// The number of the atom that a row makes of that of a literal, if it is a term, where it has no lists, or what tells them is kept; else
/// none is told. No atom is built for that.
pub fn number_unbuilt(
    rows: &Rows<'_>,
    arena: &Arena,
    planned: &Planned,
    literal: Literal,
    values: &[u32],
    key: &mut Vec<u32>,
) -> Result<Option<Option<usize>>, AllocError>
    requires terms { WordTerms (words_of rows.now.set.now) arena.now }
    requires row { IsRow (lists_of_set rows.now.set.now) arena.now.keys rows.now.places.now values.now }
    requires planned { IsPlanned rows.now arena.now.keys planned.now }
    requires literal { literal ≡ literal_in (lists_of_set rows.now.set.now) planned.now.number }
    ensures { IfOk result (λ told. IfSome told (λ number. IsNumberIn (words_of rows.now.set.now) arena.now.keys rows.now.atoms.now.keys (atom_by
        (lists_of_set rows.now.set.now) rows.now.alternative.now.variables.from arena.now.keys rows.now.places.now values.now planned.now.number)
        number)) }
{
    if let Some(sought) = sought_at(rows.sought, planned.index) {
        return number_sought(rows, arena, planned, sought, values, key);
    }
    let word = rows.set.relation(literal.atom.relation).word;
    let is_key = put_key(word, parts_at(&rows.plan.body, planned.index), values, key)?;
    if !is_key {
        return Ok(None);
    }
    Ok(Some(arena.number(key.as_slice())))
}

/// Whether what a row makes of a literal passes, if that is negated and its atom is told so. No atom is built for that.
pub fn passes_unbuilt(
    rows: &Rows<'_>,
    arena: &Arena,
    planned: &Planned,
    literal: Literal,
    values: &[u32],
    key: &mut Vec<u32>,
) -> Result<Option<bool>, AllocError>
    requires terms { WordTerms (words_of rows.now.set.now) arena.now }
    requires row { IsRow (lists_of_set rows.now.set.now) arena.now.keys rows.now.places.now values.now }
    requires planned { IsPlanned rows.now arena.now.keys planned.now }
    requires literal { literal ≡ literal_in (lists_of_set rows.now.set.now) planned.now.number }
    ensures { IfOk result (λ o. IfSome o (λ b. (so_far : List said.Atom)
        → AreAtoms (trees (words_of rows.now.set.now) arena.now.keys) rows.now.atoms.now.keys so_far
        → b ≡ passes (rules_in rows.now.set.now) so_far (literal_by
        (lists_of_set rows.now.set.now) rows.now.alternative.now.variables.from arena.now.keys rows.now.places.now values.now planned.now.number))) }
{
    if !literal.is_negated {
        return Ok(None);
    }
    if is_distinct(rows.set, literal.atom.relation) {
        return Ok(None);
    }
    let Some(number) = number_unbuilt(rows, arena, planned, literal, values, key)? else {
        return Ok(None);
    };
    match number {
        Some(number) => {
            let passes = is_passing(rows.set, arena, rows.atoms, literal, number);
            Ok(Some(passes))
        }
        None => Ok(Some(true)),
    }
}
