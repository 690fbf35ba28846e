//! Where all atoms stand in play.
ghost use Rattle.std.specs.Prelude.{List, ◌≡◌, length, map, IfOk};
ghost use Rattle.statement.specs.Clause.{Atom, tree_of};
ghost use Rattle.rules.specs.RuleSetView.{lists_of_set, rules_in};
ghost use Rattle.rules_clauses.specs.Marks.{NumbersBelow};
ghost use Rattle.ground_terms.specs.Keys.{term_at, trees};
ghost use Rattle.statement.specs.Kinds.{kind_of};
ghost use Rattle.meaning.specs.Marked.{FixedBefore};
ghost use Rattle.ground_terms.specs.Tables.{AreTables};

use crate::tables::Tables;
use ground_terms::Arena;
use meaning::Kind;
use rules::RuleSet;
use std::alloc::{AllocError, Global};

/// Where the atoms stand in play, of which the first are those of fixed relations.
pub fn kinds_of_atoms(
    alloc: Global,
    rules: &RuleSet,
    arena: &Arena,
    atoms: &[u32],
    fixed_atoms: usize,
    tables: &Tables,
) -> Result<Vec<Kind>, AllocError>
    requires symbols { length arena.now.sizes ≡ length (lists_of_set rules.now).words }
    requires within { NumbersBelow (length arena.now.keys) atoms.now }
    requires tables { AreTables (rules_in rules.now) (trees (lists_of_set rules.now).words arena.now.keys) tables.now.roles.keys tables.now.base.keys
        (map (λ s. s.keys) tables.now.inputs.items) }
    ensures { IfOk result (λ kinds. (xs : List Atom) → map (term_at (trees (lists_of_set rules.now).words arena.now.keys)) atoms.now ≡ map tree_of xs
        → FixedBefore (rules_in rules.now) fixed_atoms 0 xs → kinds.items ≡ map (kind_of (rules_in rules.now)) xs) }
{
    let mut kinds = Vec::with_capacity(alloc, atoms.len())?;
    for (place, atom) in atoms.iter().enumerate() {
        let is_fixed = place < fixed_atoms;
        let kind = arena.kind_of(
            rules,
            *atom as usize,
            is_fixed,
            &tables.roles,
            &tables.base,
            &tables.inputs,
        );
        kinds.push(kind)?;
    }
    Ok(kinds)
}
