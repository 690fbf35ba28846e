//! Which base propositions hold at the start.
ghost use Rattle.std.specs.Prelude.{◌≡◌, length, map, IfOk};
ghost use Rattle.ground_terms.specs.Arena.{AreNumbered};
ghost use Rattle.rules_clauses.specs.Marks.{NumbersBelow};
ghost use Rattle.ground_terms.specs.Starting.{has_key, starts_in};

use crate::arena::Arena;
use crate::number_set::NumberSet;
use std::alloc::{AllocError, Global};
use util_interner::in_32_bits;

/// Whether the term with a key is an atom.
fn is_atom(arena: &Arena, atoms: &NumberSet, key: &[u32]) -> bool
    requires numbered { AreNumbered (length arena.now.sizes) arena.now.keys }
    requires atoms { NumbersBelow (length arena.now.keys) atoms.now.keys }
    ensures { result ≡ has_key arena.now.keys atoms.now.keys key.now }
{
    match arena.number(key) {
        Some(number) => atoms.contains(number),
        None => false,
    }
}

/// For each base proposition whether it holds at the start: whether `init` of it is an atom.
pub fn starts_of(
    alloc: Global,
    arena: &Arena,
    atoms: &NumberSet,
    init: usize,
    bases: &[usize],
) -> Result<Vec<bool>, AllocError>
    requires numbered { AreNumbered (length arena.now.sizes) arena.now.keys }
    requires atoms { NumbersBelow (length arena.now.keys) atoms.now.keys }
    ensures { IfOk result (λ starts. starts.items ≡ map (starts_in arena.now.keys atoms.now.keys init) bases.now) }
{
    let mut starts = Vec::with_capacity(alloc, bases.len())?;
    for base in bases {
        let key = [in_32_bits(init)?, in_32_bits(*base)?];
        starts.push(is_atom(arena, atoms, &key))?;
    }
    Ok(starts)
}
