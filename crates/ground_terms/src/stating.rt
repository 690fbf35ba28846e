//! The terms that the fixed relations state: roles, base propositions and inputs.
ghost use Rattle.std.specs.Prelude.{◌≡◌, ◌<◌, ◌++◌, length, OnOk};
ghost use Rattle.rules_clauses.specs.Marks.{NumbersBelow};
ghost use Rattle.ground_terms.specs.Stated.{one_part, second_part, only_parts, second_parts};

use crate::arena::Arena;
use std::alloc::AllocError;

/// Adds the term t of an atom `(w t)`, where w is the word.
fn add_only_part(
    arena: &Arena,
    word: usize,
    atom: usize,
    terms: &mut Vec<usize>,
) -> Result<(), AllocError>
    requires { atom < length arena.now.keys }
    ensures { OnOk result (terms.new.items ≡ terms.old.items ++ one_part arena.now.keys word atom) }
{
    let key = arena.key(atom);
    if key.len() == 2 && key[0] as usize == word {
        terms.push(key[1] as usize)?;
    }
    Ok(())
}

/// Adds the terms t of the atoms `(w t)`, where w is the word.
pub fn add_only_parts(
    arena: &Arena,
    word: usize,
    atoms: &[u32],
    terms: &mut Vec<usize>,
) -> Result<(), AllocError>
    requires { NumbersBelow (length arena.now.keys) atoms.now }
    ensures { OnOk result (terms.new.items ≡ terms.old.items ++ only_parts arena.now.keys word atoms.now) }
{
    for atom in atoms {
        add_only_part(arena, word, *atom as usize, terms)?;
    }
    Ok(())
}

/// Adds the term m of an atom `(w r m)`, where w is the word and r the role.
fn add_second_part(
    arena: &Arena,
    word: usize,
    role: usize,
    atom: usize,
    terms: &mut Vec<usize>,
) -> Result<(), AllocError>
    requires { atom < length arena.now.keys }
    ensures { OnOk result (terms.new.items ≡ terms.old.items ++ second_part arena.now.keys word role atom) }
{
    let key = arena.key(atom);
    if key.len() == 3 && key[0] as usize == word && key[1] as usize == role {
        terms.push(key[2] as usize)?;
    }
    Ok(())
}

/// Adds the terms m of the atoms `(w r m)`, where w is the word and r the role.
pub fn add_second_parts(
    arena: &Arena,
    word: usize,
    role: usize,
    atoms: &[u32],
    terms: &mut Vec<usize>,
) -> Result<(), AllocError>
    requires { NumbersBelow (length arena.now.keys) atoms.now }
    ensures { OnOk result (terms.new.items ≡ terms.old.items ++ second_parts arena.now.keys word role atoms.now) }
{
    for atom in atoms {
        add_second_part(arena, word, role, *atom as usize, terms)?;
    }
    Ok(())
}
