//! The numbers of atoms.
ghost use Rattle.std.specs.Prelude.{◌≡◌, nat_eq, true, OnOk, IfSome};
ghost use Rattle.std.specs.List.{list_any};
ghost use Rattle.ground_terms.specs.Atoms.{with_number, with_numbers};
ghost use Rattle.ground_instances.specs.Lists.{entry_heads};

use ground_instances::Entry;
use ground_terms::NumberSet;
use std::alloc::AllocError;

/// Numbers an atom, unless it is the one that was numbered last.
#[inline(always)]
fn number_next(atoms: &mut NumberSet, head: usize, last: Option<usize>) -> Result<(), AllocError>
    requires { IfSome last (λ n. list_any (nat_eq n) atoms.old.keys ≡ true) }
    ensures { OnOk result (atoms.new.keys ≡ with_number atoms.old.keys head) }
{
    if last == Some(head) {
        return Ok(());
    }
    atoms.insert(head)?;
    Ok(())
}

/// Numbers the heads of instances as atoms, each once.
pub fn number_heads(atoms: &mut NumberSet, found: &[Entry]) -> Result<(), AllocError>
    ensures { OnOk result (atoms.new.keys ≡ with_numbers atoms.old.keys (entry_heads found.now)) }
{
    let mut last = None;
    for instance in found {
        number_next(atoms, instance.head as usize, last)?;
        last = Some(instance.head as usize);
    }
    Ok(())
}
