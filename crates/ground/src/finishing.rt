//! The instances once all atoms have numbers.
//!
//! Their bodies hold the numbers of atoms from the start. Each head is numbered by itself, so where there are many instances a piece of the
//! list goes to each thread.
ghost use Rattle.std.specs.Prelude.{◌≡◌, ◌<◌, length, map, nat_eq};
ghost use Rattle.ground.specs.Finishing.{headed_in, InstancesNumbered};
ghost use Rattle.ground_instances.specs.Lists.{AreLaid};
ghost use Rattle.statement.specs.Printed.{first_place};

use ground_instances::{Entry, FoundList};
use ground_join_plans::change_each;
use ground_terms::NumberSet;
use std::thread::Threads;

/// The number of a term's atom; the count of atoms if it has none.
fn place_of(atoms: &NumberSet, term: usize) -> u32
    requires { length atoms.now.keys < 2147483648 }
    ensures { result ≡ first_place (nat_eq term) atoms.now.keys }
{
    atoms.place(term) as u32
}

/// Writes the numbers of atoms into heads, in the place of those of their terms.
fn renumber_heads(atoms: &NumberSet, entries: &mut Vec<Entry>)
    requires few { length atoms.now.keys < 2147483648 }
    ensures { entries.new.items ≡ map (headed_in atoms.now.keys) entries.old.items }
{
    for i in 0..entries.len() {
        entries[i].head = place_of(atoms, entries[i].head as usize);
    }
}

/// The instances with the numbers of their heads as atoms in the place of those as terms.
pub fn renumbered(found: FoundList, atoms: &NumberSet) -> FoundList
    requires few { length atoms.now.keys < 2147483648 }
    requires found { AreLaid found }
    ensures { InstancesNumbered atoms.now.keys found result }
{
    let mut found = found;
    renumber_heads(atoms, &mut found.entries);
    found
}

/// The same as `renumber_heads`, in several threads where there are many.
fn renumber_heads_in_threads<R: Threads + Sync>(rt: &R, atoms: &NumberSet, entries: &mut Vec<Entry>)
    requires few { length atoms.now.keys < 2147483648 }
    ensures { entries.new.items ≡ map (headed_in atoms.now.keys) entries.old.items }
{
    change_each(
        rt,
        entries,
        &|_place: usize, entry: &mut Entry|
            requires { length atoms.now.keys < 2147483648 }
            ensures { entry.new ≡ headed_in atoms.entry.now.keys entry.old }
        { entry.head = place_of(atoms, entry.head as usize) },
    );
}

/// The same as `renumbered`, in several threads where there are many instances.
pub fn renumbered_in_threads<R: Threads + Sync>(
    rt: &R,
    found: FoundList,
    atoms: &NumberSet,
) -> FoundList
    requires few { length atoms.now.keys < 2147483648 }
    requires found { AreLaid found }
    ensures { InstancesNumbered atoms.now.keys found result }
{
    let mut found = found;
    renumber_heads_in_threads(rt, atoms, &mut found.entries);
    found
}
