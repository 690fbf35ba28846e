//! The parts of a ground that have no texts.
ghost use Rattle.std.specs.Prelude.{◌≡◌, map, None, IfOk};
ghost use Rattle.rules.specs.RuleSetView.{rules_in};
ghost use Rattle.ground_listing.specs.AllListed.{IsAllListed};
ghost use Rattle.ground.specs.Parts.{ArePartsOf};
ghost use Rattle.ground_terms.specs.Vectors.{items_of};
ghost use Rattle.ground_rows.specs.Contexts.{terms_named};
ghost use Rattle.ground_instances.specs.Lists.{numbers_of_list};
ghost use Rattle.statement.specs.declared.width.Width.TheVariants.{Wide};
ghost use Rattle.statement.specs.Limits.{excess_in};
ghost use Rattle.ground_rows.specs.SetWords.{words_of};

use crate::kinds_of_atoms::kinds_of_atoms;
use crate::tables::Tables;
use ground_listing::Listed;
use ground_terms::{Named, count_dropped, starts_of};
use meaning::Kind;
use rules::RuleSet;
use std::alloc::{AllocError, Global};

/// Which base propositions hold at the start, where the atoms stand in play, and how many atoms have no effect on play.
#[derive(Drop)]
pub struct Parts {
    pub starts: Vec<bool>,
    pub kinds: Vec<Kind>,
    pub dropped: usize,
}

/// The terms of what is named.
fn terms_of(alloc: Global, named: &[Named]) -> Result<Vec<usize>, AllocError>
    ensures { IfOk result (λ terms. terms.items ≡ terms_named named.now) }
{
    let mut terms = Vec::with_capacity(alloc, named.len())?;
    for one in named {
        terms.push(one.term)?;
    }
    Ok(terms)
}

/// The parts of the ground of a set of rules, from all that is listed of it.
pub fn parts_of(
    alloc: Global,
    rules: &RuleSet,
    listed: &Listed,
    tables: &Tables,
) -> Result<Parts, AllocError>
    requires listed { IsAllListed (rules_in rules.now) (words_of rules.now) listed.now.arena listed.now.atoms.keys
        (numbers_of_list listed.now.found) listed.now.fixed_atoms
        listed.now.context.roles.items listed.now.context.base.items (items_of listed.now.context.inputs.items) }
    requires within { excess_in Wide (rules_in rules.now) ≡ None }
    requires roles { tables.now.roles.keys ≡ terms_named listed.now.context.roles.items }
    requires base { tables.now.base.keys ≡ terms_named listed.now.context.base.items }
    requires inputs { map (λ s. s.keys) tables.now.inputs.items ≡ map terms_named (items_of listed.now.context.inputs.items) }
    ensures { IfOk result (λ p. ArePartsOf (rules_in rules.now) p.starts.items p.kinds.items p.dropped) }
{
    let words = rules.keywords();
    let base = listed.context.base.as_slice();
    let terms = terms_of(alloc, base)?;
    let bases = terms.as_slice();
    let atoms = listed.atoms.as_slice();
    let starts = starts_of(alloc, &listed.arena, &listed.atoms, words.init, bases)?;
    let kinds = kinds_of_atoms(
        alloc,
        rules,
        &listed.arena,
        atoms,
        listed.fixed_atoms,
        tables,
    )?;
    let dropped = count_dropped(
        &listed.arena,
        words,
        &tables.base,
        &tables.roles,
        &tables.inputs,
        atoms,
    );
    Ok(Parts {
        starts,
        kinds,
        dropped,
    })
}
