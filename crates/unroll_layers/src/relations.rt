//! The own relations, and those of their layers, as sets.
ghost use Rattle.std.specs.Prelude.{ℕ, ◌≡◌, ◌≤◌, true, false, map, length, IfOk, IfSome, OnOk, IfOk};
ghost use Rattle.std.specs.Bool.{OnTrue};
ghost use Rattle.statement.specs.Clause as said;
ghost use Rattle.statement.specs.Dependence.{is_among};
ghost use Rattle.rules_relations.specs.Relations.{relation_in};
ghost use Rattle.meaning.specs.Layers.{layer_of};
ghost use Rattle.meaning.specs.Names.{name_in, names_of, word_in};
ghost use Rattle.rules.specs.RuleSets.{texts_of};
ghost use Rattle.unroll_layers.specs.ByNumber.{IsPartOf, HasLayer};

use rules_relations::{Relation, RelationSet};
use std::alloc::{AllocError, Global};

/// Relations as a set.
pub(crate) fn set_of<'a>(
    alloc: Global,
    relations: &[Relation<'a>],
) -> Result<RelationSet<'a>, AllocError>
    ensures { IfOk result (λ set. (p : said.Relation) → is_among p set ≡ is_among p (map relation_in relations.now)) }
{
    let mut set = RelationSet::new(alloc);
    for relation in relations {
        set.insert(*relation)?;
    }
    Ok(set)
}

/// Adds the relations of a layer, of which these are the names, and answers whether there were as many names as own relations.
fn add_layer<'a>(
    own: &[Relation<'a>],
    names: &'a [Vec<u8>],
    set: &mut RelationSet<'a>,
) -> Result<bool, AllocError>
    ensures grown { OnOk result (IsPartOf set.old set.new) }
    ensures added { IfOk result (λ is_whole. OnTrue is_whole (HasLayer (map relation_in own.now) (texts_of names.now) set.new)) }
{
    if own.len() != names.len() {
        return Ok(false);
    }
    for (place, relation) in own.iter().enumerate() {
        set.insert(Relation {
            word: &names[place],
            arity: relation.arity,
        })?;
    }
    Ok(true)
}

/// The relations of the first so many layers; nothing, if one of these has not as many names as there are own relations.
pub(crate) fn layers_of<'a>(
    alloc: Global,
    own: &[Relation<'a>],
    names: &'a [Vec<Vec<u8>>],
    many: usize,
) -> Result<Option<RelationSet<'a>>, AllocError>
    requires { many ≤ length names.now }
    ensures { IfOk result (λ found. IfSome found (λ set. (k : ℕ) → 1 ≤ k → k ≤ many → (p : said.Relation)
        → is_among p (map relation_in own.now) ≡ true → is_among (layer_of (word_in (map relation_in own.now) (names_of names.now)) k p) set ≡ true)) }
{
    let mut set = RelationSet::new(alloc);
    for place in 0..many {
        if !add_layer(own, &names[place], &mut set)? {
            return Ok(None);
        }
    }
    Ok(Some(set))
}
