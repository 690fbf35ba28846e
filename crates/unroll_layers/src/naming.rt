//! Own relations under the names that they have in layers.
ghost use Rattle.std.specs.Prelude.{◌≡◌, ◌++◌, map, IfOk, OnOk};
ghost use Rattle.rules_relations.specs.Relations.{relation_in};
ghost use Rattle.meaning.specs.Names.{name_in, names_of};
ghost use Rattle.unroll_layers.specs.Naming as test;
ghost use Rattle.unroll_layers.specs.Naming.{words_in};

use rules_relations::{Relation, is_same};
use std::alloc::{AllocError, Global};

/// The name of an own relation in a layer, where the names of the layer are those of all own relations in their order.
pub(crate) fn name_of<'n>(relation: &Relation, own: &[Relation], names: &'n [Vec<u8>]) -> &'n [u8]
    ensures { result.now ≡ name_in (map relation_in own.now) (words_in names.now) (relation_in relation.now) }
{
    for (place, other) in own.iter().enumerate() {
        if is_same(relation.word, relation.arity, other) {
            return match names.get(place) {
                Some(name) => name,
                None => b"",
            };
        }
    }
    b""
}

/// An own relation as that of a layer.
pub(crate) fn in_layer<'n>(
    relation: &Relation,
    own: &[Relation],
    names: &'n [Vec<u8>],
) -> Relation<'n>
    ensures { relation_in result ≡ test.in_layer (map relation_in own.now) (words_in names.now) (relation_in relation.now) }
{
    Relation {
        word: name_of(relation, own, names),
        arity: relation.arity,
    }
}

/// Adds the own relations as those of a layer.
fn add_layer<'n>(
    own: &[Relation],
    names: &'n [Vec<u8>],
    made: &mut Vec<Relation<'n>>,
) -> Result<(), AllocError>
    ensures { OnOk result (map relation_in made.new.items
        ≡ map relation_in made.old.items ++ map (test.in_layer (map relation_in own.now) (words_in names.now)) (map relation_in own.now)) }
{
    for relation in own {
        made.push(in_layer(relation, own, names))?;
    }
    Ok(())
}

/// The own relations as those of each layer, from the first.
pub(crate) fn in_layers<'n>(
    alloc: Global,
    own: &[Relation],
    layers: &'n [Vec<Vec<u8>>],
) -> Result<Vec<Relation<'n>>, AllocError>
    ensures { IfOk result (λ made. map relation_in made.items ≡ test.in_layers (map relation_in own.now) (names_of layers.now)) }
{
    let mut made = Vec::new(alloc);
    for names in layers {
        add_layer(own, names, &mut made)?;
    }
    Ok(made)
}
