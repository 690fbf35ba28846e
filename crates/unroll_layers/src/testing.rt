//! Whether items are those of others of which some relations are written as layers.
ghost use Rattle.std.specs.Prelude.{◌≡◌, false, length, map, IfOk};
ghost use Rattle.std.specs.Bool.{OnTrue};
ghost use Rattle.statement.specs.Dependence.{is_among};
ghost use Rattle.statement.specs.Items.{alternatives};
ghost use Rattle.kif.specs.View.{trees_in};
ghost use Rattle.rules_relations.specs.Relations.{relation_in};
ghost use Rattle.meaning.specs.Layers.{IsLayered};
ghost use Rattle.meaning.specs.Names.{names_of, word_in};
ghost use Rattle.unroll_layers.specs.Layering as test;

use crate::passing::are_passed;
use kif::Expr;
use rules_relations::Relation;
use std::alloc::{AllocError, Global};

/// Whether own relations are written as layers of these names: for each layer, from the first, the names of the relations in their order.
/// `true` says that they are; `false` that a test of the items failed, as it does where rules of own relations have `or` or `and`. It fails
/// only for want of memory.
pub fn is_layered(
    alloc: Global,
    found: &[Expr<Global>],
    written: &[Expr<Global>],
    own: &[Relation],
    names: &[Vec<Vec<u8>>],
) -> Result<bool, AllocError>
    ensures exact { IfOk result (λ is_so. is_so ≡ test.passes false (map relation_in own.now) (names_of names.now) (trees_in found.now)
        (trees_in written.now)) }
    ensures says { IfOk result (λ is_so. OnTrue is_so (IsLayered (alternatives (trees_in found.now)) (alternatives (trees_in written.now))
        (λ p. is_among p (map relation_in own.now)) (word_in (map relation_in own.now) (names_of names.now)) (length names.now))) }
{
    are_passed(alloc, false, found, written, own, names)
}
