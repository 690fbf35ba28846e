//! What is tested of all that is found and written of own relations.
ghost use Rattle.std.specs.Prelude.{◌≡◌, map, IfOk};
ghost use Rattle.kif.specs.View.{trees_in};
ghost use Rattle.rules_relations.specs.Relations.{relation_in};
ghost use Rattle.meaning.specs.Names.{names_of};
ghost use Rattle.unroll_layers.specs.Layering as test;

use crate::fitting::are_unfit;
use crate::kinds::is_some_unclear;
use crate::layers::are_all_layers;
use crate::tops::is_some_stray_top;
use kif::Expr;
use rules_relations::Relation;
use std::alloc::{AllocError, Global};

/// Whether items pass all tests: of the names of layers, of what is found, of the tops and of what is written in each layer, which keeps those before it or does not.
pub(crate) fn are_passed(
    alloc: Global,
    keeps: bool,
    found: &[Expr<Global>],
    written: &[Expr<Global>],
    own: &[Relation],
    names: &[Vec<Vec<u8>>],
) -> Result<bool, AllocError>
    ensures { IfOk result (λ is_so. is_so ≡ test.passes keeps (map relation_in own.now) (names_of names.now) (trees_in found.now) (trees_in written.now)) }
{
    if names.is_empty() {
        return Ok(false);
    }
    let are_unfit = are_unfit(alloc, own, names)?;
    if are_unfit {
        return Ok(false);
    }
    if is_some_unclear(found, own, keeps) {
        return Ok(false);
    }
    if is_some_stray_top(written, own, names) {
        return Ok(false);
    }
    are_all_layers(alloc, keeps, found, written, own, names)
}
