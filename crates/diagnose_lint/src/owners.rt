//! Which item an alternative is one of.
ghost use Rattle.std.specs.Prelude.{◌≡◌, ◌++◌, replicate, IfOk, OnOk};
ghost use Rattle.kif.specs.View.{trees_in};
ghost use Rattle.diagnose_lint.specs.Owners.{AreOwners};

use diagnose_explain::{MOST_COUNTED, count_alternatives};
use kif::Expr;
use std::alloc::{AllocError, Allocator, Global};

/// Adds a place, so many times.
fn push_often(owners: &mut Vec<usize>, place: usize, count: usize) -> Result<(), AllocError>
    ensures { OnOk result (owners.new.items ≡ owners.old.items ++ replicate count place) }
{
    for _ in 0..count {
        owners.push(place)?;
    }
    Ok(())
}

/// For each of the first alternatives, of which there are so many at most, the place of its item.
pub(crate) fn owners_of<A: Allocator>(
    alloc: Global,
    items: &[Expr<A>],
    many: usize,
) -> Result<Vec<usize>, AllocError>
    ensures { IfOk result (λ owners. AreOwners (trees_in items.now) owners.items) }
{
    let mut owners = Vec::new(alloc);
    for (place, item) in items.iter().enumerate() {
        let count = count_alternatives(item);
        if count >= MOST_COUNTED || count > many.saturating_sub(owners.len()) {
            return Ok(owners);
        }
        push_often(&mut owners, place, count)?;
    }
    Ok(owners)
}
