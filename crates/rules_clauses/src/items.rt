//! Items in memory: a head, and the alternatives of the body.
ghost use Rattle.std.specs.Prelude.{◌≡◌, true, IfOk};
ghost use Rattle.kif.specs.View.{tree_of};
ghost use Rattle.statement.specs.Items.{is_item};
ghost use Rattle.rules_clauses.specs.ItemView.{ReadsItem};
ghost use Rattle.rules_clauses.specs.StoreView.{data_of};

use crate::numbered::{Atom, Span};
use crate::readings::read_all;
use crate::store::Store;
use kif::Expr;
use rules_profile::split_item;
use std::alloc::{AllocError, Allocator, Global};

/// An item: its head, where its variables stand, and for each alternative where its literals stand.
#[derive(Drop)]
pub struct Item {
    pub head: Atom,
    pub variables: Span,
    pub bodies: Vec<Vec<Span>>,
}

/// Writes an item to the lists in memory.
pub fn read_item<A: Allocator>(
    alloc: Global,
    store: &mut Store,
    e: &Expr<A>,
) -> Result<Item, AllocError>
    requires { is_item (tree_of e.now) ≡ true }
    ensures { IfOk result (λ item. ReadsItem (data_of store.old) (data_of store.new) item (tree_of e.now)) }
{
    let from = store.count_variables();
    let (head_part, parts) = split_item(e);
    let head = store.add_atom(from, head_part)?;
    let bodies = read_all(alloc, store, from, parts)?;
    let to = store.count_variables();
    Ok(Item {
        head,
        variables: Span { from, to },
        bodies,
    })
}
