//! The canonical texts of the roles.
ghost use Rattle.std.specs.Prelude.{◌≡◌, ◌<◌, ◌++◌, All, length, map, IfOk, OnOk};
ghost use Rattle.statement.specs.Tree.{text};
ghost use Rattle.kif.specs.View.{tree_of, trees_in};
ghost use Rattle.statement.specs.Profile.{role_in};
ghost use Rattle.rules.specs.RuleSets.{texts_of};
ghost use Rattle.rules_profile.specs.Stated.{roles_at};

use kif::Expr;
use rules_profile::role_of;
use std::alloc::{AllocError, Allocator, Global};

/// The canonical text of a tree, in its own memory.
fn text_of<A: Allocator>(alloc: Global, e: &Expr<A>) -> Result<Vec<u8>, AllocError>
    ensures { IfOk result (λ bytes. bytes.items ≡ text (tree_of e.now)) }
{
    let mut out = Vec::new(alloc);
    let Ok(()) = kif::write(e, &mut out) else {
        return Err(AllocError);
    };
    Ok(out)
}

/// Adds the text of the role that an item states, if it states one.
fn add_role_text<A: Allocator>(
    alloc: Global,
    item: &Expr<A>,
    out: &mut Vec<Vec<u8>>,
) -> Result<(), AllocError>
    ensures { OnOk result (texts_of out.new.items ≡ texts_of out.old.items ++ map text (role_in (tree_of item.now))) }
{
    let Some(role) = role_of(item) else {
        return Ok(());
    };
    let bytes = text_of(alloc, role)?;
    out.push(bytes)?;
    Ok(())
}

/// The texts of the roles that the items at these places state.
pub(crate) fn role_texts<A: Allocator>(
    alloc: Global,
    items: &[Expr<A>],
    places: &[usize],
) -> Result<Vec<Vec<u8>>, AllocError>
    requires { All (λ k. k < length items.now) places.now }
    ensures { IfOk result (λ texts. texts_of texts.items ≡ map text (roles_at (trees_in items.now) places.now)) }
{
    let mut texts = Vec::new(alloc);
    for place in places {
        add_role_text(alloc, &items[*place], &mut texts)?;
    }
    Ok(texts)
}
