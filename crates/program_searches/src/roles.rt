//! From the text of a role to the role.
ghost use Rattle.std.specs.Prelude.{◌≡◌, ◌<◌, IfOk, IfSome, find};
ghost use Rattle.statement.specs.Tree.{text, name_eq, trees_of};
ghost use Rattle.kif.specs.View.{tree_of, trees_in};
ghost use Rattle.statement.specs.Rules.{all_roles};
ghost use Rattle.program_searches.specs.Histories.{named};
ghost use Rattle.statement.specs.Solving.{role_named_in, IsRoleNamed};

use bumpalo::Bump;
use game::Game;
use kif::{Expr, KifFault, read, text_is};
use std::alloc::{AllocError, Allocator, Global};

/// The role whose text is that of the tree.
fn find_role<G: Game, A: Allocator>(game: &G, tree: &Expr<A>) -> Option<usize>
    ensures known { IfSome result (λ r. r < (G.rules game.now).roles) }
    ensures found { result ≡ find (λ r. name_eq (text (tree_of tree.now)) (G.role_name game.now r)) (all_roles (G.rules game.now)) }
{
    for role in 0..game.roles() {
        if text_is(tree, game.role_text(role)) {
            return Some(role);
        }
    }
    None
}

/// The role that exactly one tree names.
fn role_of<G: Game, A: Allocator>(game: &G, trees: &[Expr<A>]) -> Option<usize>
    ensures known { IfSome result (λ r. r < (G.rules game.now).roles) }
    ensures found { result ≡ role_named_in (named (G.rules game.now) (G.role_name game.now) (G.move_name game.now))
        (trees_of (trees_in trees.now)) }
{
    if trees.len() != 1 {
        return None;
    }
    find_role(game, &trees[0])
}

/// The role that a text names: a text of exactly one tree, which is a role of the game. All other texts name none, also those that
/// are no list of trees. The trees stand in an arena that is dropped with this call.
pub fn role_named<G: Game>(alloc: Global, game: &G, text: &str) -> Result<Option<usize>, AllocError>
    ensures named { IfOk result (λ found. IsRoleNamed (named (G.rules game.now) (G.role_name game.now) (G.move_name game.now))
        text.now found) }
    ensures known { IfOk result (λ found. IfSome found (λ r. r < (G.rules game.now).roles)) }
{
    let arena = Bump::new(alloc);
    match read(&arena, text.as_bytes()) {
        Ok(trees) => Ok(role_of(game, &trees)),
        Err(KifFault::NoMemory) => Err(AllocError),
        Err(_) => Ok(None),
    }
}
