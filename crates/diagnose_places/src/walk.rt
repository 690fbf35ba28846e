//! A walk over the trees of a text and the names in them, which never goes back.
ghost use Rattle.std.specs.Prelude.{◌≡◌, ◌≤◌, List, length, drop, take, IfSome};
ghost use Rattle.statement.specs.Tree.{Tree, trees_of};
ghost use Rattle.statement.specs.Reading.{Reads};
ghost use Rattle.kif.specs.View.{trees_in};
ghost use Rattle.diagnose_places.specs.Standing.{BeginsAt};
ghost use Rattle.diagnose_places.specs.Walking.{walk_text, IsWalk, IsWordBehind};

use crate::tokens::Tokens;
use crate::trees::{is_name, skip_tree};
use kif::Expr;
use std::alloc::Allocator;

/// How far a walk over the trees of a text has come: how many trees it has passed, and how much of the next one.
#[derive(Clone, Copy)]
pub struct Walk<'a> {
    text: &'a [u8],
    passed: usize,
    here: Tokens<'a>,
    inside: Tokens<'a>,
}

impl<'a> Walk<'a> {
    /// A walk that begins before the first tree.
    pub fn new(text: &'a [u8]) -> Self
        ensures text { walk_text result ≡ text.now }
        ensures walk { (ts : List Tree) → IsWalk ts result }
    {
        let here = Tokens::new(text);
        Walk {
            text,
            passed: 0,
            here,
            inside: here,
        }
    }

    /// How many trees it has passed.
    pub fn passed(&self) -> usize
        ensures { result ≡ self.now.passed }
    {
        self.passed
    }

    /// Goes on to the beginning of a tree, of those that the text is read as. Where it has passed that tree it stays.
    pub fn go_to<A: Allocator>(&mut self, items: &[Expr<A>], index: usize)
        requires { IsWalk (trees_in items.now) self.old }
        ensures text { walk_text self.new ≡ walk_text self.old }
        ensures walk { IsWalk (trees_in items.now) self.new }
        ensures there { self.old.passed ≤ index → index ≤ length items.now → self.new.passed ≡ index }
    {
        if index > items.len() {
            return;
        }
        while self.passed < index {
            skip_tree(&mut self.here, &items[self.passed]);
            self.passed += 1;
            self.inside = self.here;
        }
    }

    /// Where the tree begins that it stands at.
    pub fn start<A: Allocator>(&self, items: &[Expr<A>]) -> Option<usize>
        requires { IsWalk (trees_in items.now) self.now }
        ensures { IfSome result (λ start. Reads (walk_text self.now) (trees_of (trees_in items.now))
            → BeginsAt (walk_text self.now) (drop self.now.passed (trees_in items.now)) start) }
    {
        let mut tokens = self.here;
        let first = tokens.next()?;
        Some(first.start)
    }

    /// Goes on behind the next place of a name, in lower case, and gives that place. Where the name does not come it stays.
    pub fn find<A: Allocator>(&mut self, items: &[Expr<A>], name: &[u8]) -> Option<usize>
        requires { IsWalk (trees_in items.now) self.old }
        ensures text { walk_text self.new ≡ walk_text self.old }
        ensures walk { IsWalk (trees_in items.now) self.new }
        ensures stands { IfSome result (λ start. Reads (walk_text self.old) (trees_of (trees_in items.now))
            → IsWordBehind (walk_text self.old) (take self.old.passed (trees_in items.now)) name.now start) }
    {
        let mut tokens = self.inside;
        while let Some(token) = tokens.next() {
            if is_name(self.text, token, name) {
                self.inside = tokens;
                return Some(token.start);
            }
        }
        None
    }
}
