//! A pointer into the text of items, which goes from item to item.
ghost use Rattle.std.specs.Prelude.{◌≡◌, ◌≤◌, List, IfSome, length, min, drop, take};
ghost use Rattle.statement.specs.Tree.{Tree, trees_of};
ghost use Rattle.statement.specs.Reading.{Reads};
ghost use Rattle.kif.specs.View.{trees_in};
ghost use Rattle.diagnose_places.specs.Places.{IsPlace};
ghost use Rattle.diagnose_places.specs.Standing.{BeginsAt};
ghost use Rattle.diagnose_places.specs.Walking.{walk_text, IsWalk, IsWordBehind};
ghost use Rattle.diagnose_lint.specs.Pointing.{IsPointer, IsItemPlace, IsNamePlace};

use diagnose_places::{Place, Walk, place_behind, place_of};
use kif::Expr;
use std::alloc::Allocator;

/// A walk over the text of items, and the last place that it told of.
#[derive(Clone, Copy)]
pub struct Pointer<'a> {
    text: &'a [u8],
    walk: Walk<'a>,
    offset: usize,
    place: Place,
}

/// Where an item begins, if the walk has not passed it.
fn item_behind<A: Allocator>(walk: &mut Walk, items: &[Expr<A>], index: usize) -> Option<usize>
    requires { IsWalk (trees_in items.now) walk.old }
    ensures text { walk_text walk.new ≡ walk_text walk.old }
    ensures walk { IsWalk (trees_in items.now) walk.new }
    ensures begins { IfSome result (λ start. Reads (walk_text walk.old) (trees_of (trees_in items.now))
        → BeginsAt (walk_text walk.old) (drop index (trees_in items.now)) start) }
{
    if index < walk.passed() || index >= items.len() {
        return None;
    }
    walk.go_to(items, index);
    walk.start(items)
}

/// Where a name stands next from the beginning of an item on, if the walk has not passed the item.
fn name_behind<A: Allocator>(
    walk: &mut Walk,
    items: &[Expr<A>],
    index: usize,
    name: &[u8],
) -> Option<usize>
    requires { IsWalk (trees_in items.now) walk.old }
    ensures text { walk_text walk.new ≡ walk_text walk.old }
    ensures walk { IsWalk (trees_in items.now) walk.new }
    ensures stands { IfSome result (λ start. Reads (walk_text walk.old) (trees_of (trees_in items.now))
        → IsWordBehind (walk_text walk.old) (take index (trees_in items.now)) name.now start) }
{
    if index < walk.passed() || index >= items.len() {
        return None;
    }
    walk.go_to(items, index);
    walk.find(items, name)
}

/// The place of an offset, by that of one that was told before, and the offset itself, or the end of the text.
fn told_behind(text: &[u8], known: usize, place: Place, offset: usize) -> (usize, Place)
    requires known { known ≤ length text.now }
    requires place { IsPlace text.now known place }
    ensures offset { result.0 ≡ min offset (length text.now) }
    ensures place { IsPlace text.now result.0 result.1 }
{
    let end = offset.min(text.len());
    (end, place_behind(text, known, place, offset))
}

impl<'a> Pointer<'a> {
    /// A pointer at the beginning of a text.
    pub fn new(text: &'a [u8]) -> Self
        ensures text { result.text.now ≡ text.now }
        ensures pointer { (ts : List Tree) → IsPointer ts result }
    {
        Pointer {
            text,
            walk: Walk::new(text),
            offset: 0,
            place: place_of(text, 0),
        }
    }

    /// The place where an item begins, of those that the text is read as. Where it has passed the item there is none.
    pub fn item_place<A: Allocator>(&mut self, items: &[Expr<A>], index: usize) -> Option<Place>
        requires { IsPointer (trees_in items.now) self.old }
        ensures text { self.new.text.now ≡ self.old.text.now }
        ensures pointer { IsPointer (trees_in items.now) self.new }
        ensures place { IfSome result (IsItemPlace self.old.text.now (trees_in items.now) index) }
    {
        let start = item_behind(&mut self.walk, items, index)?;
        let (offset, place) = told_behind(self.text, self.offset, self.place, start);
        self.offset = offset;
        self.place = place;
        Some(place)
    }

    /// The next place of a name, in lower case, from the beginning of an item on and behind what it told of there. Where it has passed the
    /// item there is none.
    pub fn name_place<A: Allocator>(
        &mut self,
        items: &[Expr<A>],
        index: usize,
        name: &[u8],
    ) -> Option<Place>
        requires { IsPointer (trees_in items.now) self.old }
        ensures text { self.new.text.now ≡ self.old.text.now }
        ensures pointer { IsPointer (trees_in items.now) self.new }
        ensures place { IfSome result (IsNamePlace self.old.text.now (trees_in items.now) index name.now) }
    {
        let start = name_behind(&mut self.walk, items, index, name)?;
        let (offset, place) = told_behind(self.text, self.offset, self.place, start);
        self.offset = offset;
        self.place = place;
        Some(place)
    }
}
