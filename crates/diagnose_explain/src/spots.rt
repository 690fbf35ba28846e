//! Where faults stand.
ghost use Rattle.std.specs.Prelude.{◌≡◌, ◌-◌, ◌≤◌, ◌<◌, length, IfSome, IsSome, drop, take};
ghost use Rattle.statement.specs.Tree.{trees_of};
ghost use Rattle.statement.specs.Reading.{Reads};
ghost use Rattle.kif.specs.View.{trees_in};
ghost use Rattle.diagnose_explain.specs.Offsets.{offset_of};
ghost use Rattle.diagnose_explain.specs.Spots.{IsSpotOf, IsItemSpot, IsWordSpot};

use diagnose_places::{Place, item_start, place_of, word_start};
use kif::{Expr, KifFault, TEXT_LIMIT};
use std::alloc::Allocator;

/// Where something stands in a text: its offset, and its line and column.
#[derive(Clone, Copy)]
pub struct Spot {
    pub offset: usize,
    pub place: Place,
}

/// The spot of an offset. An offset behind the end of the text counts as the end.
fn spot_at(text: &[u8], offset: usize) -> Spot
    ensures { IsSpotOf text.now offset result }
{
    Spot {
        offset: offset.min(text.len()),
        place: place_of(text, offset),
    }
}

/// The offset at which the fault of a text stands. A text that is too long has it at the first byte beyond the limit.
fn offset_of(fault: &KifFault) -> usize
    ensures { result ≡ offset_of fault.now }
{
    match fault {
        KifFault::TooLong => TEXT_LIMIT,
        KifFault::BadByte(offset)
        | KifFault::TooDeep(offset)
        | KifFault::Unclosed(offset)
        | KifFault::Unopened(offset)
        | KifFault::NameTooLong(offset) => *offset,
        KifFault::NoMemory => 0,
    }
}

/// Where the fault of a text stands.
pub fn text_spot(text: &[u8], fault: &KifFault) -> Spot
    ensures { IsSpotOf text.now (offset_of fault.now) result }
{
    spot_at(text, offset_of(fault))
}

/// Where an item begins, of those that the text is read as. Items are numbered from 1, and there is none beyond the last.
pub fn item_spot<A: Allocator>(text: &[u8], items: &[Expr<A>], number: usize) -> Option<Spot>
    ensures stands { IfSome result (λ spot. Reads text.now (trees_of (trees_in items.now)) → IsItemSpot text.now (trees_in items.now) number spot) }
    ensures found { Reads text.now (trees_of (trees_in items.now)) → number - 1 < length items.now → IsSome result }
{
    let start = item_start(text, items, number.saturating_sub(1))?;
    Some(spot_at(text, start))
}

/// Where a name, in lower case, stands first from the beginning of an item on. Items are numbered from 1.
pub fn word_spot<A: Allocator>(
    text: &[u8],
    items: &[Expr<A>],
    number: usize,
    name: &[u8],
) -> Option<Spot>
    ensures { IfSome result (λ spot. Reads text.now (trees_of (trees_in items.now)) → IsWordSpot text.now (trees_in items.now) number name.now spot) }
{
    let start = word_start(text, items, number.saturating_sub(1), name)?;
    Some(spot_at(text, start))
}
