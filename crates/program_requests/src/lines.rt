//! The lines of requests.
ghost use Rattle.std.specs.Prelude.{◌≡◌, ◌≢◌, ◌<◌, ◌≤◌, ◌++◌, ◌∷◌, [], List, ℕ, Option, true, false, length, slice_index, take, MatchOption, if◌then◌else◌};
ghost use Rattle.std.specs.Io.KnownBytes.{Consumes};
ghost use Rattle.program_requests.specs.Feeds.{left_in, IsFeed, ahead, HasFront};
ghost use Rattle.program_requests.specs.Lines.{IsLine, IsLineTaken};

use crate::fault::ReadFault;
use crate::feed::Feed;
use crate::gathered::Gathered;
use std::io::Read;

/// How a line ends.
#[derive(Clone, Copy, Debug, PartialEq, Eq)]
pub(crate) enum LineEnd {
    /// By its line feed.
    Fed,
    /// With the input.
    Cut,
}

/// Where the first line feed is.
fn end_in(bytes: &[u8]) -> Option<usize>
    ensures { MatchOption result (IsLine bytes.now) (λ at. (at < length bytes.now) × (slice_index bytes.now at ≡ 10) × IsLine (take at bytes.now)) }
{
    for at in 0..bytes.len() {
        if bytes[at] == b'\n' {
            return Some(at);
        }
    }
    None
}

/// Takes what is left before the first line feed, and the line feed, and answers whether there is one.
fn take_part(feed: &mut Feed, line: &mut Gathered) -> bool
    requires feed { IsFeed feed.old }
    requires line { line.old.filled ≤ length line.old.room.items }
    ensures feed { IsFeed feed.new }
    ensures line { line.new.filled ≤ length line.new.room.items }
    ensures size { length line.new.room.items ≡ length line.old.room.items }
    ensures taken { (part : List ℕ) × IsLine part
        × ((bytes : List ℕ) → HasFront line.old bytes → HasFront line.new (bytes ++ part))
        × ((remaining : Option (List ℕ)) → Consumes (ahead feed.old remaining) (ahead feed.new remaining) (part ++ (if result then 10 ∷ [] else []))) }
{
    match end_in(feed.front()) {
        Some(at) => {
            line.add(&feed.front()[..at]);
            feed.use_up(at + 1);
            true
        }
        None => {
            line.add(feed.front());
            feed.use_up(feed.front().len());
            false
        }
    }
}

/// Takes the next line, as much of it as there is room for: the line feed behind it is used and not taken.
pub(crate) fn next_line<R: Read>(
    feed: &mut Feed,
    input: &mut R,
    line: &mut Gathered,
) -> Result<LineEnd, ReadFault>
    requires feed { IsFeed feed.old }
    ensures feed { IsFeed feed.new }
    ensures size { length line.new.room.items ≡ length line.old.room.items }
    ensures within { line.new.filled ≤ length line.new.room.items }
    ensures taken { IsLineTaken result line.new (ahead feed.old (R.remaining input.old)) (ahead feed.new (R.remaining input.new)) }
{
    line.clear();
    // A loop is proved to end, so this one counts its turns.
    for _ in 0..u64::MAX {
        if !feed.refill(input)? {
            return Ok(LineEnd::Cut);
        }
        if take_part(feed, line) {
            return Ok(LineEnd::Fed);
        }
    }
    Err(ReadFault)
}
