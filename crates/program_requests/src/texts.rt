//! The rules that stand behind a line.
ghost use Rattle.std.specs.Prelude.{◌≡◌, ◌<◌, ◌≤◌, ◌++◌, List, ℕ, [], Option, true, false, length, take};
ghost use Rattle.std.specs.Io.KnownBytes.{Consumes};
ghost use Rattle.program_requests.specs.Feeds.{left_in, IsFeed, ahead, HasFront};
ghost use Rattle.program_requests.specs.Texts.{IsTextTaken};

use crate::fault::ReadFault;
use crate::feed::Feed;
use crate::gathered::Gathered;
use std::io::Read;

/// Takes what is left, but no more than so many bytes, and answers how many.
fn take_some(feed: &mut Feed, text: &mut Gathered, most: usize) -> usize
    requires feed { IsFeed feed.old }
    requires some { 0 < length (left_in feed.old) }
    requires most { 0 < most }
    requires text { text.old.filled ≤ length text.old.room.items }
    ensures feed { IsFeed feed.new }
    ensures count { (0 < result) × (result ≤ most) }
    ensures text { (text.new.filled ≤ length text.new.room.items) × (length text.new.room.items ≡ length text.old.room.items) }
    ensures taken { (part : List ℕ) × (length part ≡ result)
        × ((bytes : List ℕ) → HasFront text.old bytes → HasFront text.new (bytes ++ part))
        × ((remaining : Option (List ℕ)) → Consumes (ahead feed.old remaining) (ahead feed.new remaining) part) }
{
    let count = feed.front().len().min(most);
    text.add(&feed.front()[..count]);
    feed.use_up(count);
    count
}

/// Takes a text of so many bytes, as much of it as there is room for, and answers whether the input has it whole.
pub(crate) fn take_text<R: Read>(
    feed: &mut Feed,
    input: &mut R,
    text: &mut Gathered,
    size: usize,
) -> Result<bool, ReadFault>
    requires feed { IsFeed feed.old }
    requires none { HasFront text.old [] }
    ensures feed { IsFeed feed.new }
    ensures size { length text.new.room.items ≡ length text.old.room.items }
    ensures taken { IsTextTaken size result text.new (ahead feed.old (R.remaining input.old)) (ahead feed.new (R.remaining input.new)) }
{
    let mut left = size;
    while left > 0 {
        if !feed.refill(input)? {
            return Ok(false);
        }
        left -= take_some(feed, text, left);
    }
    Ok(true)
}
