//! Lines and columns.
ghost use Rattle.std.specs.Prelude.{◌≡◌, ◌≤◌, ◌<◌, ◌+◌, ◌-◌, ◌^◌, length, min};
ghost use Rattle.std.specs.List.{count_by};
ghost use Rattle.diagnose_places.specs.Lines.{is_line_feed, begins_character};
ghost use Rattle.diagnose_places.specs.Places.{after, IsPlace};

use crate::line::line_start;

/// A line and a column of a text, each counted from 1. A column counts characters, as an editor does, and not bytes: a byte from 128 to
/// 191 goes on with the character before it. A tab is one character.
#[derive(Clone, Copy, Debug, PartialEq, Eq)]
pub struct Place {
    pub line: usize,
    pub column: usize,
}

/// How many lines end in the bytes.
fn count_line_feeds(bytes: &[u8]) -> usize
    ensures count { result ≡ count_by is_line_feed bytes.now }
    ensures few { result ≤ length bytes.now }
{
    let mut count = 0;
    for byte in bytes {
        if *byte == b'\n' {
            count += 1;
        }
    }
    count
}

/// Whether a byte begins a character, as UTF-8 has it.
pub(crate) fn is_first_byte(byte: u8) -> bool
    ensures { result ≡ begins_character byte }
{
    !(128..=191).contains(&byte)
}

/// How many characters begin in the bytes.
fn count_characters(bytes: &[u8]) -> usize
    ensures count { result ≡ count_by begins_character bytes.now }
    ensures few { result ≤ length bytes.now }
{
    let mut count = 0;
    for byte in bytes {
        if is_first_byte(*byte) {
            count += 1;
        }
    }
    count
}

/// The place of an offset. An offset behind the end of the text counts as the end.
pub fn place_of(text: &[u8], offset: usize) -> Place
    ensures { IsPlace text.now (min offset (length text.now)) result }
{
    let at = offset.min(text.len());
    let start = line_start(text, at);
    let line = count_line_feeds(&text[..at]) + 1;
    let column = count_characters(&text[start..at]) + 1;
    Place { line, column }
}

/// A number and one more, or the greatest.
fn one_more(count: usize) -> usize
    ensures { count < 2 ^ 64 - 1 → result ≡ count + 1 }
{
    count.saturating_add(1)
}

/// The place one byte on.
fn place_after(place: Place, byte: u8) -> Place
    ensures { place.line < 2 ^ 64 - 1 → place.column < 2 ^ 64 - 1 → result ≡ after place byte }
{
    if byte == b'\n' {
        return Place {
            line: one_more(place.line),
            column: 1,
        };
    }
    if is_first_byte(byte) {
        return Place {
            line: place.line,
            column: one_more(place.column),
        };
    }
    place
}

/// The place of an offset, by that of one before it: only the bytes between are looked at. An offset behind the end of the text counts as
/// the end.
pub fn place_behind(text: &[u8], known: usize, place: Place, offset: usize) -> Place
    ensures { known ≤ length text.now → IsPlace text.now known place → IsPlace text.now (min offset (length text.now)) result }
{
    let end = offset.min(text.len());
    if known > end {
        return place_of(text, end);
    }
    let mut here = place;
    for at in known..end {
        here = place_after(here, text[at]);
    }
    here
}
