//! A line of a text with a mark under a place.
use diagnose_places::line_around;
use std::alloc::AllocError;

/// How many bytes of a line are shown before the place, and from it on.
const SHOWN: usize = 60;

/// What is shown of a byte: a tab or a character of ASCII as it is, a question mark for any other character, and nothing for a byte that
/// goes on with one.
fn shown_as(byte: u8) -> Option<u8> {
    match byte {
        b'\t' | b' '..=b'~' => Some(byte),
        b'\r' | 128..=191 => None,
        _ => Some(b'?'),
    }
}

/// What stands under a byte, up to the mark: a tab under a tab, and a space under any other character.
fn space_under(byte: u8) -> Option<u8> {
    match shown_as(byte)? {
        b'\t' => Some(b'\t'),
        _ => Some(b' '),
    }
}

/// Adds the bytes as they are shown.
fn add_shown(bytes: &[u8], output: &mut Vec<u8>) -> Result<(), AllocError> {
    for byte in bytes {
        if let Some(shown) = shown_as(*byte) {
            output.push(shown)?;
        }
    }
    Ok(())
}

/// Adds what stands under the bytes.
fn add_spaces(bytes: &[u8], output: &mut Vec<u8>) -> Result<(), AllocError> {
    for byte in bytes {
        if let Some(space) = space_under(*byte) {
            output.push(space)?;
        }
    }
    Ok(())
}

/// The part of a text from one offset up to another, as far as there is one.
fn part(text: &[u8], start: usize, end: usize) -> &[u8] {
    text.get(start..end).unwrap_or(b"")
}

/// Adds the line in which an offset stands, and below it a mark under the offset. Of a long line the part around the offset is shown.
pub fn add_marked_line(text: &[u8], offset: usize, output: &mut Vec<u8>) -> Result<(), AllocError> {
    let line = line_around(text, offset);
    let start = line.start.max(offset.saturating_sub(SHOWN));
    let end = line.end.min(offset.saturating_add(SHOWN));
    let before = part(text, start, offset);
    let skipped: &[u8] = if start > line.start { b"... " } else { b"" };
    let left: &[u8] = if end < line.end { b" ..." } else { b"" };
    output.extend_from_slice(skipped)?;
    add_shown(before, output)?;
    add_shown(part(text, offset, end), output)?;
    output.extend_from_slice(left)?;
    output.push(b'\n')?;
    add_spaces(skipped, output)?;
    add_spaces(before, output)?;
    output.extend_from_slice(b"^\n")?;
    Ok(())
}
