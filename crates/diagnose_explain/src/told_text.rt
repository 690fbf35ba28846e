//! What is told of the fault of a text.
ghost use Rattle.std.specs.Prelude.{◌≡◌, ◌∷◌, [], ◌↔◌, IsTrue, take};

use crate::marked::add_marked_line;
use crate::spots::text_spot;
use crate::wording::{add_end, add_limit, add_reason, add_start};
use kif::{KifFault, NAME_LIMIT, OPEN_LIMIT, TEXT_LIMIT};
use std::alloc::AllocError;

/// What is told of a byte that no text may have outside comments.
fn about_byte(byte: u8) -> &'static str {
    match byte {
        b'"' | b'|' => "a quote: names are not quoted",
        0..=31 | 127 => "a control character outside a comment",
        128.. => "a character that is no ASCII, outside a comment",
        _ => "this byte stands in no name",
    }
}

/// Whether a text begins with the three bytes that some editors write before a text of UTF-8.
pub fn begins_with_mark(text: &[u8]) -> bool
    ensures { IsTrue result ↔ (take 3 text.now ≡ 239 ∷ 187 ∷ 191 ∷ []) }
{
    matches!(text, [239, 187, 191, ..])
}

/// What is told of the byte at an offset.
fn about_bad_byte(text: &[u8], offset: usize) -> &'static str {
    if offset == 0 && begins_with_mark(text) {
        return "a byte order mark: save the file without it";
    }
    match text.get(offset) {
        Some(byte) => about_byte(*byte),
        None => "",
    }
}

/// The number and name of the fault of a text, and what is wrong there.
fn headline(text: &[u8], fault: &KifFault) -> (&'static str, &'static str) {
    match fault {
        KifFault::TooLong => ("K1 TooLong", "this is the first byte beyond the limit"),
        KifFault::BadByte(offset) => ("K2 BadByte", about_bad_byte(text, *offset)),
        KifFault::TooDeep(_) => (
            "K3 TooDeep",
            "this bracket opens one list too many inside the others",
        ),
        KifFault::Unclosed(_) => ("K4 Unclosed", "this bracket is closed nowhere"),
        KifFault::Unopened(_) => ("K5 Unopened", "this bracket closes nothing"),
        KifFault::NameTooLong(_) => ("K6 NameTooLong", "this name is too long"),
        KifFault::NoMemory => ("K9 NoMemory", "no memory"),
    }
}

/// Adds why a text is refused for its fault, where that is more than its first line says.
fn add_why(fault: &KifFault, output: &mut Vec<u8>) -> Result<(), AllocError> {
    match fault {
        KifFault::TooLong => add_limit("bytes, comments and all", TEXT_LIMIT, output),
        KifFault::TooDeep(_) => add_limit("lists inside each other", OPEN_LIMIT, output),
        KifFault::NameTooLong(_) => add_limit("bytes of a name", NAME_LIMIT, output),
        KifFault::Unclosed(_) => add_reason(
            "its `)` is missing, or a `;` took it into a comment",
            output,
        ),
        KifFault::Unopened(_) => add_reason("what stands before it has one `)` too many", output),
        KifFault::BadByte(_) | KifFault::NoMemory => Ok(()),
    }
}

/// Adds what is told of the fault of a text: its place and name, the line with a mark, and why.
pub fn explain_text(
    source: &str,
    text: &[u8],
    fault: &KifFault,
    output: &mut Vec<u8>,
) -> Result<(), AllocError> {
    let (name, words) = headline(text, fault);
    let spot = text_spot(text, fault);
    add_start(source, Some(spot), name, output)?;
    add_end(words, output)?;
    add_marked_line(text, spot.offset, output)?;
    add_why(fault, output)
}
