//! The words of a line.
use std::alloc::{AllocError, Global};
use std::str::from_utf8;

/// Whether a byte stands between words.
fn is_blank(byte: u8) -> bool {
    byte == b' ' || byte == b'\t' || byte == b'\r'
}

/// How many brackets are open behind a byte.
fn open_behind(open: usize, byte: u8) -> usize {
    match byte {
        b'(' => open.saturating_add(1),
        b')' => open.saturating_sub(1),
        _ => open,
    }
}

/// Whether a word that begins at an offset goes on with a byte behind blanks: a bracket behind brackets.
fn goes_on(line: &[u8], from: usize, byte: u8) -> bool {
    byte == b'(' && line.get(from) == Some(&b'(')
}

/// Adds the word that stands between two offsets, if there is one, and answers whether it is UTF-8.
fn add_word<'a>(
    line: &'a [u8],
    from: usize,
    to: usize,
    words: &mut Vec<&'a str>,
) -> Result<bool, AllocError> {
    let bytes = line.get(from..to).unwrap_or(b"");
    if bytes.is_empty() {
        return Ok(true);
    }
    let Ok(word) = from_utf8(bytes) else {
        return Ok(false);
    };
    words.push(word)?;
    Ok(true)
}

/// The words of a line; or none, where one of them is no UTF-8. Blanks stand between words. A word that begins with a bracket goes on to the
/// bracket that closes it, and so over each bracket behind that: the turns of a history are one word.
pub(crate) fn words_in<'a>(
    alloc: Global,
    line: &'a [u8],
) -> Result<Option<Vec<&'a str>>, AllocError> {
    let mut words = Vec::new(alloc);
    let mut from = 0;
    let mut to = 0;
    let mut open = 0;
    let mut is_between = true;
    for at in 0..line.len() {
        let byte = line[at];
        let stands = open > 0 || !is_blank(byte);
        if stands {
            if is_between && !goes_on(line, from, byte) {
                if !add_word(line, from, to, &mut words)? {
                    return Ok(None);
                }
                from = at;
            }
            to = at + 1;
        }
        is_between = !stands;
        open = open_behind(open, byte);
    }
    if !add_word(line, from, to, &mut words)? {
        return Ok(None);
    }
    Ok(Some(words))
}
