//! The lines of a text.
ghost use Rattle.std.specs.Prelude.{◌≤◌, length, min};
ghost use Rattle.diagnose_places.specs.Lines.{IsLineStart, IsLineEnd};

/// Where a line begins, and where it ends: before its line feed, or with the text.
#[derive(Clone, Copy, Debug, PartialEq, Eq)]
pub struct Line {
    pub start: usize,
    pub end: usize,
}

/// Where the line begins in which an offset stands.
pub(crate) fn line_start(text: &[u8], offset: usize) -> usize
    requires { offset ≤ length text.now }
    ensures { IsLineStart text.now offset result }
{
    let mut start = offset;
    while start > 0 {
        if text[start - 1] == b'\n' {
            return start;
        }
        start -= 1;
    }
    0
}

/// Where the line ends in which an offset stands.
fn line_end(text: &[u8], offset: usize) -> usize
    requires { offset ≤ length text.now }
    ensures { IsLineEnd text.now offset result }
{
    for end in offset..text.len() {
        if text[end] == b'\n' {
            return end;
        }
    }
    text.len()
}

/// The line in which an offset stands, without its line feed. An offset behind the end of the text counts as the end.
pub fn line_around(text: &[u8], offset: usize) -> Line
    ensures start { IsLineStart text.now (min offset (length text.now)) result.start }
    ensures end { IsLineEnd text.now (min offset (length text.now)) result.end }
{
    let at = offset.min(text.len());
    Line {
        start: line_start(text, at),
        end: line_end(text, at),
    }
}
