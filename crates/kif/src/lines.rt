//! From a text to the canonical texts of its trees, without the trees.
ghost use Rattle.std.specs.Prelude.{ℕ, ◌≡◌, ◌++◌, ◌==◌, [], ◌∷◌, true, length, map, IfOk, IfErr, OnOk};
ghost use Rattle.statement.specs.Lexical.{lower};
ghost use Rattle.statement.specs.Tree.{Trees};
ghost use Rattle.statement.specs.Reading.{Reads, text_limit, open_limit, name_limit};
ghost use Rattle.statement.specs.Replies.{lines_of};
ghost use Rattle.statement.specs.TextFaults.{IsTextFault};
ghost use Rattle.kif.specs.Written.{gap};
ghost use Rattle.kif.specs.Lines.{line_end};

use crate::lexical::{ByteKind, comment_end, kind_of, name_end};
use crate::reader::{NAME_LIMIT, OPEN_LIMIT, TEXT_LIMIT};
use statement::KifFault;
use std::alloc::{AllocError, Global};

/// The lines of what was read so far, and the beginning of the next where a list is open.
#[derive(Drop)]
pub(crate) struct Lines {
    /// Where each list was opened that is not closed yet, the outermost first.
    opened: Vec<usize>,
    /// Whether what comes next is the first in its list, or stands in none.
    is_first: bool,
    output: Vec<u8>,
}

/// What stands before a tree.
fn gap_before(is_first: bool) -> &'static [u8]
    ensures { result.now ≡ gap is_first }
{
    if is_first {
        return b"";
    }
    b" "
}

/// What stands behind a tree.
fn end_behind(is_whole: bool) -> &'static [u8]
    ensures { result.now ≡ line_end is_whole }
{
    if is_whole {
        return b"\n";
    }
    b""
}

/// Adds the bytes of a name as trees have it.
fn add_lower(bytes: &[u8], output: &mut Vec<u8>) -> Result<(), AllocError>
    ensures { OnOk result (output.new.items ≡ output.old.items ++ map lower bytes.now) }
{
    for byte in bytes {
        output.push(byte.to_ascii_lowercase())?;
    }
    Ok(())
}

impl Lines {
    fn new(alloc: Global) -> Lines
        ensures opened { result.opened.items ≡ [] }
        ensures first { result.is_first ≡ true }
        ensures output { result.output.items ≡ [] }
    {
        Lines {
            opened: Vec::new(alloc),
            is_first: true,
            output: Vec::new(alloc),
        }
    }

    fn add_name(&mut self, bytes: &[u8]) -> Result<(), AllocError>
        ensures opened { OnOk result (self.new.opened.items ≡ self.old.opened.items) }
        ensures first { OnOk result (self.new.is_first ≡ (length self.old.opened.items == 0)) }
        ensures output { OnOk result (self.new.output.items
            ≡ self.old.output.items ++ gap self.old.is_first ++ map lower bytes.now ++ line_end (length self.old.opened.items == 0)) }
    {
        self.output.extend_from_slice(gap_before(self.is_first))?;
        add_lower(bytes, &mut self.output)?;
        self.is_first = self.opened.is_empty();
        self.output.extend_from_slice(end_behind(self.is_first))?;
        Ok(())
    }

    fn open_list(&mut self, start: usize) -> Result<(), AllocError>
        ensures opened { OnOk result (self.new.opened.items ≡ self.old.opened.items ++ start ∷ []) }
        ensures first { OnOk result (self.new.is_first ≡ true) }
        ensures output { OnOk result (self.new.output.items ≡ self.old.output.items ++ gap self.old.is_first ++ 40 ∷ []) }
    {
        self.output.extend_from_slice(gap_before(self.is_first))?;
        self.output.push(b'(')?;
        self.opened.push(start)?;
        self.is_first = true;
        Ok(())
    }

    /// Ends the list that stood within those that are open.
    fn close_list(&mut self) -> Result<(), AllocError>
        ensures opened { OnOk result (self.new.opened.items ≡ self.old.opened.items) }
        ensures first { OnOk result (self.new.is_first ≡ (length self.old.opened.items == 0)) }
        ensures output { OnOk result (self.new.output.items
            ≡ self.old.output.items ++ 41 ∷ [] ++ line_end (length self.old.opened.items == 0)) }
    {
        self.output.push(b')')?;
        self.is_first = self.opened.is_empty();
        self.output.extend_from_slice(end_behind(self.is_first))?;
        Ok(())
    }
}

/// The canonical text of each tree that a text stands for, one a line, or why it stands for none. The faults are those of `read`,
/// and `NoMemory` may stand in place of any other but `TooLong`, where the allocator refuses. No trees are made, so it takes little more
/// memory than the lines.
pub fn canonical_lines(alloc: Global, text: &[u8]) -> Result<Vec<u8>, KifFault>
    ensures lines { IfOk result (λ output. (ts : Trees) × Reads text.now ts × (output.items ≡ lines_of ts)) }
    ensures refuses { IfErr result (λ e. IsTextFault text.now e) }
{
    if text.len() > TEXT_LIMIT {
        return Err(KifFault::TooLong);
    }
    let mut lines = Lines::new(alloc);
    let mut at = 0;
    while at < text.len() {
        match kind_of(text[at]) {
            ByteKind::Opening => {
                if lines.opened.len() == OPEN_LIMIT {
                    return Err(KifFault::TooDeep(at));
                }
                lines.open_list(at)?;
                at += 1;
            }
            ByteKind::Closing => {
                let Some(_start) = lines.opened.pop() else {
                    return Err(KifFault::Unopened(at));
                };
                lines.close_list()?;
                at += 1;
            }
            ByteKind::Comment => at = comment_end(text, at),
            ByteKind::Space => at += 1,
            ByteKind::Name => {
                let end = name_end(text, at);
                if end - at > NAME_LIMIT {
                    return Err(KifFault::NameTooLong(at));
                }
                lines.add_name(&text[at..end])?;
                at = end;
            }
            ByteKind::Stray => return Err(KifFault::BadByte(at)),
        }
    }
    if let Some(outermost) = lines.opened.first() {
        return Err(KifFault::Unclosed(*outermost));
    }
    Ok(lines.output)
}
