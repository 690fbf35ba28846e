//! Where the trees of a text begin, and the names in them.
ghost use Rattle.std.specs.Prelude.{◌≡◌, ◌<◌, ◌≤◌, ℕ, List, length, drop, map, IsSome, IfSome, IsTrue, None, take, slice_range, ◌↔◌, ◌++◌};
ghost use Rattle.statement.specs.Lexical.{lower, name_front, spots, word};
ghost use Rattle.statement.specs.Tree.{trees_of};
ghost use Rattle.statement.specs.Reading.{Reads, tree_tokens, trees_tokens};
ghost use Rattle.kif.specs.View.{tree_of, trees_in};
ghost use Rattle.diagnose_places.specs.Unread.{text_of, unread, token_at};
ghost use Rattle.diagnose_places.specs.Standing.{LeavesOut, BeginsAt, IsNoWordOf, IsFirstWordBehind};

use crate::tokens::{Token, TokenKind, Tokens, names};
use kif::Expr;
use std::alloc::Allocator;

/// Goes on behind the tokens of a tree.
pub fn skip_tree<A: Allocator>(tokens: &mut Tokens, e: &Expr<A>)
    ensures text { text_of tokens.new ≡ text_of tokens.old }
    ensures passed { LeavesOut (unread tokens.old) (tree_tokens (tree_of e.now)) (unread tokens.new) }
{
    match e {
        Expr::Name(_) => {
            let _ = tokens.next();
        }
        Expr::List(parts) => {
            let _ = tokens.next();
            for part in parts {
                skip_tree(tokens, part);
            }
            let _ = tokens.next();
        }
    }
}

/// All tokens of a text but those of the first trees.
fn behind_items<'a, A: Allocator>(text: &'a [u8], items: &[Expr<A>], index: usize) -> Tokens<'a>
    requires { index ≤ length items.now }
    ensures text { text_of result ≡ text.now }
    ensures passed { LeavesOut (spots text.now) (trees_tokens (trees_of (trees_in (take index items.now)))) (unread result) }
{
    let mut tokens = Tokens::new(text);
    for item in &items[..index] {
        skip_tree(&mut tokens, item);
    }
    tokens
}

/// Where the tree at a place of the list begins, where the text is read as that list. There is none where the list has no such place.
pub fn item_start<A: Allocator>(text: &[u8], items: &[Expr<A>], index: usize) -> Option<usize>
    ensures begins { IfSome result (λ start. Reads text.now (trees_of (trees_in items.now)) → BeginsAt text.now (drop index (trees_in items.now)) start) }
    ensures found { Reads text.now (trees_of (trees_in items.now)) → index < length items.now → IsSome result }
{
    if index >= items.len() {
        return None;
    }
    let mut tokens = behind_items(text, items, index);
    let first = tokens.next()?;
    Some(first.start)
}

/// Where the run of name bytes ends that begins at an offset.
fn run_end(text: &[u8], start: usize) -> usize
    requires { start ≤ length text.now }
    ensures within { result ≤ length text.now }
    ensures further { start ≤ result }
    ensures run { map lower (slice_range text.now start result) ≡ name_front (drop start text.now) }
{
    for end in start..text.len() {
        if !names(text[end]) {
            return end;
        }
    }
    text.len()
}

/// Whether bytes are the name, in whatever case.
fn is_in_lower_case(bytes: &[u8], name: &[u8]) -> bool
    ensures { IsTrue result ↔ (map lower bytes.now ≡ name.now) }
{
    if bytes.len() != name.len() {
        return false;
    }
    for i in 0..bytes.len() {
        if bytes[i].to_ascii_lowercase() != name[i] {
            return false;
        }
    }
    true
}

/// Whether the name, in lower case, stands at an offset.
fn is_name_at(text: &[u8], start: usize, name: &[u8]) -> bool
    ensures { IsTrue result ↔ (name_front (drop start text.now) ≡ name.now) }
{
    let from = start.min(text.len());
    let end = run_end(text, from);
    is_in_lower_case(&text[from..end], name)
}

/// Whether a token is the name, in lower case.
pub(crate) fn is_name(text: &[u8], token: Token, name: &[u8]) -> bool
    ensures { IsTrue result ↔ (token_at text.now token.start token.kind ≡ word name.now) }
{
    match token.kind {
        TokenKind::Word => is_name_at(text, token.start, name),
        _ => false,
    }
}

/// Where a name, in lower case, stands first from the tree at a place of the list on, where the text is read as that list.
pub fn word_start<A: Allocator>(
    text: &[u8],
    items: &[Expr<A>],
    index: usize,
    name: &[u8],
) -> Option<usize>
    ensures stands { IfSome result (λ start. Reads text.now (trees_of (trees_in items.now))
        → IsFirstWordBehind text.now (take index (trees_in items.now)) name.now start) }
    ensures found { result ≡ None → index ≤ length items.now → Reads text.now (trees_of (trees_in items.now))
        → IsNoWordOf name.now (trees_tokens (trees_of (drop index (trees_in items.now)))) }
{
    if index > items.len() {
        return None;
    }
    let mut tokens = behind_items(text, items, index);
    while let Some(token) = tokens.next() {
        if is_name(text, token, name) {
            return Some(token.start);
        }
    }
    None
}
