//! The tokens of a text, one after the other.
ghost use Rattle.std.specs.Prelude.{◌≡◌, ◌<◌, ◌+◌, [], ◌∷◌, length, MatchOption, slice_index, ◌==◌, ◌&&◌, ◌||◌, not, cond};
ghost use Rattle.statement.specs.Lexical.{is_name_byte, is_space, spots};
ghost use Rattle.diagnose_places.specs.Unread.{kind_begun};

/// What a token is: a bracket, a name, or a byte that no text may have.
#[derive(Clone, Copy, Debug, PartialEq, Eq)]
pub enum TokenKind {
    Opening,
    Closing,
    Word,
    Stray,
}

/// A token, and the offset where it begins.
#[derive(Clone, Copy, Debug, PartialEq, Eq)]
pub struct Token {
    pub start: usize,
    pub kind: TokenKind,
}

/// The tokens of a text that were not read yet.
#[derive(Clone, Copy)]
pub struct Tokens<'a> {
    text: &'a [u8],
    at: usize,
    in_comment: bool,
    in_name: bool,
}

/// Whether the byte may stand in a name.
pub(crate) fn names(byte: u8) -> bool
    ensures { result ≡ is_name_byte byte }
{
    matches!(byte, b'!'..=b'~') && !matches!(byte, b'(' | b')' | b';' | b'"' | b'|')
}

/// Whether the byte is white space.
fn is_blank(byte: u8) -> bool
    ensures { result ≡ is_space byte }
{
    matches!(byte, 9..=13 | b' ')
}

/// Whether a byte is one of a comment, where it is known whether the byte before it is.
fn is_in_comment(before: bool, byte: u8) -> bool
    ensures { result ≡ ((before || (byte == 59)) && not (byte == 10)) }
{
    (before || byte == b';') && byte != b'\n'
}

/// A byte outside comments, and a space for one of a comment.
fn seen_as(in_comment: bool, byte: u8) -> u8
    ensures { result ≡ cond in_comment 32 byte }
{
    if in_comment { b' ' } else { byte }
}

/// The kind of the token that begins with a byte outside comments, if one does.
fn kind_begun_by(byte: u8, in_name: bool) -> Option<TokenKind>
    ensures { result ≡ kind_begun in_name byte }
{
    if names(byte) {
        return if in_name { None } else { Some(TokenKind::Word) };
    }
    if byte == b'(' {
        return Some(TokenKind::Opening);
    }
    if byte == b')' {
        return Some(TokenKind::Closing);
    }
    if is_blank(byte) {
        return None;
    }
    Some(TokenKind::Stray)
}

impl<'a> Tokens<'a> {
    ghost use Rattle.diagnose_places.specs.Unread.{text_of, unread, spot_of, Passes};

    /// All tokens of a text.
    pub fn new(text: &'a [u8]) -> Self
        ensures text { text_of result ≡ text.now }
        ensures all { unread result ≡ spots text.now }
    {
        Tokens {
            text,
            at: 0,
            in_comment: false,
            in_name: false,
        }
    }

    /// Goes on by a byte, and gives the kind of the token that begins there, if one does.
    fn pass(&mut self) -> Option<TokenKind>
        requires { self.old.at < length self.old.text.now }
        ensures text { text_of self.new ≡ text_of self.old }
        ensures further { self.new.at ≡ self.old.at + 1 }
        ensures passed { Passes self.old result self.new }
    {
        let byte = self.text[self.at];
        let in_comment = is_in_comment(self.in_comment, byte);
        let seen = seen_as(in_comment, byte);
        let kind = kind_begun_by(seen, self.in_name);
        self.in_comment = in_comment;
        self.in_name = names(seen);
        self.at += 1;
        kind
    }

    /// The next token, or none at the end of the text.
    pub fn next(&mut self) -> Option<Token>
        ensures text { text_of self.new ≡ text_of self.old }
        ensures next { MatchOption result (unread self.old ≡ []) (λ token. unread self.old ≡ spot_of (text_of self.old) token ∷ unread self.new) }
    {
        while self.at < self.text.len() {
            let start = self.at;
            if let Some(kind) = self.pass() {
                return Some(Token { start, kind });
            }
        }
        None
    }
}
