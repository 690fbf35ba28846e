//! The words that the language gives a meaning in play: their names, numbers of arguments and places.
ghost use Rattle.std.specs.Prelude.{◌≡◌};
ghost use Rattle.statement.specs.Tree.{name_eq};
ghost use Rattle.rules_profile.specs.Uses.{IsUseOf, use_in};

use crate::forms::is_same_name;

/// A word that has a meaning in play.
#[derive(Clone, Copy, Debug, PartialEq, Eq)]
pub enum Word {
    Role,
    Base,
    Input,
    Init,
    True,
    Does,
    Next,
    Legal,
    Goal,
    Terminal,
    Distinct,
}

/// How a word is used: its name, its number of arguments, and whether it may head an item and stand in a body.
#[derive(Clone, Copy, Debug, PartialEq, Eq)]
pub(crate) struct Use {
    pub(crate) name: &'static [u8],
    pub(crate) arity: usize,
    pub(crate) may_head: bool,
    pub(crate) may_stand: bool,
}

/// All words that have a meaning in play.
pub(crate) const WORDS: [Word; 11] = [
    Word::Role,
    Word::Base,
    Word::Input,
    Word::Init,
    Word::True,
    Word::Does,
    Word::Next,
    Word::Legal,
    Word::Goal,
    Word::Terminal,
    Word::Distinct,
];

impl Word {
    /// The row of the word in the table of words.
    pub(crate) fn usage(self) -> Use
        ensures { IsUseOf (use_in self) result }
    {
        let (name, arity, may_head, may_stand): (&[u8], usize, bool, bool) = match self {
            Word::Role => (b"role", 1, true, true),
            Word::Base => (b"base", 1, true, true),
            Word::Input => (b"input", 2, true, true),
            Word::Init => (b"init", 1, true, false),
            Word::True => (b"true", 1, false, true),
            Word::Does => (b"does", 2, false, true),
            Word::Next => (b"next", 1, true, false),
            Word::Legal => (b"legal", 2, true, true),
            Word::Goal => (b"goal", 2, true, true),
            Word::Terminal => (b"terminal", 0, true, true),
            Word::Distinct => (b"distinct", 2, false, true),
        };
        Use {
            name,
            arity,
            may_head,
            may_stand,
        }
    }

    /// The bytes of the word.
    pub fn name(self) -> &'static [u8]
        ensures { result.now ≡ (use_in self).word }
    {
        self.usage().name
    }

    /// How many arguments the word takes.
    pub fn arity(self) -> usize
        ensures { result ≡ (use_in self).arity }
    {
        self.usage().arity
    }

    /// Whether these bytes are the word.
    pub fn is_named(self, name: &[u8]) -> bool
        ensures { result ≡ name_eq name.now (use_in self).word }
    {
        is_same_name(name, self.name())
    }
}
