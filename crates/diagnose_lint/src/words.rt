//! Words of the language and of other notations.
ghost use Rattle.std.specs.Prelude.{◌≡◌, ◌||◌};
ghost use Rattle.statement.specs.Tree.{name_eq};
ghost use Rattle.diagnose_lint.specs.Names.{is_one_of, language, foreign};

use rules_profile::Word;

/// Whether two names have the same bytes.
fn is_same_name(one: &[u8], other: &[u8]) -> bool
    ensures { result ≡ name_eq one.now other.now }
{
    one == other
}

/// Whether a name is a word that the language gives a meaning in play.
pub(crate) fn is_of_language(name: &[u8]) -> bool
    ensures { result ≡ is_one_of name.now language }
{
    Word::Role.is_named(name)
        || Word::Base.is_named(name)
        || Word::Input.is_named(name)
        || Word::Init.is_named(name)
        || Word::True.is_named(name)
        || Word::Does.is_named(name)
        || Word::Next.is_named(name)
        || Word::Legal.is_named(name)
        || Word::Goal.is_named(name)
        || Word::Terminal.is_named(name)
        || Word::Distinct.is_named(name)
}

/// Whether a name belongs to another notation.
pub(crate) fn is_foreign(name: &[u8]) -> bool
    ensures { result ≡ is_one_of name.now foreign }
{
    is_same_name(name, b":-")
        || is_same_name(name, b"<-")
        || is_same_name(name, b"->")
        || is_same_name(name, b"=>")
        || is_same_name(name, b"\\+")
}
