//! The names that the language gives a meaning in play, by number.
ghost use Rattle.std.specs.Prelude.{IfOk};
ghost use Rattle.rules_profile.specs.Uses.{use_in};
ghost use Rattle.rules.specs.Naming.{NumbersName, NumbersKeywords};
ghost use Rattle.rules_clauses.specs.StoreView.{data_of};

use crate::rule_set::Keywords;
use rules_clauses::Store;
use rules_profile::Word;
use std::alloc::AllocError;

/// The number of a word's name, which is the next one if it has none yet.
fn number_word(store: &mut Store, word: Word) -> Result<usize, AllocError>
    ensures { IfOk result (λ number. NumbersName (data_of store.old) (data_of store.new) number (use_in word).word) }
{
    let number = store.symbol(word.name())?;
    Ok(number)
}

/// The numbers of the names that have a meaning in play, whether or not they stand in the items.
pub(crate) fn number_keywords(store: &mut Store) -> Result<Keywords, AllocError>
    ensures { IfOk result (λ keywords. NumbersKeywords (data_of store.old) (data_of store.new) keywords) }
{
    let role = number_word(store, Word::Role)?;
    let base = number_word(store, Word::Base)?;
    let input = number_word(store, Word::Input)?;
    let init = number_word(store, Word::Init)?;
    let now = number_word(store, Word::True)?;
    let does = number_word(store, Word::Does)?;
    let next = number_word(store, Word::Next)?;
    let legal = number_word(store, Word::Legal)?;
    let goal = number_word(store, Word::Goal)?;
    let terminal = number_word(store, Word::Terminal)?;
    let distinct = number_word(store, Word::Distinct)?;
    Ok(Keywords {
        role,
        base,
        input,
        init,
        now,
        does,
        next,
        legal,
        goal,
        terminal,
        distinct,
    })
}
