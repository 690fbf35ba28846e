//! Findings, and whether they are true.
ghost use Rattle.std.specs.Prelude.{◌≡◌, ◌&&◌, ◌||◌, not};
ghost use Rattle.kif.specs.View.{tree_of, trees_in};
ghost use Rattle.rules_relations.specs.Relations.{relation_in};

use rules_profile::Word;
use rules_relations::Relation;

/// What is lawful and most likely wrong.
#[derive(Clone, Copy, Debug)]
pub enum Finding<'a> {
    /// The item asks a relation that no item states.
    NeverStated(Relation<'a>),
    /// The item asks a relation that no item states, and some item states one of the same name with so many arguments.
    OtherArity(Relation<'a>, usize),
    /// The item states a relation that no item asks.
    NeverAsked(Relation<'a>),
    /// The item states a goal whose value is no number from 0 to 100.
    BadGoal,
    /// The item states or asks a relation whose name belongs to another notation.
    Foreign(Relation<'a>),
    /// No item states this word of the language.
    Missing(Word),
}

/// A finding, and the place of its item in the list.
#[derive(Clone, Copy, Debug)]
pub struct Note<'a> {
    pub place: usize,
    pub finding: Finding<'a>,
}
