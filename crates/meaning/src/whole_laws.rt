//! The laws of the meaning of the whole language.
ghost use Rattle.std.specs.Prelude.{◌≡◌, ◌↔◌, ◌||◌, Bool, IsTrue, List};
ghost use Rattle.statement.specs.Clause.{Atom, Alternative, Relation};
ghost use Rattle.statement.specs.Dependence.{IsAcyclic};
ghost use Rattle.statement.specs.Meaning.{StateOfTerms, Joint, Holds, IsDerived, IsRight};
ghost use Rattle.meaning.specs.Derivable.{HoldsWhole, IsStratified, IsStable};
ghost use Rattle.meaning.specs.Extension.{AreFounded, IsAnswered, IsRewriting, IsClosed};
ghost use Rattle.meaning.specs.Possible.{PlaysAs};

use crate::laws::{holds_by_a_rule, what_is_possible_and_fixed_holds};
use rules_profile::acyclic_sets_are_ranked;

/// Where the rules are stratified, an atom holds exactly where some rule, and some map from its variables to ground terms,
/// make its head the atom and every literal right.
pub fn what_holds_has_a_rule()
    ensures { (rules : List Alternative) → IsStratified rules → (S : StateOfTerms) (J : Joint) (x : Atom)
        → HoldsWhole rules S J x ↔ IsDerived rules (IsRight S J (HoldsWhole rules S J)) x }
{}

/// Where the rules are stratified, the atoms that hold are those that are derivable where they themselves hold behind a
/// `not`, and no other set of atoms is such.
pub fn what_holds_is_stable()
    ensures stable { (rules : List Alternative) → IsStratified rules → (S : StateOfTerms) (J : Joint)
        → IsStable rules S J (HoldsWhole rules S J) }
    ensures only { (rules : List Alternative) → IsStratified rules → (S : StateOfTerms) (J : Joint) (test : Atom → Bool)
        → IsStable rules S J (λ x. IsTrue (test x)) → (x : Atom) → IsTrue (test x) ↔ HoldsWhole rules S J x }
{}

/// Where no relation depends on itself, the rules are stratified, and an atom holds in the whole language exactly where it
/// holds in the profile without recursion.
pub fn the_whole_meaning_extends_todays()
    ensures stratified { (rules : List Alternative) → IsAcyclic rules → IsStratified rules }
    ensures same { (rules : List Alternative) → IsAcyclic rules → (S : StateOfTerms) (J : Joint) (x : Atom)
        → Holds rules S J x ↔ HoldsWhole rules S J x }
{
    holds_by_a_rule();
    acyclic_sets_are_ranked();
}

/// What is founded is what its rules derive, in every state.
pub fn what_is_founded_is_answered()
    ensures { (rules out : List Alternative) (own : Relation → Bool) → IsAcyclic out → AreFounded rules out own → IsAnswered rules out own }
{
    what_is_possible_and_fixed_holds();
}

/// Own relations of two kinds, of each of which what holds is what its rules derive, are so together.
pub fn what_is_answered_apart_is_answered_together()
    ensures { (rules out : List Alternative) (own one other : Relation → Bool) → ((p : Relation) → own p ≡ (one p || other p))
        → IsAnswered rules out one → IsAnswered rules out other → IsAnswered rules out own }
{}

/// Stratified rules of which some relations are stated in another way, and to which others are added, of which they say nothing, are played
/// the same, if what may come of these is stated.
pub fn rules_stated_in_another_way_are_played_the_same()
    ensures { (rules out : List Alternative) (own : Relation → Bool) → IsStratified rules → IsAcyclic out → IsRewriting rules out own
        → IsClosed rules out → PlaysAs rules out }
{
    holds_by_a_rule();
    what_is_possible_and_fixed_holds();
}
