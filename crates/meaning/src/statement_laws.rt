//! The laws that give the definitions of the crate `statement` their right: there is one meaning, there is one listing with one
//! numbering of its atoms, and going through the listing finds what holds.
ghost use Rattle.std.specs.Prelude.{◌≡◌, ◌↔◌, List, Bool, true, IsTrue};
ghost use Rattle.statement.specs.Tree.{Tree};
ghost use Rattle.statement.specs.Clause.{Atom, Alternative};
ghost use Rattle.statement.specs.Dependence.{IsAcyclic, IsAmong};
ghost use Rattle.statement.specs.Meaning.{StateOfTerms, Joint, Holds, IsDerived, IsRight, IsWithinBase, IsWithinInput, IsRole, IsEnded, IsStuck};
ghost use Rattle.meaning.specs.Listed.{IsWellFormed};
ghost use Rattle.statement.specs.Listing.{Listing, listing};
ghost use Rattle.statement.specs.GoalsAndMoves.{AreAfter, AreLegal, IsGoal};
ghost use Rattle.meaning.specs.Determined.{IsListing};
ghost use Rattle.meaning.specs.Evaluation.{holding, after_list, legal_list, is_ended, is_stuck, goal_of};

/// There is one meaning: whatever tells of each atom that it holds exactly when a rule makes it so
/// tells what holds.
pub fn one_meaning()
    ensures { (rules : List Alternative) → IsAcyclic rules → (S : StateOfTerms) (J : Joint) (tells : Atom → Bool)
        → ((x : Atom) → IsTrue (tells x) ↔ IsDerived rules (IsRight S J (λ y. IsTrue (tells y))) x)
        → (x : Atom) → IsTrue (tells x) ↔ Holds rules S J x }
{}

/// The listing and the numbers of its atoms are determined together: there is exactly one list of instances with a list of
/// atoms, such that the instances are the kept ones, they stand in the order of the keys that the numbers of these atoms give
/// them, and the atoms stand in the order of their first appearance in these instances.
pub fn the_listing_and_its_numbers_are_determined()
    ensures { (rules : List Alternative) → IsWellFormed rules → (g : Listing) → IsListing rules g ↔ (g ≡ listing rules) }
{}

/// Going through the kept instances in their order, each by what was found before it, finds exactly
/// what holds, for a state within `Base` and a joint move within `Input`. So the state after a turn, the
/// legal moves and the goal of a role, and whether a state is ended or stuck, can be computed.
pub fn going_through_finds_what_holds()
    ensures found { (rules : List Alternative) → IsWellFormed rules → (S : StateOfTerms) (J : Joint)
        → IsWithinBase rules S → IsWithinInput rules J → (x : Atom) → IsAmong x (holding rules S J) ↔ Holds rules S J x }
    ensures after { (rules : List Alternative) → IsWellFormed rules → (S : StateOfTerms) (J : Joint)
        → IsWithinBase rules S → IsWithinInput rules J → AreAfter rules S J (after_list rules S J) }
    ensures legal { (rules : List Alternative) → IsWellFormed rules → (S : StateOfTerms)
        → IsWithinBase rules S → (r : Tree) → IsRole rules r → AreLegal rules S r (legal_list rules S r) }
    ensures ended { (rules : List Alternative) → IsWellFormed rules → (S : StateOfTerms)
        → IsWithinBase rules S → (is_ended rules S ≡ true) ↔ IsEnded rules S }
    ensures stuck { (rules : List Alternative) → IsWellFormed rules → (S : StateOfTerms)
        → IsWithinBase rules S → (is_stuck rules S ≡ true) ↔ IsStuck rules S }
    ensures goal { (rules : List Alternative) → IsWellFormed rules → (S : StateOfTerms)
        → IsWithinBase rules S → (r : Tree) → IsGoal rules S r (goal_of rules S r) }
{}
