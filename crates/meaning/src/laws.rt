//! The laws of the meaning of rules, and of kept instances.
ghost use Rattle.std.specs.Prelude.{◌≡◌, ◌↔◌, List, false, true};
ghost use Rattle.statement.specs.Lexical.{HasNames};
ghost use Rattle.statement.specs.Tree.{Tree};
ghost use Rattle.statement.specs.Clause.{Atom, Alternative, relation_of, tree_of};
ghost use Rattle.statement.specs.Dependence.{IsAcyclic, IsFixed, is_distinct};
ghost use Rattle.statement.specs.Items.{alternatives, is_term};
ghost use Rattle.statement.specs.Profile.{HasNoFault};
ghost use Rattle.statement.specs.Meaning.{StateOfTerms, Joint, Holds, HoldsAlways, IsDerived, IsRight, IsWithinBase, IsWithinInput, IsRole, IsBase, IsInput};
ghost use Rattle.meaning.specs.Kept.{HasRightInstance, HeadsKept, IsPossible};
ghost use Rattle.statement.specs.Substitution.{IsLawful, IsLawfulTerm};
ghost use Rattle.meaning.specs.Listed.{IsWellFormed};

/// An atom holds exactly when some alternative, and some map from its variables to ground terms, make
/// its head the atom and every literal right.
pub fn holds_by_a_rule()
    ensures { (rules : List Alternative) → IsAcyclic rules → (S : StateOfTerms) (J : Joint) (x : Atom)
        → Holds rules S J x ↔ IsDerived rules (IsRight S J (Holds rules S J)) x }
{}

/// For a state within `Base` and a joint move within `Input`, an atom holds exactly when some kept
/// instance with that head has every literal right.
pub fn kept_instances_suffice()
    ensures { (rules : List Alternative) → IsAcyclic rules → (S : StateOfTerms) (J : Joint)
        → IsWithinBase rules S → IsWithinInput rules J
        → (x : Atom) → Holds rules S J x ↔ HasRightInstance rules S J x }
{}

/// For an atom of a fixed relation, to head a kept instance is to hold, and so is to be possible where the
/// relation is not `distinct`.
pub fn what_is_possible_and_fixed_holds()
    ensures heads { (rules : List Alternative) → IsAcyclic rules → (x : Atom) → IsFixed rules (relation_of x)
        → HeadsKept rules x ↔ HoldsAlways rules x }
    ensures possible { (rules : List Alternative) → IsAcyclic rules → (x : Atom) → IsFixed rules (relation_of x) → is_distinct (relation_of x) ≡ false
        → IsPossible rules x ↔ HoldsAlways rules x }
{}

/// An accepted list of items is a well formed set of rules.
pub fn accepted_items_are_well_formed()
    ensures { (items : List Tree) → HasNoFault items → IsWellFormed (alternatives items) }
{}

/// Heads of kept instances, what holds, roles, base propositions and inputs are made of lawful names
/// and have no variable, and lawful terms and atoms have the names that texts have.
pub fn what_holds_is_lawful()
    ensures heads { (rules : List Alternative) → IsWellFormed rules → (x : Atom) → HeadsKept rules x → IsLawful x }
    ensures holds { (rules : List Alternative) → IsWellFormed rules → (S : StateOfTerms) (J : Joint)
        → IsWithinBase rules S → IsWithinInput rules J → (x : Atom) → Holds rules S J x → IsLawful x }
    ensures roles { (rules : List Alternative) → IsWellFormed rules → (r : Tree) → IsRole rules r → IsLawfulTerm r }
    ensures base { (rules : List Alternative) → IsWellFormed rules → (p : Tree) → IsBase rules p → IsLawfulTerm p }
    ensures inputs { (rules : List Alternative) → IsWellFormed rules → (r m : Tree) → IsInput rules r m → IsLawfulTerm m }
    ensures terms_named { (t : Tree) → is_term t ≡ true → HasNames t }
    ensures atoms_named { (x : Atom) → IsLawful x → HasNames (tree_of x) }
{}
