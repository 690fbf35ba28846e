//! The laws of play: states and legal moves as lists, goal values, what an and gate reads, and the
//! kinds of atoms.
ghost use Rattle.std.specs.Prelude.{ℕ, None, Bool, true, [], ◌≡◌, ◌≢◌, ◌↔◌, ◌<◌, List, length};
ghost use Rattle.statement.specs.Tree.{Tree};
ghost use Rattle.statement.specs.Clause.{Atom, Alternative, relation_of};
ghost use Rattle.statement.specs.Dependence.{IsAcyclic, IsAmong, IsFixed};
ghost use Rattle.statement.specs.declared.kind.Kind.{Kind};
ghost use Rattle.statement.specs.declared.kind.Kind.TheVariants.{Other};
ghost use Rattle.statement.specs.Meaning.{StateOfTerms, Joint, IsWithinBase, IsWithinInput, HoldsAlways, atom1};
ghost use Rattle.statement.specs.Words.{w_init};
ghost use Rattle.statement.specs.Listing.{Instance, listing};
ghost use Rattle.meaning.specs.Listed.{IsWellFormed};
ghost use Rattle.statement.specs.Kept.{gate};
ghost use Rattle.meaning.specs.Gates.{IsGateRight, IsBodyRight};
ghost use Rattle.statement.specs.Kinds.{kind_of};
ghost use Rattle.meaning.specs.Kinds.{MeansKind};
ghost use Rattle.statement.specs.GoalsAndMoves.{AreInPrintedOrder, AreStart, AreAfter, AreLegal, IsGoal, starts, start_list, is_dropped};
ghost use Rattle.meaning.specs.Effects.{HasNoEffect, IsWithinLimits};
ghost use Rattle.statement.specs.Limits.{excess_by};
ghost use Rattle.statement.specs.Most.{Limits};

/// A list in printed order is determined by its members. So there is one list for the start, one for
/// the state after a turn, and one of the legal moves of each role; and each role has one goal value.
pub fn play_is_determined()
    ensures lists { (ts us : List Tree) → AreInPrintedOrder ts → AreInPrintedOrder us
        → ((t : Tree) → IsAmong t ts ↔ IsAmong t us) → ts ≡ us }
    ensures start { (rules : List Alternative) (ps qs : List Tree) → AreStart rules ps → AreStart rules qs → ps ≡ qs }
    ensures after { (rules : List Alternative) (S : StateOfTerms) (J : Joint) (ps qs : List Tree)
        → AreAfter rules S J ps → AreAfter rules S J qs → ps ≡ qs }
    ensures legal { (rules : List Alternative) (S : StateOfTerms) (r : Tree) (ms ns : List Tree)
        → AreLegal rules S r ms → AreLegal rules S r ns → ms ≡ ns }
    ensures goal { (rules : List Alternative) (S : StateOfTerms) (r : Tree) (u v : ℕ) → IsGoal rules S r u → IsGoal rules S r v → u ≡ v }
{}

/// The base propositions that hold at the start are those of which `init` holds, in printed order.
pub fn the_start_is_listed()
    ensures starts { (rules : List Alternative) → IsWellFormed rules
        → (p : Tree) → (starts rules p ≡ true) ↔ HoldsAlways rules (atom1 w_init p) }
    ensures list { (rules : List Alternative) → IsWellFormed rules → AreStart rules (start_list rules) }
{}

/// What an and gate reads of a kept instance is right exactly when the whole body is, for a state
/// within `Base` and a joint move within `Input`. It reads nothing of an instance of a fixed relation,
/// and no atom without a number.
pub fn gates_read_enough()
    ensures right { (rules : List Alternative) → IsWellFormed rules → (S : StateOfTerms) (J : Joint)
        → IsWithinBase rules S → IsWithinInput rules J
        → (i : Instance) → IsAmong i (listing rules).kept → IsGateRight rules S J i ↔ IsBodyRight rules S J i }
    ensures fixed { (rules : List Alternative) → IsWellFormed rules
        → (i : Instance) → IsAmong i (listing rules).kept → IsFixed rules (relation_of i.head) → gate rules i ≡ [] }
    ensures numbers { (rules : List Alternative) → IsWellFormed rules
        → (i : Instance) → IsAmong i (listing rules).kept → (r : ℕ × Bool) → IsAmong r (gate rules i) → r.0 < length (listing rules).atoms }
{}

/// The kind of an atom is what the atom is; it is `Other` where the atom is nothing else.
pub fn kinds_say_what_atoms_are()
    ensures sound { (rules : List Alternative) → IsAcyclic rules
        → (x : Atom) (kind : Kind) → kind_of rules x ≡ kind → kind ≢ Other → MeansKind rules x kind }
    ensures complete { (rules : List Alternative) → IsAcyclic rules
        → (x : Atom) (kind : Kind) → MeansKind rules x kind → kind_of rules x ≡ kind }
{}

/// The heads that are counted as dropped are those that have no effect on play: `init` and `next`
/// outside `Base`, and `legal` of what is no input of a role.
pub fn dropped_heads_have_no_effect()
    ensures { (rules : List Alternative) → IsWellFormed rules → (x : Atom) → (is_dropped rules x ≡ true) ↔ HasNoEffect rules x }
{}

/// No limit is named exactly where all that is kept is within the limits.
pub fn a_limit_is_named_if_passed()
    ensures { (most : Limits) (rules : List Alternative) → (excess_by most rules ≡ None) ↔ IsWithinLimits most rules }
{}
