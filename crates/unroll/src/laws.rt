//! The laws that lead from the numbers of an instantiation to terms.
ghost use Rattle.std.specs.Prelude.{ℕ, ◌≡◌, ◌<◌, List, length, Some};
ghost use Rattle.statement.specs.Tree.{Tree};
ghost use Rattle.statement.specs.Clause.{Alternative};
ghost use Rattle.statement.specs.Dependence.{IsAmong};
ghost use Rattle.statement.specs.Kinds.{place_in};
ghost use Rattle.statement.specs.Listing.{base_list};
ghost use Rattle.ground_instances.specs.declared.flat_ground.FlatGround.{FlatGround};
ghost use Rattle.ground_instances.specs.GroundView.{IsGround, base_of, instances_of, kinds_of};
ghost use Rattle.unroll_strata.specs.Founded.{IsReached};
ghost use Rattle.unroll.specs.ReachedByNumber.{IsReachedIn};

use meaning::kinds_say_what_atoms_are;

/// A base proposition that is in the state after some number of turns or fewer, by the numbers of an instantiation, is so by the rules.
pub fn what_is_reached_by_number_is_reached()
    ensures { (rules : List Alternative) (g : FlatGround) → IsGround rules g → (n k : ℕ) (t : Tree)
        → place_in t (base_list rules) ≡ Some k → IsReachedIn (kinds_of g) (instances_of g) n k → IsReached rules n t }
{
    kinds_say_what_atoms_are();
}

/// Where play comes to the numbers of all base propositions it comes to all base propositions.
pub fn where_all_are_reached_by_number_all_terms_are()
    ensures { (rules : List Alternative) (g : FlatGround) → IsGround rules g
        → ((k : ℕ) → k < length (base_of g) → (n : ℕ) × IsReachedIn (kinds_of g) (instances_of g) n k)
        → (t : Tree) → IsAmong t (base_list rules) → (n : ℕ) × IsReached rules n t }
{
    what_is_reached_by_number_is_reached();
}
