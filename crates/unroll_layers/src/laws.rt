//! The laws that lead from the numbers of an instantiation to ways and paths through atoms.
ghost use Rattle.std.specs.Prelude.{ℕ, suc, Bool, List};
ghost use Rattle.statement.specs.Clause.{Alternative, Relation};
ghost use Rattle.ground_instances.specs.declared.flat_ground.FlatGround.{FlatGround};
ghost use Rattle.ground_instances.specs.GroundView.{IsGround, instances_of};
ghost use Rattle.meaning.specs.Layers.{IsLayered, IsBounded};
ghost use Rattle.meaning.specs.Stacks.{IsStacked, IsEnough};
ghost use Rattle.unroll_layers.specs.ByNumber.{IsBoundedIn};
ghost use Rattle.unroll_layers.specs.Carried.{IsStackedIn};

/// Where no way by the numbers of an instantiation is as long as there are layers, none is so through atoms.
pub fn what_is_slotted_is_bounded()
    ensures { (found out : List Alternative) (own : Relation → Bool) (word : ℕ → Relation → List ℕ) (n : ℕ) (g : FlatGround) → IsGround out g
        → IsLayered found out own word n → IsBoundedIn out own word n (instances_of g) → IsBounded out own word n }
{}

/// Where by the numbers of an instantiation what stands in a layer is kept in the one behind it, and no path is as long as there are layers, no
/// path is so through atoms.
pub fn what_is_carried_is_enough()
    ensures { (found out : List Alternative) (own : Relation → Bool) (word : ℕ → Relation → List ℕ) (m : ℕ) (g : FlatGround) → IsGround out g
        → IsStacked found out own word (suc m) → IsStackedIn out own word m (instances_of g) → IsEnough out own word m }
{}
