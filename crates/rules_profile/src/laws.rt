//! The laws of the definitions.
ghost use Rattle.std.specs.Prelude.{◌≡◌, ◌<◌, ◌↔◌, Bool, List, Some, true};
ghost use Rattle.statement.specs.Tree.{Tree};
ghost use Rattle.statement.specs.Clause.{Alternative, Relation, relation_of};
ghost use Rattle.statement.specs.Dependence.{Depends, DependsDirectly, IsAcyclic, IsAmong, IsFixed, has_edge, dependences, is_fixed};
ghost use Rattle.statement.specs.Items.{alternatives};
ghost use Rattle.rules_profile.specs.Lawful.{IsLawfulProfile};
ghost use Rattle.rules_profile.specs.Listed.{HasLawfulNames, IsOrderOfHeads};
ghost use Rattle.statement.specs.Order.{rank, rank_by, relations_in_order};
ghost use Rattle.statement.specs.Safety.{is_safe};
ghost use Rattle.rules_profile.specs.Faults.{HasFault};
ghost use Rattle.statement.specs.Profile.{ItemFault, HasNoFault, item_fault_in};

/// What rests on something that rests on a third rests on that third.
pub fn dependence_is_transitive()
    ensures direct { (rules : List Alternative) (p q : Relation) → DependsDirectly rules p q → Depends rules p q }
    ensures transitive { (rules : List Alternative) (p q r : Relation) → Depends rules p q → Depends rules q r → Depends rules p r }
    ensures least { (rules : List Alternative) (test : Relation → Relation → Bool)
        → ((p q : Relation) → DependsDirectly rules p q → test p q ≡ true)
        → ((p q r : Relation) → test p q ≡ true → test q r ≡ true → test p r ≡ true)
        → (p q : Relation) → Depends rules p q → test p q ≡ true }
{}

/// The table of dependences has exactly the pairs of which the first depends on the second.
pub fn dependence_is_tested()
    ensures { (rules : List Alternative) (p q : Relation) → (has_edge (dependences rules) p q ≡ true) ↔ Depends rules p q }
{}

/// In an accepted list of items no relation depends on itself, and every alternative is safe.
pub fn accepted_sets_are_acyclic()
    ensures acyclic { (items : List Tree) → HasNoFault items → IsAcyclic (alternatives items) }
    ensures safe { (items : List Tree) → HasNoFault items
        → (rule : Alternative) → IsAmong rule (alternatives items) → is_safe rule ≡ true }
{}

/// Where no relation depends on itself, the test of fixed relations is exact, and a relation has a
/// greater rank than those that it depends on.
pub fn acyclic_sets_are_ranked()
    ensures fixed { (rules : List Alternative) → IsAcyclic rules → (p : Relation) → (is_fixed rules p ≡ true) ↔ IsFixed rules p }
    ensures rank { (rules : List Alternative) → IsAcyclic rules
        → (p q : Relation) → DependsDirectly rules p q → rank rules q < rank rules p }
    ensures equation { (rules : List Alternative) → IsAcyclic rules
        → (p : Relation) → rank rules p ≡ rank_by (λ q. rank rules q) rules p }
    ensures listed { (rules : List Alternative) (rule : Alternative) → IsAmong rule rules
        → IsAmong (relation_of rule.head) (relations_in_order rules) }
{}

/// A list of items has no fault exactly where it is a lawful description: each item has its form and
/// places, the limits are kept, each alternative is safe, nothing depends on itself, the dependences
/// of heads are allowed, and there is a role.
pub fn lawful_items_have_no_fault()
    ensures { (items : List Tree) → HasNoFault items ↔ IsLawfulProfile items }
{}

/// The fault of a list of items is the one that its definition names: the first item that has it,
/// where no item has an earlier kind of fault.
pub fn the_fault_is_the_first()
    ensures { (items : List Tree) (f : ItemFault) → (item_fault_in items ≡ Some f) ↔ HasFault items f }
{}

/// The list of relations rises strictly by place, rank, name and number of arguments, and has each
/// relation that heads an alternative, once, and no other.
pub fn relations_stand_in_order()
    ensures { (rules : List Alternative) → IsOrderOfHeads rules (relations_in_order rules) }
{}

/// All that an accepted list of items speaks of has lawful names, and it has at least one role and no more than the limit.
pub fn accepted_items_have_lawful_names()
    ensures { (items : List Tree) → HasNoFault items → HasLawfulNames items }
{}
