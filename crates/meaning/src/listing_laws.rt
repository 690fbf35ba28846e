//! The laws of the listing: which instances it has, in which order, and how atoms are numbered.
ghost use Rattle.std.specs.Prelude.{[], ◌≡◌, ◌↔◌, ◌++◌, List};
ghost use Rattle.statement.specs.Tree.{Tree};
ghost use Rattle.statement.specs.Clause.{Atom, Alternative};
ghost use Rattle.statement.specs.Dependence.{IsAmong};
ghost use Rattle.statement.specs.Items.{alternatives};
ghost use Rattle.statement.specs.Profile.{HasNoFault, roles};
ghost use Rattle.statement.specs.Meaning.{StateOfTerms, Joint, Holds, IsWithinBase, IsWithinInput, IsRole, IsBase, IsInput};
ghost use Rattle.meaning.specs.Kept.{HeadsKept, IsPossible};
ghost use Rattle.statement.specs.Listing.{Instance, listing, fixed_listing, context_atoms, with_atoms, heads, fixed_part, other_part, role_list, base_list, input_list};
ghost use Rattle.meaning.specs.InOrder.{AreDistinct};
ghost use Rattle.statement.specs.Printed.{AreInOrder};
ghost use Rattle.meaning.specs.Numbers.{StandsBefore};
ghost use Rattle.statement.specs.GoalsAndMoves.{AreInPrintedOrder};
ghost use Rattle.meaning.specs.Listed.{IsKeptInstance, IsWellFormed, HasListed, HasRightListed};

/// The listing has exactly the kept instances, and exactly their heads; and the atoms that have a
/// number are exactly the possible ones.
pub fn the_listing_is_exact()
    ensures instances { (rules : List Alternative) → IsWellFormed rules
        → (i : Instance) → IsAmong i (listing rules).kept ↔ IsKeptInstance rules i }
    ensures heads { (rules : List Alternative) → IsWellFormed rules → (x : Atom) → HeadsKept rules x ↔ HasListed rules x }
    ensures atoms { (rules : List Alternative) → IsWellFormed rules
        → (x : Atom) → IsAmong x (listing rules).atoms ↔ IsPossible rules x }
{}

/// The kept instances stand by relation, then by alternative, then by the numbers of the atoms that
/// they match, none twice; and no other list of them stands so.
pub fn the_listing_is_in_order()
    ensures order { (rules : List Alternative) → IsWellFormed rules → AreInOrder (StandsBefore rules (listing rules).atoms) (listing rules).kept }
    ensures once { (rules : List Alternative) → IsWellFormed rules → AreDistinct (listing rules).kept }
    ensures determined { (rules : List Alternative) → IsWellFormed rules → (is : List Instance)
        → AreInOrder (StandsBefore rules (listing rules).atoms) is → ((i : Instance) → IsAmong i is ↔ IsKeptInstance rules i)
        → is ≡ (listing rules).kept }
{}

/// No atom has two numbers. Atoms are numbered by first appearance: in the heads of kept instances of
/// fixed relations, in `true` of the base propositions and `does` of the inputs, and in the other heads.
pub fn atoms_are_numbered_in_order()
    ensures once { (rules : List Alternative) → AreDistinct (listing rules).atoms }
    ensures appearance { (rules : List Alternative)
        → (listing rules).atoms
        ≡ with_atoms [] (heads (fixed_part rules (listing rules).kept) ++
        (context_atoms (fixed_listing rules).atoms ++ heads (other_part rules (listing rules).kept))) }
{}

/// For a state within `Base` and a joint move within `Input`, an atom holds exactly when some instance
/// of the listing with that head has every literal right.
pub fn listed_instances_suffice()
    ensures { (rules : List Alternative) → IsWellFormed rules → (S : StateOfTerms) (J : Joint)
        → IsWithinBase rules S → IsWithinInput rules J
        → (x : Atom) → Holds rules S J x ↔ HasRightListed rules S J x }
{}

/// The roles, base propositions and inputs of the listing are those that hold in the empty context,
/// none twice; the roles stand as the items state them, and the others in printed order.
pub fn the_context_is_listed()
    ensures roles { (rules : List Alternative) → IsWellFormed rules → (r : Tree) → IsAmong r (role_list rules) ↔ IsRole rules r }
    ensures roles_order { (items : List Tree) → HasNoFault items → role_list (alternatives items) ≡ roles items }
    ensures roles_once { (rules : List Alternative) → IsWellFormed rules → AreDistinct (role_list rules) }
    ensures base { (rules : List Alternative) → IsWellFormed rules → (p : Tree) → IsAmong p (base_list rules) ↔ IsBase rules p }
    ensures base_order { (rules : List Alternative) → IsWellFormed rules → AreInPrintedOrder (base_list rules) }
    ensures inputs { (rules : List Alternative) → IsWellFormed rules → (r m : Tree) → IsRole rules r
        → IsAmong m (input_list rules r) ↔ IsInput rules r m }
    ensures inputs_order { (rules : List Alternative) → IsWellFormed rules → (r : Tree) → IsRole rules r → AreInPrintedOrder (input_list rules r) }
{}
