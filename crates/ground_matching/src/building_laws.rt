//! The laws of terms that are built from placed parts.
ghost use Rattle.std.specs.Prelude.{ℕ, ◌≡◌, List, Option, [], length, map, true};
ghost use Rattle.statement.specs.Tree.{trees_of};
ghost use Rattle.rules_clauses.specs.declared.numbered.Part.{Part};
ghost use Rattle.rules_clauses.specs.Adding.{AreSorted};
ghost use Rattle.statement.specs.Items.{are_terms};
ghost use Rattle.rules_clauses.specs.Store.{Data, terms_before, AreFull};
ghost use Rattle.ground_terms.specs.Building.{PartsPlaced};
ghost use Rattle.ground_matching.specs.Placed.{placed_part, HavePlaces};

/// Parts of terms, of which each variable has a place, can be built once they are placed.
pub fn placed_parts_can_be_built()
    ensures placed { (d : Data) (from : ℕ) (places : List (Option ℕ)) (ps : List Part) → AreSorted d from ps → HavePlaces d from places ps
        → are_terms (trees_of (terms_before d from ps [])) ≡ true
        → PartsPlaced (length d.words) (length places) (map (placed_part d from places) ps) }
    ensures full { (d : Data) (from : ℕ) (places : List (Option ℕ)) (ps : List Part) → AreFull ps
        → AreFull (map (placed_part d from places) ps) }
{}
