//! The laws of columns and places.
ghost use Rattle.std.specs.Prelude.{ℕ, ◌≡◌, List, length, Option};
ghost use Rattle.statement.specs.Tree.{Tree};
ghost use Rattle.rules_clauses.specs.declared.numbered.Part.{Part};
ghost use Rattle.rules_clauses.specs.Adding.{AreSorted};
ghost use Rattle.rules_clauses.specs.Numbers.{BeginsWith};
ghost use Rattle.rules_clauses.specs.Store.{Data};
ghost use Rattle.ground_matching.specs.Cells.{pattern};
ghost use Rattle.ground_join.specs.Columns.{bound_after, LookBack};
ghost use Rattle.ground_matching.specs.Leaves.{all_names};
ghost use Rattle.ground_matching.specs.Places.{columns_for, places_after, names_in_places, HaveSymbols};
ghost use Rattle.ground_matching.specs.Standing.{StandFor};

/// The columns of a pattern stand for the names in it, whatever places come behind; they look back at
/// places that there are, and bind those that are added.
pub fn columns_stand_for_a_pattern()
    ensures stand { (d : Data) (from : ℕ) (terms : List Tree) → HaveSymbols d.words terms → (w : ℕ) (ps : List Part) → AreSorted d from ps
        → (places later : List (Option ℕ)) → BeginsWith (places_after d from ps places) later
        → StandFor terms (names_in_places d.words later) (length places) (columns_for d from ps places) (all_names (pattern d from w ps).terms) }
    ensures back { (d : Data) (from : ℕ) (ps : List Part) (places : List (Option ℕ)) → LookBack (length places) (columns_for d from ps places) }
    ensures bind { (d : Data) (from : ℕ) (ps : List Part) (places : List (Option ℕ))
        → bound_after (length places) (columns_for d from ps places) ≡ length (places_after d from ps places) }
{}
