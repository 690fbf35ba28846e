//! The law of the rows of cells.
ghost use Rattle.std.specs.Prelude.{ℕ, ◌<◌, ◌≤◌, List, length, slice_range};
ghost use Rattle.rules_clauses.specs.declared.numbered.Part.{Part};
ghost use Rattle.rules_clauses.specs.Adding.{AreSorted};
ghost use Rattle.statement.specs.Clause.{relation_of};
ghost use Rattle.rules_clauses.specs.Store.{Data, AreFull};
ghost use Rattle.ground_matching.specs.Cells.{rows_from, atoms_at, AreOthersOutside, pattern};
ghost use Rattle.rules_clauses.specs.Marks.{NumbersBelow};
ghost use Rattle.rules_clauses.specs.Numbers.{NamesDiffer};
ghost use Rattle.ground_terms.specs.Keys.{trees, AreKeys};
ghost use Rattle.ground_matching.specs.Standing.{AreRows};

/// The rows of a range of atoms are the rows of all atoms that have the lists of a pattern, where the
/// atoms outside of the range have another relation.
pub fn rows_are_those_of_the_atoms()
    ensures { (d : Data) (from : ℕ) → NamesDiffer d.words → (keys : List (List ℕ)) → AreKeys (length d.words) keys
        → (w : ℕ) → w < length d.words → (ps : List Part) → AreFull ps → AreSorted d from ps
        → (atoms : List ℕ) → NumbersBelow (length keys) atoms → (low high : ℕ) → low ≤ high → high ≤ length atoms
        → AreOthersOutside (trees d.words keys) (relation_of (pattern d from w ps)) low high atoms
        → AreRows (trees d.words keys) (pattern d from w ps) 0 (atoms_at (trees d.words keys) atoms)
        (rows_from keys w ps low (slice_range atoms low high)) }
{}
