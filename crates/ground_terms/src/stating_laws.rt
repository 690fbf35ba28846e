//! The laws of what atoms state.
ghost use Rattle.std.specs.Prelude.{ℕ, ◌<◌, ◌≡◌, List, length, map};
ghost use Rattle.statement.specs.Clause.{Atom};
ghost use Rattle.ground_terms.specs.Atoms.{AreAtoms};
ghost use Rattle.rules_clauses.specs.Numbers.{word_at, NamesDiffer};
ghost use Rattle.ground_terms.specs.Keys.{AreKeys, term_at, trees};
ghost use Rattle.statement.specs.Listing.{terms_of, terms_with};
ghost use Rattle.ground_terms.specs.Stated.{only_parts, second_parts};

/// The numbers that atoms state are the terms that the listing reads off them.
pub fn stated_terms_are_listed()
    ensures only { (words : List (List ℕ)) → NamesDiffer words → (keys : List (List ℕ)) → AreKeys (length words) keys → (w : ℕ)
        → w < length words
        → (numbers : List ℕ) (atoms : List Atom) → AreAtoms (trees words keys) numbers atoms
        → map (term_at (trees words keys)) (only_parts keys w numbers) ≡ terms_of (word_at words w) atoms }
    ensures second { (words : List (List ℕ)) → NamesDiffer words → (keys : List (List ℕ)) → AreKeys (length words) keys → (w : ℕ)
        → w < length words
        → (role : ℕ) → role < length (trees words keys) → (numbers : List ℕ) (atoms : List Atom) → AreAtoms (trees words keys) numbers atoms
        → map (term_at (trees words keys)) (second_parts keys w role numbers) ≡ terms_with (word_at words w) (term_at (trees words keys) role) atoms }
{}
