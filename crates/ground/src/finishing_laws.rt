//! The laws of the last pass.
ghost use Rattle.std.specs.Prelude.{ℕ, ◌≡◌, List, length, map};
ghost use Rattle.statement.specs.Clause.{Alternative};
ghost use Rattle.rules.specs.RuleSets.{IsNameNumber, AreKeywords};
ghost use Rattle.rules.specs.declared.rule_set.Keywords.{Keywords};
ghost use Rattle.statement.specs.Words.{w_init};
ghost use Rattle.ground_terms.specs.Arena.{Held};
ghost use Rattle.ground_terms.specs.Dropping.{AreShown, dropped_in};
ghost use Rattle.ground.specs.Finishing.{numbered_in};
ghost use Rattle.statement.specs.Kept.{Kept, numbered};
ghost use Rattle.rules_clauses.specs.Marks.{NumbersBelow};
ghost use Rattle.rules_clauses.specs.Numbers.{NamesDiffer};
ghost use Rattle.ground_terms.specs.Keys.{term_at, trees};
ghost use Rattle.meaning.specs.Listed.{IsWellFormed};
ghost use Rattle.statement.specs.Listing.{listing, base_list};
ghost use Rattle.statement.specs.GoalsAndMoves.{starts, dropped};
ghost use Rattle.ground_rows.specs.Progress.{IsListed};
ghost use Rattle.ground_terms.specs.Starting.{starts_in};

/// What the last pass makes of the numbers of terms is what the definitions make of the listing.
pub fn the_last_pass_is_the_definition()
    ensures instances { (rules : List Alternative) (words : List (List ℕ)) → NamesDiffer words
        → (held : Held) (atoms : List ℕ) (found : List Kept) → IsListed rules words held atoms found (listing rules)
        → map (numbered_in atoms) found ≡ map (numbered rules) (listing rules).kept }
    ensures starts { (rules : List Alternative) → IsWellFormed rules → (words : List (List ℕ)) → NamesDiffer words
        → (held : Held) (atoms : List ℕ) (found : List Kept) → IsListed rules words held atoms found (listing rules)
        → (init : ℕ) → IsNameNumber words init w_init → (bases : List ℕ) → NumbersBelow (length (trees words held.keys)) bases
        → map (term_at (trees words held.keys)) bases ≡ base_list rules
        → map (starts_in held.keys atoms init) bases ≡ map (starts rules) (base_list rules) }
    ensures dropped { (rules : List Alternative) (words : List (List ℕ)) → NamesDiffer words
        → (held : Held) (atoms : List ℕ) (found : List Kept) → IsListed rules words held atoms found (listing rules)
        → (named : Keywords) → AreKeywords words named → (bases roles : List ℕ) (inputs : List (List ℕ))
        → AreShown rules (trees words held.keys) bases roles inputs
        → dropped_in held.keys named bases roles inputs atoms ≡ dropped rules }
{}
