//! The laws of parts with places.
ghost use Rattle.std.specs.Prelude.{ℕ, ◌≡◌, List, Option, [], length, map, slice_index, true};
ghost use Rattle.statement.specs.Tree.{Tree, trees_of};
ghost use Rattle.rules_clauses.specs.declared.numbered.Part.{Part};
ghost use Rattle.rules_clauses.specs.declared.numbered.Span.{Span};
ghost use Rattle.rules_clauses.specs.Adding.{AreSorted};
ghost use Rattle.rules.specs.Drafts.{Numbered, alternative_of};
ghost use Rattle.rules.specs.RuleSets.{IsWhole};
ghost use Rattle.statement.specs.Safety.{is_safe};
ghost use Rattle.rules_clauses.specs.Store.{Data};
ghost use Rattle.ground_matching.specs.Cells.{pattern};
ghost use Rattle.rules_clauses.specs.Numbers.{NamesDiffer};
ghost use Rattle.ground_terms.specs.Keys.{term_at};
ghost use Rattle.ground_matching.specs.Levels.{parts_in, with_body, no_pools};
ghost use Rattle.statement.specs.Matching.{map_of};
ghost use Rattle.ground_terms.specs.Building.{ground_terms};
ghost use Rattle.ground_matching.specs.Placed.{placed_part, HavePlaces, HaveNeededPlaces};
ghost use Rattle.ground_matching.specs.Places.{names_in_places};
ghost use Rattle.ground_matching.specs.Standing.{bindings, DifferInNames};
ghost use Rattle.statement.specs.Substitution.{substitute_all};

/// The terms that parts with places are, by the values of a row, are those that the row's bindings make
/// of the pattern.
pub fn placed_parts_are_the_terms()
    ensures { (d : Data) (from : ℕ) (terms : List Tree) (places : List (Option ℕ)) (values : List ℕ)
        → DifferInNames (names_in_places d.words places) → length values ≡ length places
        → (w : ℕ) (ps : List Part) → AreSorted d from ps → HavePlaces d from places ps
        → trees_of (ground_terms d.words (λ p. term_at terms (slice_index values p)) (map (placed_part d from places) ps) [])
        ≡ substitute_all (map_of (bindings terms (names_in_places d.words places) values)) (pattern d from w ps).terms }
{}

/// In a safe alternative each variable of the head, and of the literals that bind none, has a place.
pub fn safe_variables_have_places()
    ensures { (d : Data) (keys : List (List ℕ)) (atoms : List ℕ) (ranges : List Span) → NamesDiffer d.words
        → (n : Numbered) → IsWhole d n → is_safe (alternative_of d n) ≡ true
        → HavePlaces d n.variables.from (with_body d n.variables.from keys atoms ranges n.body no_pools).places (parts_in d n.head)
        × HaveNeededPlaces d n.variables.from (with_body d n.variables.from keys atoms ranges n.body no_pools).places n.body }
{}
