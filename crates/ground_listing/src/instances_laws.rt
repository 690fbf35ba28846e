//! The law of the instances of rows.
ghost use Rattle.std.specs.Prelude.{ℕ, ◌≡◌, List};
ghost use Rattle.rules_clauses.specs.declared.numbered.Span.{Span};
ghost use Rattle.statement.specs.Clause.{Atom, Alternative};
ghost use Rattle.rules.specs.Drafts.{Numbered, alternative_of};
ghost use Rattle.rules_clauses.specs.Marks.{AreInside};
ghost use Rattle.rules_clauses.specs.Store.{Data};
ghost use Rattle.ground_terms.specs.Atoms.{AreAtoms};
ghost use Rattle.ground_rows.specs.Instances.{instances_by};
ghost use Rattle.ground_join.specs.Joining.{joined};
ghost use Rattle.ground_terms.specs.Keys.{trees};
ghost use Rattle.ground_matching.specs.Levels.{Pools, AreReady, with_body, no_pools};
ghost use Rattle.statement.specs.Listing.{passing, kept_of};

/// The kept instances of an alternative are those of the rows of its join that pass, in order.
pub fn kept_instances_are_those_of_rows()
    ensures { (rules : List Alternative) (d : Data) (place : ℕ) (n : Numbered) (keys : List (List ℕ)) (numbers : List ℕ) (ranges : List Span)
        → AreReady d keys numbers ranges
        → AreInside n.variables.from d n.body → (atoms : List Atom) → AreAtoms (trees d.words keys) numbers atoms
        → (j : Pools) → j ≡ with_body d n.variables.from keys numbers ranges n.body no_pools
        → kept_of rules atoms place (alternative_of d n) ≡ passing rules atoms
        (instances_by d place n keys j.places (joined j.columns j.cells j.levels)) }
{}
