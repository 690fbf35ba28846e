//! The law of the context.
ghost use Rattle.std.specs.Prelude.{ℕ, ◌≡◌, List, length, map, nat_lt};
ghost use Rattle.statement.specs.Clause.{Alternative};
ghost use Rattle.rules.specs.RuleSets.{AreKeywords};
ghost use Rattle.rules.specs.declared.rule_set.Keywords.{Keywords};
ghost use Rattle.statement.specs.declared.excess.Excess.TheVariants.{Base, Inputs};
ghost use Rattle.ground_rows.specs.declared.most.Most.{Most};
ghost use Rattle.ground_terms.specs.declared.naming.Named.{Named};
ghost use Rattle.ground_terms.specs.Arena.{Held};
ghost use Rattle.ground_rows.specs.Contexts.{AreContext, ShowsContext, atoms_by, bases_stated, excess_stated, inputs_stated, roles_stated, terms_named};
ghost use Rattle.statement.specs.Kept.{Kept};
ghost use Rattle.rules_clauses.specs.Numbers.{NamesDiffer};
ghost use Rattle.ground_terms.specs.Keys.{trees};
ghost use Rattle.statement.specs.Limits.{count_inputs, or_excess, where_true};
ghost use Rattle.meaning.specs.Listed.{IsWellFormed};
ghost use Rattle.statement.specs.Listing.{base_list, context_atoms, fixed_listing, role_list, with_atoms};
ghost use Rattle.ground_terms.specs.Atoms.{AddsAtoms};
ghost use Rattle.ground_rows.specs.Progress.{IsListed};

/// The context by the numbers of terms is that of the definition, once the fixed relations are listed.
pub fn the_context_step_is_the_definition()
    ensures limits { (rules : List Alternative) → IsWellFormed rules → (words : List (List ℕ)) → NamesDiffer words → (named : Keywords)
        → AreKeywords words named
        → (held : Held) (atoms : List ℕ) (found : List Kept) → IsListed rules words held atoms found (fixed_listing rules)
        → (most : Most) → excess_stated most held.keys named atoms
        ≡ or_excess (where_true (nat_lt most.base (length (base_list rules))) Base)
        (where_true (nat_lt most.inputs (count_inputs rules (role_list rules))) Inputs) }
    ensures shown { (rules : List Alternative) → IsWellFormed rules → (words : List (List ℕ)) → NamesDiffer words → (named : Keywords)
        → AreKeywords words named
        → (held : Held) (atoms : List ℕ) (found : List Kept) → IsListed rules words held atoms found (fixed_listing rules)
        → (roles base : List Named) (inputs : List (List Named))
        → AreContext (trees words held.keys) (roles_stated held.keys named atoms) (bases_stated held.keys named atoms)
        (inputs_stated held.keys named atoms) roles base inputs
        → ShowsContext rules (trees words held.keys) roles base inputs }
    ensures listed { (rules : List Alternative) → IsWellFormed rules → (words : List (List ℕ)) → NamesDiffer words → (named : Keywords)
        → AreKeywords words named
        → (held : Held) (atoms : List ℕ) (found : List Kept) → IsListed rules words held atoms found (fixed_listing rules)
        → (roles base : List Named) (inputs : List (List Named))
        → AreContext (trees words held.keys) (roles_stated held.keys named atoms) (bases_stated held.keys named atoms)
        (inputs_stated held.keys named atoms) roles base inputs
        → (new : Held) (after : List ℕ) → AddsAtoms words held new atoms after
        (atoms_by words (trees words held.keys) named (terms_named roles) (terms_named base) (map terms_named inputs))
        → IsListed rules words new after found (record {
          atoms = with_atoms (fixed_listing rules).atoms (context_atoms (fixed_listing rules).atoms);
          kept = (fixed_listing rules).kept;
        }) }
{}
