//! The game of an instantiation plays by the rules.
ghost use Rattle.std.specs.Prelude.{ℕ, true, false, ◌≡◌, ◌↔◌, ◌<◌, List, length, map};
ghost use Rattle.statement.specs.Clause.{Atom, Alternative, relation_of};
ghost use Rattle.statement.specs.Dependence.{IsAmong, is_fixed};
ghost use Rattle.statement.specs.Meaning.{StateOfTerms, Joint, Holds, IsEnded, IsStuck, RightAs, source_of, IsWithinBase, IsWithinInput};
ghost use Rattle.statement.specs.Listing.{listing, base_list, role_list, input_list};
ghost use Rattle.meaning.specs.Listed.{IsWellFormed};
ghost use Rattle.statement.specs.Kept.{number_of, numbered};
ghost use Rattle.statement.specs.Kinds.{kind_of};
ghost use Rattle.statement.specs.Rules.{Turn, IsTurn, is_stuck};
ghost use Rattle.statement.specs.Played.{nth_tree};
ghost use Rattle.game_rules.specs.RulePlay.{holds};
ghost use Rattle.ground_instances.specs.declared.flat_ground.FlatGround.{FlatGround};
ghost use Rattle.ground_instances.specs.GroundView.{IsGround};
ghost use Rattle.game_rules.specs.RuleState.{rules_of, named_rules_of};
ghost use Rattle.statement.specs.NamedRules.{NamedRules};
ghost use Rattle.statement.specs.GameOfRules.{IsGameOf};
ghost use Rattle.game.specs.SamePlay.{SamePlay};
ghost use Rattle.game_rules.specs.RuleMeaning.{Agree};
ghost use Rattle.statement.specs.GameNumbers.{state_of, joint_of, trees_at};
ghost use Rattle.statement.specs.GoalsAndMoves.{AreStart, AreAfter, AreLegal, IsGoal};

/// Going through the kept instances by numbers finds exactly the numbers of what holds, for a state within `Base` and a joint
/// move within `Input`, where the numbers of the state and the moves make right what these make right. It says nothing of
/// atoms of fixed relations, which no gate reads.
pub fn numbers_find_what_holds()
    ensures { (rules : List Alternative) → IsWellFormed rules → (S : StateOfTerms) (J : Joint)
        → IsWithinBase rules S → IsWithinInput rules J → (s : List ℕ) (j : Turn) → Agree rules S J s j
        → (x : Atom) → IsAmong x (listing rules).atoms → is_fixed rules (relation_of x) ≡ false
        → (holds (map (kind_of rules) (listing rules).atoms) (map (numbered rules) (listing rules).kept) s j (number_of x (listing rules).atoms) ≡
        true)
        ↔ RightAs S J (Holds rules S J x) (source_of x) }
{}

/// A state of the game of an instantiation has ended exactly where the rules say so.
pub fn the_rules_end_the_game()
    ensures { (rules : List Alternative) (g : FlatGround) → IsGround rules g → (s : List ℕ)
        → ((rules_of g).ended s ≡ true) ↔ IsEnded rules (state_of rules s) }
{}

/// The start state of the game of an instantiation is that of the rules.
pub fn the_rules_start_the_game()
    ensures { (rules : List Alternative) (g : FlatGround) → IsGround rules g → AreStart rules (trees_at (base_list rules) (rules_of g).start) }
{}

/// The legal moves that the game of an instantiation lists for a role are those of the rules.
pub fn the_rules_give_the_moves()
    ensures { (rules : List Alternative) (g : FlatGround) → IsGround rules g → (s : List ℕ) (r : ℕ) → r < length (role_list rules)
        → AreLegal rules (state_of rules s) (nth_tree (role_list rules) r)
        (trees_at (input_list rules (nth_tree (role_list rules) r)) ((rules_of g).legal s r)) }
{}

/// A state of the game of an instantiation that has not ended has a role with no legal move exactly where it is stuck by the rules.
pub fn the_rules_leave_the_game_stuck()
    ensures { (rules : List Alternative) (g : FlatGround) → IsGround rules g → (s : List ℕ)
        → (((rules_of g).ended s ≡ false) × (is_stuck (rules_of g) s ≡ true)) ↔ IsStuck rules (state_of rules s) }
{}

/// The state after a turn of the game of an instantiation is that of the rules, where each role has its input of the number
/// that it moves.
pub fn the_rules_give_the_next_state()
    ensures { (rules : List Alternative) (g : FlatGround) → IsGround rules g → (s : List ℕ) (j : Turn) → IsTurn (rules_of g) j
        → AreAfter rules (state_of rules s) (joint_of rules j) (trees_at (base_list rules) ((rules_of g).after s j)) }
{}

/// The goal that the game of an instantiation gives a role in a state is that of the rules.
pub fn the_rules_give_the_goals()
    ensures { (rules : List Alternative) (g : FlatGround) → IsGround rules g → (s : List ℕ) (r : ℕ) → r < length (role_list rules)
        → IsGoal rules (state_of rules s) (nth_tree (role_list rules) r) ((rules_of g).goal s r) }
{}

/// The game of an instantiation is that of the rules.
pub fn the_game_plays_by_the_rules()
    ensures { (rules : List Alternative) (g : FlatGround) → IsGround rules g → IsGameOf rules (named_rules_of g) }
{}

/// Well formed rules have a game.
pub fn rules_have_a_game()
    ensures { (rules : List Alternative) → IsWellFormed rules → (g : NamedRules) × IsGameOf rules g }
{}

/// All games of the same rules tell the same.
pub fn games_of_the_rules_agree()
    ensures { (rules : List Alternative) → IsWellFormed rules → (g h : NamedRules) → IsGameOf rules g → IsGameOf rules h → SamePlay g h }
{}
