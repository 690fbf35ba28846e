//! The law of best play.
ghost use Rattle.std.specs.Prelude.{◌≡◌, ℕ, ◌-◌, Some};
ghost use Rattle.statement.specs.declared.at_bound.AtBound.{AtBound};
ghost use Rattle.statement.specs.Rules.{Rules, State, Turn};
ghost use Rattle.statement.specs.Value.{value, worst, choice_of, reply_of};

/// Where a role plays its choice, and the others the first reply to it, the value stays: the choice is worth what the state is, and
/// the state after the reply is worth what the choice is, with a turn less to come.
pub fn value_stays_in_best_play()
    ensures choice { (g : Rules) (role depth : ℕ) (at : AtBound) (s : State) (own : ℕ) → choice_of g role depth at s ≡ Some own
        → worst g role (depth - 1) at s own ≡ value g role depth at s }
    ensures reply { (g : Rules) (role depth : ℕ) (at : AtBound) (s : State) (own : ℕ) (j : Turn) → reply_of g role depth at s own ≡ Some j
        → value g role depth at (g.after s j) ≡ worst g role depth at s own }
{}
