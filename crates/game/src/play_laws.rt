//! What holds of play in every game, and what games that tell the same have in common.
ghost use Rattle.std.specs.Prelude.{ℕ, suc, ◌≡◌, ◌+◌, ◌<◌, ◌≤◌, List, All, IfSome, IfErr};
ghost use Rattle.statement.specs.Tree.{Tree};
ghost use Rattle.statement.specs.declared.at_bound.AtBound.{AtBound};
ghost use Rattle.statement.specs.declared.at_bound.AtBound.TheVariants.{Zero, Unfinished};
ghost use Rattle.statement.specs.declared.at_bound.Worth.{Worth};
ghost use Rattle.statement.specs.NamedRules.{NamedRules};
ghost use Rattle.game.specs.PlainValue.{plain_value, plain_worst, plain_choice, plain_reply, plain_line};
ghost use Rattle.statement.specs.Played.{MoveNames, played};
ghost use Rattle.statement.specs.HistoryTexts.{IsRoleOf};
ghost use Rattle.statement.specs.Rules.{Rules, State, IsTurn, is_stuck, turns_with};
ghost use Rattle.game.specs.SamePlay.{SamePlay, AreLegalMoves};
ghost use Rattle.game.specs.Settled.{AreGoals, IsSettled};
ghost use Rattle.statement.specs.Value.{value, worst, choice_of, reply_of, line_of};

/// A refusal names a role of the game, if it names one. Where each legal move of a role is a move of the role, what a role
/// chooses is one of its moves, and joint moves, replies and the turns of a line have a move of each role.
pub fn play_stays_within_the_game()
    ensures fault { (g : Rules) (names : MoveNames) (ts : List Tree) → IfErr (played g names ts) (IsRoleOf g.roles) }
    ensures turns { (g : Rules) → AreLegalMoves g → (s : State) (role own : ℕ) → own < g.moves role
        → All (IsTurn g) (turns_with g s role own) }
    ensures choice { (g : Rules) → AreLegalMoves g → (role depth : ℕ) (at : AtBound) (s : State) → role < g.roles
        → IfSome (choice_of g role depth at s) (λ m. m < g.moves role) }
    ensures reply { (g : Rules) → AreLegalMoves g → (role depth : ℕ) (at : AtBound) (s : State) (own : ℕ) → own < g.moves role
        → IfSome (reply_of g role depth at s own) (IsTurn g) }
    ensures line { (g : Rules) → AreLegalMoves g → (role depth : ℕ) (at : AtBound) (s : State) → role < g.roles
        → All (IsTurn g) (line_of g role depth at s) }
{}

/// Games that tell the same are stuck in the same states, refuse the same histories for the same fault, and lead from the
/// others to the same state. Each role has the same values, choices and lines in them, and after each of its moves the same
/// worth and reply.
pub fn same_play_is_played_the_same()
    ensures stuck { (g h : NamedRules) → SamePlay g h → (s : State) → is_stuck g.rules s ≡ is_stuck h.rules s }
    ensures played { (g h : NamedRules) → SamePlay g h → (ts : List Tree) → played g.rules g.move_name ts ≡ played h.rules h.move_name ts }
    ensures value { (g h : NamedRules) → SamePlay g h → (role : ℕ) → role < g.rules.roles → (depth : ℕ) (at : AtBound) (s : State)
        → value g.rules role depth at s ≡ value h.rules role depth at s }
    ensures worst { (g h : NamedRules) → SamePlay g h → (role : ℕ) → role < g.rules.roles → (depth : ℕ) (at : AtBound) (s : State) (own : ℕ)
        → own < g.rules.moves role → worst g.rules role depth at s own ≡ worst h.rules role depth at s own }
    ensures choice { (g h : NamedRules) → SamePlay g h → (role : ℕ) → role < g.rules.roles → (depth : ℕ) (at : AtBound) (s : State)
        → choice_of g.rules role depth at s ≡ choice_of h.rules role depth at s }
    ensures reply { (g h : NamedRules) → SamePlay g h → (role : ℕ) → role < g.rules.roles → (depth : ℕ) (at : AtBound) (s : State) (own : ℕ)
        → own < g.rules.moves role → reply_of g.rules role depth at s own ≡ reply_of h.rules role depth at s own }
    ensures line { (g h : NamedRules) → SamePlay g h → (role : ℕ) → role < g.rules.roles → (depth : ℕ) (at : AtBound) (s : State)
        → line_of g.rules role depth at s ≡ line_of h.rules role depth at s }
{}

/// Where a state at the bound is worth nothing, a role has the plain value, choice and line of each state, and after each of its
/// moves the plain worth and reply: those of definitions that know of no other worth there.
pub fn nothing_at_the_bound_is_the_plain_value()
    ensures value { (g : Rules) (role depth : ℕ) (s : State) → value g role depth Zero s ≡ plain_value g role depth s }
    ensures worst { (g : Rules) (role depth : ℕ) (s : State) (own : ℕ) → worst g role depth Zero s own ≡ plain_worst g role depth s own }
    ensures choice { (g : Rules) (role depth : ℕ) (s : State) → choice_of g role depth Zero s ≡ plain_choice g role depth s }
    ensures reply { (g : Rules) (role depth : ℕ) (s : State) (own : ℕ) → reply_of g role depth Zero s own ≡ plain_reply g role depth s own }
    ensures line { (g : Rules) (role depth : ℕ) (s : State) → line_of g role depth Zero s ≡ plain_line g role depth s }
{}

/// Where a state at the bound is worth nothing, a role can be sure of no less with more turns. Where no goal is above 100, no value
/// is.
pub fn more_turns_are_worth_no_less()
    ensures one { (g : Rules) (role depth : ℕ) (s : State) → value g role depth Zero s ≤ value g role (suc depth) Zero s }
    ensures more { (g : Rules) (role : ℕ) (s : State) (d e : ℕ) → d ≤ e → value g role d Zero s ≤ value g role e Zero s }
    ensures within { (g : Rules) (role : ℕ) → ((s : State) → g.goal s role ≤ 100) → (depth : ℕ) (at : AtBound) (s : State)
        → value g role depth at s ≤ 100 }
{}

/// No state is worth less to a role where unfinished play is worth more. Where unfinished play is worth nothing, more turns make no
/// state worth less, and where it is worth 100, none worth more, whatever it is worth behind these turns. Nothing is the worth 0.
pub fn worth_at_the_bound_bounds_the_value()
    ensures nothing { (g : Rules) (role depth : ℕ) (none : Worth) (s : State) → none.value ≡ 0
        → value g role depth Zero s ≡ value g role depth (Unfinished none) s }
    ensures rises { (g : Rules) (role depth : ℕ) (less more : Worth) (s : State) → less.value ≤ more.value
        → value g role depth (Unfinished less) s ≤ value g role depth (Unfinished more) s }
    ensures lower { (g : Rules) → AreGoals g → (role depth more : ℕ) (none : Worth) (at : AtBound) (s : State) → none.value ≡ 0
        → value g role depth (Unfinished none) s ≤ value g role (depth + more) at s }
    ensures upper { (g : Rules) → AreGoals g → (role depth more : ℕ) (all : Worth) (at : AtBound) (s : State) → all.value ≡ 100
        → value g role (depth + more) at s ≤ value g role depth (Unfinished all) s }
{}

/// A settled value stays: where a state has the same value with the worth 0 for unfinished play and with 100, it has that value
/// within any greater number of turns, and within this one, whatever unfinished play is worth.
pub fn settled_value_stays()
    ensures { (g : Rules) → AreGoals g → (role depth n : ℕ) (s : State) → IsSettled g role depth s n
        → (more : ℕ) (at : AtBound) → value g role (depth + more) at s ≡ n }
{}
