//! What every game has.
ghost use Rattle.std.specs.Prelude.{true, ◌≡◌, ◌≢◌, ℕ, ◌<◌, ◌≤◌, ◌^◌, ◌*◌, List, [], None, length, map, get_or, All, IfOk, slice_get};
ghost use Rattle.std.specs.Ordering.{nat_cmp};
ghost use Rattle.std.specs.Cmp.Lexicographic.{slice_cmp};
ghost use Rattle.std.specs.List.Sorted.{IsStrictlyIncreasing};
ghost use Rattle.std.specs.declared.cmp.Ordering.TheVariants.{Less};
ghost use Rattle.statement.specs.Rules.{Rules, IsTurn};
ghost use Rattle.game.specs.Told.{IsTold, end_worth};
ghost use Rattle.game.specs.TurnsAfter.{turns_after};
ghost use Rattle.game.specs.Keys.{key_at};

use crate::joint::Joint;
use crate::told::Told;
use std::alloc::AllocError;

/// A game for some number of roles, all of which move at once. A role is a number from 0, in the order of the roles, and a move of
/// a role is a number from 0, in the printed order of the moves.
pub trait Game: Sync {
    /// A state of the game, in whatever form the game keeps it.
    type Pos: Send + Sync + Drop;

    /// Working room for `steps`, `judge` and `judge_from`.
    type Wide: Send + Drop;

    /// Up to 64 states of the game.
    type Many: Send + Drop;

    /// Which game it is.
    ghost rules: { Self → Rules };

    /// The name of a role.
    ghost role_name: { Self → ℕ → List ℕ };

    /// The text of a role's move.
    ghost move_name: { Self → ℕ → ℕ → List ℕ };

    /// `p` was made for this game.
    ghost fits: { Self → Self.Pos → Type 0 };

    /// The state that `p` keeps: the numbers of the propositions that hold, in an order that no law asks for.
    ghost state: { Self → Self.Pos → List ℕ };

    /// The capacities of what `p` keeps in memory. They are those that `fresh` gave it, for good.
    ghost capacities: { Self → Self.Pos → List ℕ };

    /// `w` was made for this game.
    ghost fits_wide: { Self → Self.Wide → Type 0 };

    /// The states that `w` can tell the end of.
    ghost judged: { Self → Self.Wide → List (List ℕ) };

    /// `m` was made for this game.
    ghost fits_many: { Self → Self.Many → Type 0 };

    /// The states that `m` keeps.
    ghost states: { Self → Self.Many → List (List ℕ) };

    /// The capacities of what `w` and `m` keep in memory. They are those that they were made with, for good.
    ghost wide_capacities: { Self → Self.Wide → List ℕ };

    ghost many_capacities: { Self → Self.Many → List ℕ };

    /// How many words a key of a state has.
    ghost key_length: { Self → ℕ };

    /// The state that the words of a key stand for. So states with the same key are the same.
    ghost keyed: { Self → List ℕ → List ℕ };

    /// How many roles there are.
    fn roles(&self) -> usize
        ensures { result ≡ (rules self.now).roles };

    /// The canonical text of a role.
    fn role_text(&self, role: usize) -> &[u8]
        requires { role < (rules self.now).roles }
        ensures { result.now ≡ role_name self.now role };

    /// How many moves a role has in the whole game.
    fn moves(&self, role: usize) -> usize
        requires { role < (rules self.now).roles }
        ensures { result ≡ (rules self.now).moves role };

    /// The canonical text of a role's move.
    fn move_text(&self, role: usize, number: u32) -> &[u8]
        requires role { role < (rules self.now).roles }
        requires number { number < (rules self.now).moves role }
        ensures { result.now ≡ move_name self.now role number };

    /// The start state. No other call takes memory, but `new_wide` and `new_many`.
    fn fresh(&self) -> Result<Self::Pos, AllocError>
        ensures fits { IfOk result (λ p. fits self.now p) }
        ensures start { IfOk result (λ p. state self.now p ≡ (rules self.now).start) };

    /// Whether the game has ended.
    fn ended(&self, p: &Self::Pos) -> bool
        requires { fits self.now p.now }
        ensures { result ≡ (rules self.now).ended (state self.now p.now) };

    /// The goal value of a role, from 0 to 100.
    fn goal(&self, p: &Self::Pos, role: usize) -> u8
        requires fits { fits self.now p.now }
        requires role { role < (rules self.now).roles }
        ensures { result ≡ (rules self.now).goal (state self.now p.now) role };

    /// The legal move of a role at a place of their list, from 0, or none past its end. The list is in printed order.
    fn legal(&self, p: &Self::Pos, role: usize, place: usize) -> Option<u32>
        requires fits { fits self.now p.now }
        requires role { role < (rules self.now).roles }
        ensures { result ≡ slice_get ((rules self.now).legal (state self.now p.now) role) place };

    /// Writes to `q` the state after `p` and a joint move, which has a move of each role, legal or not.
    fn step(&self, p: &Self::Pos, joint: &Joint, q: &mut Self::Pos)
        requires from { fits self.now p.now }
        requires joint { IsTurn (rules self.now) joint.now.items }
        requires to { fits self.now q.old }
        ensures fits { fits self.now q.new }
        ensures after { state self.now q.new ≡ (rules self.now).after (state self.now p.now) joint.now.items }
        ensures capacities { capacities self.now q.new ≡ capacities self.now q.old };

    /// Writes the state of `p` to `q`.
    fn copy(&self, p: &Self::Pos, q: &mut Self::Pos)
        requires from { fits self.now p.now }
        requires to { fits self.now q.old }
        ensures fits { fits self.now q.new }
        ensures same { state self.now q.new ≡ state self.now p.now }
        ensures capacities { capacities self.now q.new ≡ capacities self.now q.old };

    /// Working room for `steps`, `judge` and `judge_from`.
    fn new_wide(&self) -> Result<Self::Wide, AllocError>
        ensures { IfOk result (λ w. fits_wide self.now w) };

    /// Room for states.
    fn new_many(&self) -> Result<Self::Many, AllocError>
        ensures { IfOk result (λ m. fits_many self.now m) };

    /// Writes to `out` the states after `p` and each of 1 to 64 joint moves, in their order. Each has a move of each role, legal
    /// or not.
    fn steps(&self, p: &Self::Pos, joints: &[Joint], w: &mut Self::Wide, out: &mut Self::Many)
        requires from { fits self.now p.now }
        requires some { 0 < length joints.now }
        requires few { length joints.now ≤ 64 }
        requires joints { All (λ j. IsTurn (rules self.now) j.items) joints.now }
        requires wide { fits_wide self.now w.old }
        requires to { fits_many self.now out.old }
        ensures wide { fits_wide self.now w.new }
        ensures many { fits_many self.now out.new }
        ensures after { states self.now out.new ≡ map (λ j. (rules self.now).after (state self.now p.now) j.items) joints.now }
        ensures wide_capacities { wide_capacities self.now w.new ≡ wide_capacities self.now w.old }
        ensures many_capacities { many_capacities self.now out.new ≡ many_capacities self.now out.old };

    /// How many joint moves `steps` plays at about the cost of one. A search plays so many at a time before it knows whether it
    /// needs them all.
    fn abreast(&self) -> usize
        ensures some { 0 < result }
        ensures few { result ≤ 64 };

    /// Writes the state at a place of many to `q`.
    fn take(&self, many: &Self::Many, place: usize, q: &mut Self::Pos)
        requires many { fits_many self.now many.now }
        requires place { place < length (states self.now many.now) }
        requires to { fits self.now q.old }
        ensures fits { fits self.now q.new }
        ensures taken { state self.now q.new ≡ get_or (states self.now many.now) place [] }
        ensures capacities { capacities self.now q.new ≡ capacities self.now q.old };

    /// What is told of one of many states before it is taken, and of the goal value of a role in it.
    fn told(&self, many: &Self::Many, place: usize, role: usize) -> Told
        requires many { fits_many self.now many.now }
        requires place { place < length (states self.now many.now) }
        requires role { role < (rules self.now).roles }
        ensures { IsTold (rules self.now) (get_or (states self.now many.now) place []) role result };

    /// Plays each of 1 to 64 joint moves for the end of the game alone: `w` can then tell of each state after one, in their order,
    /// whether the game has ended there. The states are not kept. The answer is false where this is no quicker than `steps`.
    fn judge(&self, p: &Self::Pos, joints: &[Joint], w: &mut Self::Wide) -> bool
        requires from { fits self.now p.now }
        requires some { 0 < length joints.now }
        requires few { length joints.now ≤ 64 }
        requires joints { All (λ j. IsTurn (rules self.now) j.items) joints.now }
        requires wide { fits_wide self.now w.old }
        ensures wide { fits_wide self.now w.new }
        ensures after { result ≡ true
            → judged self.now w.new ≡ map (λ j. (rules self.now).after (state self.now p.now) j.items) joints.now }
        ensures wide_capacities { wide_capacities self.now w.new ≡ wide_capacities self.now w.old };

    /// The same of 1 to 64 joint moves that each begin at one of many states. `places` names that of each.
    fn judge_from(
        &self,
        many: &Self::Many,
        places: &[usize],
        joints: &[Joint],
        w: &mut Self::Wide,
    ) -> bool
        requires many { fits_many self.now many.now }
        requires some { 0 < length joints.now }
        requires few { length joints.now ≤ 64 }
        requires count { length places.now ≡ length joints.now }
        requires places { All (λ k. k < length (states self.now many.now)) places.now }
        requires joints { All (λ j. IsTurn (rules self.now) j.items) joints.now }
        requires wide { fits_wide self.now w.old }
        ensures wide { fits_wide self.now w.new }
        ensures after { result ≡ true
            → judged self.now w.new
            ≡ turns_after (rules self.now) (states self.now many.now) places.now (map (λ j. j.items) joints.now) }
        ensures wide_capacities { wide_capacities self.now w.new ≡ wide_capacities self.now w.old };

    /// The goal value of a role in the state at a place of those that `w` can tell the end of, if the game has ended there. None where
    /// `w` tells of fewer.
    fn verdict(&self, w: &Self::Wide, place: usize, role: usize) -> Option<u8>
        requires wide { fits_wide self.now w.now }
        requires role { role < (rules self.now).roles }
        ensures told { place < length (judged self.now w.now)
            → result ≡ end_worth (rules self.now) (get_or (judged self.now w.now) place []) role }
        ensures beyond { length (judged self.now w.now) ≤ place → result ≡ None };

    /// How many words a key of a state has.
    fn key_words(&self) -> usize
        ensures length { result ≡ key_length self.now }
        ensures few { result ≤ 2 ^ 16 };

    /// Writes the key of a state.
    fn write_key(&self, p: &Self::Pos, key: &mut [u64])
        requires from { fits self.now p.now }
        requires room { length key.old ≡ key_length self.now }
        ensures keyed { keyed self.now key.new ≡ state self.now p.now };

    /// Writes the key of the state at a place of many.
    fn write_key_of(&self, many: &Self::Many, place: usize, key: &mut [u64])
        requires many { fits_many self.now many.now }
        requires place { place < length (states self.now many.now) }
        requires room { length key.old ≡ key_length self.now }
        ensures keyed { keyed self.now key.new ≡ get_or (states self.now many.now) place [] };

    /// Writes the keys of the first `count` of many states, one behind the other, each with its `key_words`. What is behind them
    /// may be written over.
    fn write_keys(&self, many: &Self::Many, count: usize, keys: &mut [u64])
        requires many { fits_many self.now many.now }
        requires count { count ≤ length (states self.now many.now) }
        requires room { count * key_length self.now ≤ length keys.old }
        ensures keyed { (place : ℕ) → place < count
            → keyed self.now (key_at keys.new (key_length self.now) place) ≡ get_or (states self.now many.now) place [] }
    {
        let words = self.key_words();
        for place in 0..count {
            let from = place * words;
            self.write_key_of(many, place, &mut keys[from..from + words]);
        }
    }

    ghost goal_within: { (g : Self) (s : List ℕ) (r : ℕ) → (rules g).goal s r ≤ 100 };

    ghost moves_within: { (g : Self) (r : ℕ) → r < (rules g).roles → (rules g).moves r ≤ 2 ^ 32 };

    ghost legal_within: { (g : Self) (s : List ℕ) (r : ℕ) → r < (rules g).roles
        → All (λ m. m < (rules g).moves r) ((rules g).legal s r) };

    ghost legal_ascending: { (g : Self) (s : List ℕ) (r : ℕ) → r < (rules g).roles
        → IsStrictlyIncreasing ((rules g).legal s r) };

    ghost moves_in_printed_order: { (g : Self) (r m n : ℕ) → r < (rules g).roles → m < n → n < (rules g).moves r
        → slice_cmp nat_cmp (move_name g r m) (move_name g r n) ≡ Less };

    ghost role_names_differ: { (g : Self) (q r : ℕ) → q < r → r < (rules g).roles → role_name g q ≢ role_name g r };
}
