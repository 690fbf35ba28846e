//! What holds in a state and under a joint move.
//!
//! The marks begin with the given atoms, so the loop over instances looks up no kinds.
ghost use Rattle.std.specs.Prelude.{
  ◌≡◌,
  ◌<◌,
  ◌≤◌,
  ◌==◌,
  ◌&&◌,
  ◌||◌,
  ℕ,
  All,
  true,
  false,
  length,
  slice_index_or,
  slice_set,
  vec_capacity,
  if◌then◌else◌,
};
ghost use Rattle.ground_instances.specs.GroundView.{kinds_of, instances_of};
ghost use Rattle.game_rules.specs.Marks.{AreMarks, with_heads};
ghost use Rattle.game_rules.specs.RulePlay.{marked, is_given as given, all_right, holds};
ghost use Rattle.game_rules.specs.Plans.{list_gives};

use crate::rule_game::RuleGame;
use crate::standing::Standing;
use ground_instances::{AtomLiteral, FlatGround, Kind};

/// Whether the state that is marked, or the joint move, makes an atom of this kind right.
fn is_given(kind: Kind, base: &[bool], joint: &[u32]) -> bool
    ensures { result ≡ given (marked base.now) joint.now kind }
{
    match kind {
        Kind::Now(p) => (p as usize) < base.len() && base[p as usize],
        Kind::Does(r, m) => (r as usize) < joint.len() && joint[r as usize] == m,
        _ => false,
    }
}

/// Writes a mark.
pub(crate) fn put_mark(marks: &mut Vec<bool>, place: usize, mark: bool)
    requires { place < length marks.old.items }
    ensures written { marks.new.items ≡ slice_set marks.old.items place mark }
    ensures capacity { vec_capacity marks.new ≡ vec_capacity marks.old }
{
    marks[place] = mark;
}

/// Takes all marks away.
pub(crate) fn clear(marks: &mut Vec<bool>)
    ensures size { length marks.new.items ≡ length marks.old.items }
    ensures each { (k : ℕ) → k < length marks.old.items → slice_index_or marks.new.items k false ≡ false }
    ensures capacity { vec_capacity marks.new ≡ vec_capacity marks.old }
{
    for place in 0..marks.len() {
        put_mark(marks, place, false);
    }
}

/// Marks an atom too.
fn mark_if(mark: bool, atom: u32, right: &mut Vec<bool>)
    ensures size { length right.new.items ≡ length right.old.items }
    ensures each { (k : ℕ) → k < length right.old.items
        → slice_index_or right.new.items k false ≡ (slice_index_or right.old.items k false || (mark && (atom == k))) }
    ensures capacity { vec_capacity right.new ≡ vec_capacity right.old }
{
    if mark && (atom as usize) < right.len() {
        put_mark(right, atom as usize, true);
    }
}

/// Marks too what the state and the joint move make right of a list of atoms.
fn give(given: &[Standing], base: &[bool], joint: &[u32], right: &mut Vec<bool>)
    ensures size { length right.new.items ≡ length right.old.items }
    ensures each { (k : ℕ) → k < length right.old.items
        → slice_index_or right.new.items k false ≡ (slice_index_or right.old.items k false || list_gives given.now (marked base.now) joint.now k) }
    ensures capacity { vec_capacity right.new ≡ vec_capacity right.old }
{
    for place in 0..given.len() {
        let here = given[place];
        mark_if(is_given(here.kind, base, joint), here.atom, right);
    }
}

/// Whether all literals of a body are right by the marks.
fn is_body_right(right: &[bool], body: &[AtomLiteral]) -> bool
    requires { All (λ l. l.0 < length right.now) body.now }
    ensures { result ≡ all_right (λ n. slice_index_or right.now n false) body.now }
{
    for place in 0..body.len() {
        let literal = body[place];
        if right[literal.atom() as usize] == literal.is_negated() {
            return false;
        }
    }
    true
}

/// Marks a head whose body is right by the marks.
fn take_body(head: u32, body: &[AtomLiteral], right: &mut Vec<bool>)
    requires head { head < length right.old.items }
    requires body { All (λ l. l.0 < length right.old.items) body.now }
    ensures marks { right.new.items
        ≡ (if all_right (λ n. slice_index_or right.old.items n false) body.now then slice_set right.old.items head true else right.old.items) }
    ensures size { length right.new.items ≡ length right.old.items }
    ensures capacity { vec_capacity right.new ≡ vec_capacity right.old }
{
    if is_body_right(right, body) {
        put_mark(right, head as usize, true);
    }
}

/// Goes through the kept instances in order.
fn go_through(ground: &FlatGround, right: &mut Vec<bool>)
    requires { length right.old.items ≡ length (kinds_of ground.now) }
    ensures marks { right.new.items ≡ with_heads right.old.items (instances_of ground.now) }
    ensures capacity { vec_capacity right.new ≡ vec_capacity right.old }
{
    for place in 0..ground.many_kept() {
        take_body(ground.head(place), ground.body(place), right);
    }
}

/// Marks what holds in the state that is marked, and under the joint move.
pub(crate) fn evaluate(game: &RuleGame, base: &[bool], joint: &[u32], right: &mut Vec<bool>)
    requires { length right.old.items ≡ length (kinds_of game.now.played) }
    ensures marks { AreMarks right.new.items (length (kinds_of game.now.played))
        (holds (kinds_of game.now.played) (instances_of game.now.played) (marked base.now) joint.now) }
    ensures capacity { vec_capacity right.new ≡ vec_capacity right.old }
{
    clear(right);
    give(&game.plan.given, base, joint, right);
    go_through(&game.played, right);
}
