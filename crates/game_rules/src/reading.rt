//! What is told of a state by the kinds of the atoms that hold.
ghost use Rattle.std.specs.Prelude.{◌≡◌, ◌<◌, ◌≤◌, ◌+◌, ◌^◌, ◌&&◌, ◌||◌, ◌++◌, [], ◌∷◌, ℕ, All, false, length, max, take, slice_index_or, vec_capacity, if◌then◌else◌};
ghost use Rattle.game_rules.specs.Marks.{AreMarks};
ghost use Rattle.game_rules.specs.RulePlay.{marked, names, is_terminal};
ghost use Rattle.game_rules.specs.Standings.{names_among, goal_among, ends_among};

use crate::evaluation::{clear, put_mark};
use crate::kinds::{number_of, value_of};
use crate::naming::Naming;
use crate::standing::Standing;
use ground_instances::Kind;

/// Whether a number is marked.
fn is_marked(right: &Vec<bool>, number: u32) -> bool
    requires { number < length right.now.items }
    ensures { result ≡ slice_index_or right.now.items number false }
{
    right[number as usize]
}

/// Marks the number that an atom of this kind names, if the atom holds and the number has a mark.
fn note(holds: bool, kind: Kind, by: Naming, marks: &mut Vec<bool>)
    ensures size { length marks.new.items ≡ length marks.old.items }
    ensures each { (k : ℕ) → k < length marks.old.items
        → slice_index_or marks.new.items k false ≡ (slice_index_or marks.old.items k false || (holds && names by kind k)) }
    ensures capacity { vec_capacity marks.new ≡ vec_capacity marks.old }
{
    if !holds {
        return;
    }
    let Some(number) = number_of(by, kind) else {
        return;
    };
    if (number as usize) < marks.len() {
        put_mark(marks, number as usize, true);
    }
}

/// Marks exactly the numbers that atoms of a list that hold name.
pub(crate) fn mark_named(list: &[Standing], right: &Vec<bool>, by: Naming, marks: &mut Vec<bool>)
    requires { All (λ p. p.atom < length right.now.items) list.now }
    ensures marks { AreMarks marks.new.items (length marks.old.items) (names_among list.now (λ a. slice_index_or right.now.items a false) by) }
    ensures capacity { vec_capacity marks.new ≡ vec_capacity marks.old }
{
    clear(marks);
    for place in 0..list.len() {
        let here = list[place];
        note(is_marked(right, here.atom), here.kind, by, marks);
    }
}

/// The greater of two values.
fn greater(value: u8, other: u8) -> u8
    ensures { result ≡ max value other }
{
    value.max(other)
}

/// The greatest goal of a role among the atoms of a list that hold, or 0.
pub(crate) fn best_goal(list: &[Standing], right: &Vec<bool>, role: usize) -> u8
    requires { All (λ p. p.atom < length right.now.items) list.now }
    ensures { result ≡ goal_among list.now (λ a. slice_index_or right.now.items a false) role }
{
    let mut best = 0;
    for place in 0..list.len() {
        let here = list[place];
        best = greater(value_of(is_marked(right, here.atom), here.kind, role), best);
    }
    best
}

/// Whether an atom of this kind ends the game, if it holds.
fn is_end(holds: bool, kind: Kind) -> bool
    ensures { result ≡ (holds && is_terminal kind) }
{
    holds && kind == Kind::Terminal
}

/// Whether an atom of a list that holds ends the game.
pub(crate) fn has_ended(list: &[Standing], right: &Vec<bool>) -> bool
    requires { All (λ p. p.atom < length right.now.items) list.now }
    ensures { result ≡ ends_among list.now (λ a. slice_index_or right.now.items a false) }
{
    let mut ended = false;
    for place in 0..list.len() {
        let here = list[place];
        ended |= is_end(is_marked(right, here.atom), here.kind);
    }
    ended
}

/// Writes a number behind `count` others if it is marked, and answers how many there are then.
fn put_if(mark: bool, number: u32, numbers: &mut Vec<u32>, count: usize) -> usize
    requires { count < length numbers.old.items }
    ensures listed { take result numbers.new.items ≡ take count numbers.old.items ++ (if mark then number ∷ [] else []) }
    ensures count { result ≤ count + 1 }
    ensures size { length numbers.new.items ≡ length numbers.old.items }
    ensures capacity { vec_capacity numbers.new ≡ vec_capacity numbers.old }
{
    if !mark {
        return count;
    }
    numbers[count] = number;
    count + 1
}

/// Writes the numbers that are marked, ascending, and answers how many they are.
pub(crate) fn list_marked(marks: &[bool], numbers: &mut Vec<u32>) -> usize
    requires room { length numbers.old.items ≡ length marks.now }
    requires few { length marks.now ≤ 2 ^ 32 }
    ensures listed { take result numbers.new.items ≡ marked marks.now }
    ensures count { result ≤ length numbers.new.items }
    ensures size { length numbers.new.items ≡ length numbers.old.items }
    ensures capacity { vec_capacity numbers.new ≡ vec_capacity numbers.old }
{
    let mut count = 0;
    for number in 0..marks.len() {
        count = put_if(marks[number], number as u32, numbers, count);
    }
    count
}
