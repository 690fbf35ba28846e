//! A game of one turn, small enough to know each of its values by heart.
ghost use Rattle.std.specs.Prelude.{◌≡◌, ◌<◌, ◌≤◌, ◌+◌, ◌*◌, ℕ, All, EachIndex, slice_index, length, [], ◌∷◌};
ghost use Rattle.game.specs.Joints.{joint_at};
ghost use Rattle.statement.specs.Rules.{IsTurn};
ghost use Rattle.test_games.specs.Table.{table_rules, side_name, choice_name};

use game::{Game, Joint, Told};
use std::alloc::AllocError;

/// Three roles, the row, the column and the layer, choose a side of a cube at once, and so one of its eight cells. The row gets the
/// number of the cell, the other two what is left of 100. In a cell that does not end the game the layer has no move.
#[derive(Drop)]
pub struct Table {
    pub worth: [u8; 8],
    pub ends: [bool; 8],
    ghost at_most_100: { EachIndex worth (λ k. slice_index worth k ≤ 100) },
}

/// Nothing is chosen yet, which is 0, or a cell is, counted from 1.
#[derive(Drop)]
pub struct Chosen {
    pub cell: u8,
}

/// Up to 64 choices.
#[derive(Drop)]
pub struct Cells {
    pub cells: [u8; 64],
    /// How many of them are told of.
    pub count: usize,
}

/// The cell that a joint move chooses, counted from 1.
fn cell_of(joint: &Joint) -> u8
    requires { IsTurn (table_rules [] []) joint.now.items }
    ensures cell { result ≡ 1 + 4 * slice_index joint.now.items 0 + 2 * slice_index joint.now.items 1 + slice_index joint.now.items 2 }
    ensures within { result ≤ 8 }
{
    1 + 4 * joint[0] as u8 + 2 * joint[1] as u8 + joint[2] as u8
}

/// Writes the cells that joint moves choose.
fn choose_each(joints: &[Joint], cells: &mut [u8])
    requires room { length joints.now ≤ length cells.old }
    requires joints { All (λ j. IsTurn (table_rules [] []) j.items) joints.now }
    requires within { (k : ℕ) → k < length cells.old → slice_index cells.old k ≤ 8 }
    ensures size { length joints.now ≤ length cells.new }
    ensures within { (k : ℕ) → k < length cells.old → slice_index cells.new k ≤ 8 }
    ensures after { (k : ℕ) → k < length joints.now → slice_index cells.new k ∷ [] ≡ (table_rules [] []).after [] (joint_at joints.now k) }
{
    for k in 0..joints.len() {
        cells[k] = cell_of(&joints[k]);
    }
}

impl Game for Table {
    ghost use Rattle.test_games.specs.TableMany.{AreCells, chosen_states};
    ghost use Rattle.test_games.specs.TableLaws.{goal_at_most, two_moves, legal_at_most, legal_in_order, choices_in_order, sides_differ};

    type Pos = Chosen;

    type Wide = Cells;

    type Many = Cells;

    ghost rules = { λ g. table_rules g.worth g.ends };

    ghost role_name = { λ _ r. side_name r };

    ghost move_name = { λ _ _ m. choice_name m };

    ghost fits = { λ _ p. p.cell ≤ 8 };

    ghost state = { λ _ p. p.cell ∷ [] };

    ghost capacities = { λ _ _. [] };

    ghost fits_wide = { λ _ w. AreCells w };

    ghost judged = { λ _ w. chosen_states w };

    ghost fits_many = { λ _ m. AreCells m };

    ghost states = { λ _ m. chosen_states m };

    ghost wide_capacities = { λ _ _. [] };

    ghost many_capacities = { λ _ _. [] };

    ghost key_length = { λ _. 1 };

    ghost keyed = { λ _ key. slice_index key 0 ∷ [] };

    fn roles(&self) -> usize {
        3
    }

    fn role_text(&self, role: usize) -> &[u8] {
        match role {
            0 => b"row",
            1 => b"column",
            _ => b"layer",
        }
    }

    fn moves(&self, _role: usize) -> usize {
        2
    }

    fn move_text(&self, _role: usize, number: u32) -> &[u8] {
        if number == 0 { b"one" } else { b"two" }
    }

    fn fresh(&self) -> Result<Chosen, AllocError> {
        Ok(Chosen { cell: 0 })
    }

    fn ended(&self, p: &Chosen) -> bool {
        p.cell != 0 && self.ends[usize::from(p.cell - 1)]
    }

    fn goal(&self, p: &Chosen, role: usize) -> u8 {
        let worth = self.worth[usize::from(p.cell.saturating_sub(1))];
        if role == 0 { worth } else { 100 - worth }
    }

    fn legal(&self, p: &Chosen, role: usize, place: usize) -> Option<u32> {
        match place {
            0 if p.cell == 0 || role != 2 => Some(0),
            1 if p.cell == 0 || role != 2 => Some(1),
            _ => None,
        }
    }

    fn step(&self, _p: &Chosen, joint: &Joint, q: &mut Chosen) {
        q.cell = 1 + 4 * joint[0] as u8 + 2 * joint[1] as u8 + joint[2] as u8;
    }

    fn copy(&self, p: &Chosen, q: &mut Chosen) {
        q.cell = p.cell;
    }

    fn new_wide(&self) -> Result<Cells, AllocError> {
        Ok(Cells {
            cells: [0; 64],
            count: 0,
        })
    }

    fn new_many(&self) -> Result<Cells, AllocError> {
        Ok(Cells {
            cells: [0; 64],
            count: 0,
        })
    }

    fn steps(&self, _p: &Chosen, joints: &[Joint], _w: &mut Cells, out: &mut Cells) {
        choose_each(joints, &mut out.cells);
        out.count = joints.len();
    }

    fn abreast(&self) -> usize {
        1
    }

    fn take(&self, many: &Cells, place: usize, q: &mut Chosen) {
        q.cell = many.cells[place];
    }

    fn told(&self, many: &Cells, place: usize, role: usize) -> Told {
        let p = Chosen {
            cell: many.cells[place],
        };
        if self.ended(&p) {
            return Told::Ended(self.goal(&p, role));
        }
        Told::Open
    }

    fn judge(&self, _p: &Chosen, joints: &[Joint], w: &mut Cells) -> bool {
        choose_each(joints, &mut w.cells);
        w.count = joints.len();
        true
    }

    /// The same as `judge`, as all joint moves begin where nothing is chosen.
    fn judge_from(
        &self,
        _many: &Cells,
        _places: &[usize],
        joints: &[Joint],
        w: &mut Cells,
    ) -> bool {
        let start = Chosen { cell: 0 };
        self.judge(&start, joints, w)
    }

    fn verdict(&self, w: &Cells, place: usize, role: usize) -> Option<u8> {
        if place >= w.count {
            return None;
        }
        let p = Chosen {
            cell: w.cells[place],
        };
        if self.ended(&p) {
            return Some(self.goal(&p, role));
        }
        None
    }

    fn key_words(&self) -> usize {
        1
    }

    fn write_key(&self, p: &Chosen, key: &mut [u64]) {
        key[0] = u64::from(p.cell);
    }

    fn write_key_of(&self, many: &Cells, place: usize, key: &mut [u64]) {
        key[0] = u64::from(many.cells[place]);
    }

    ghost goal_within = { λ g s r. goal_at_most g.worth g.ends s r g.at_most_100 };

    ghost moves_within = { λ _ _ _. two_moves };

    ghost legal_within = { λ g s r _. legal_at_most g.worth g.ends s r };

    ghost legal_ascending = { λ g s r _. legal_in_order g.worth g.ends s r };

    ghost moves_in_printed_order = { λ _ _ m n _ less below. choices_in_order m n less below };

    ghost role_names_differ = { λ _ q r less below. sides_differ q r less below };
}
