//! How long a text becomes, before its term is built.
ghost use Rattle.std.specs.Prelude.{ℕ, List, [], ◌∷◌, ◌≡◌, ◌<◌, ◌≤◌, length, nat_lt, true};
ghost use Rattle.statement.specs.Tree.{text, trees_of};
ghost use Rattle.statement.specs.Clause.{tree_at};
ghost use Rattle.rules_clauses.specs.Marks.{NumbersBelow};
ghost use Rattle.ground_terms.specs.Arena.{sizes_of, AreNumbered};
ghost use Rattle.ground_terms.specs.Building.{PartsPlaced, place_value, ground_terms};
ghost use Rattle.ground_terms.specs.Keys.{trees};
ghost use Rattle.ground_terms.specs.Measuring.{bytes_of};
ghost use Rattle.statement.specs.Most.{limits};

use crate::arena::{Arena, HEAD_LIMIT};
use rules::Part;

impl Arena {
    /// The bytes that a part adds to a text, with the space before it: a list adds its symbol and its brackets, as its terms are parts of
    /// their own. The length of a name or of a term counts to one more than the limit.
    fn bytes_of(&self, part: Part, values: &[u32]) -> usize
        requires placed { PartsPlaced (length self.now.sizes) (length values.now) (part ∷ []) }
        requires values { NumbersBelow (length self.now.keys) values.now }
        ensures { (words : List (List ℕ)) → sizes_of words ≡ self.now.sizes
            → result ≤ bytes_of words (place_value (trees words self.now.keys) values.now) part }
    {
        match part {
            Part::Variable(place) => self.length_of(values[place] as usize).saturating_add(1),
            Part::Constant(symbol) => self.length_of(self.constant(symbol)).saturating_add(1),
            Part::List(symbol, _) => self.length_of(self.constant(symbol)).saturating_add(3),
        }
    }

    /// Whether placed parts alone are longer, as text, than the head of a kept instance may be, so that each atom of them is. The word of
    /// an atom is not counted. No term is built, and no more parts are looked at than there may be bytes.
    pub fn are_too_long(&self, parts: &[Part], values: &[u32]) -> bool
        requires placed { PartsPlaced (length self.now.sizes) (length values.now) parts.now }
        requires values { NumbersBelow (length self.now.keys) values.now }
        ensures { result ≡ true → (words : List (List ℕ)) → sizes_of words ≡ self.now.sizes → (word : List ℕ)
            → nat_lt limits.text (length (text (tree_at word
            (trees_of (ground_terms words (place_value (trees words self.now.keys) values.now) parts.now []))))) ≡ true }
    {
        let mut left = HEAD_LIMIT;
        for part in parts {
            let bytes = self.bytes_of(*part, values);
            if bytes > left {
                return true;
            }
            left -= bytes;
        }
        false
    }
}
