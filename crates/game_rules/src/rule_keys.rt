//! Keys of states: the packed base propositions.
ghost use Rattle.std.specs.Prelude.{◌≡◌, length};
ghost use Rattle.game.specs.Keys.{words_for, state_of_bits};
ghost use Rattle.game_rules.specs.RulePlay.{marked};

use game::put_bit;

/// Writes the key of the state whose base propositions are marked. Bits that are no proposition's are 0.
pub(crate) fn write_marks_key(marks: &[bool], key: &mut [u64])
    requires { length key.old ≡ words_for (length marks.now) }
    ensures { state_of_bits (length marks.now) key.new ≡ marked marks.now }
{
    key.fill(0);
    for p in 0..marks.len() {
        put_bit(key, p, marks[p]);
    }
}
