//! The texts of ground terms.
ghost use Rattle.std.specs.Prelude.{[], ◌∷◌, ◌≡◌, ◌<◌, ◌++◌, length, map, reverse, drop, OnOk};
ghost use Rattle.statement.specs.Tree.{text};
ghost use Rattle.rules.specs.RuleSetView.{lists_of_set};
ghost use Rattle.ground_terms.specs.Keys.{term_at, trees};
ghost use Rattle.ground_terms.specs.Writing.{pending_text, AreKnown, Writes};

use crate::arena::Arena;
use rules::RuleSet;
use std::alloc::AllocError;

/// What is still to be written of a text.
#[derive(Clone, Copy, Debug, PartialEq, Eq)]
pub enum Pending {
    /// A space, and the term of a number.
    Term(usize),
    /// The bracket that closes a list.
    Closing,
}

impl Arena {
    /// Writes the text of a term behind what is there. `pending` is cleared, and gives its memory.
    pub fn write_term(
        &self,
        rules: &RuleSet,
        number: usize,
        out: &mut Vec<u8>,
        pending: &mut Vec<Pending>,
    ) -> Result<(), AllocError>
        requires symbols { length self.now.sizes ≡ length (lists_of_set rules.now).words }
        requires number { number < length self.now.keys }
        ensures { OnOk result (out.new.items ≡ out.old.items ++ text (term_at (trees (lists_of_set rules.now).words self.now.keys) number)) }
    {
        pending.clear();
        self.begin_term(rules, number, out, pending)?;
        while let Some(next) = pending.pop() {
            self.write_next(rules, next, out, pending)?;
        }
        Ok(())
    }

    /// Writes what comes next: a bracket, or a space and the beginning of a term.
    fn write_next(
        &self,
        rules: &RuleSet,
        next: Pending,
        out: &mut Vec<u8>,
        pending: &mut Vec<Pending>,
    ) -> Result<(), AllocError>
        requires symbols { length self.now.sizes ≡ length (lists_of_set rules.now).words }
        requires next { AreKnown (length self.now.keys) (next ∷ []) }
        ensures writes { OnOk result (Writes (length self.now.keys) (trees (lists_of_set rules.now).words self.now.keys)
            (pending_text (trees (lists_of_set rules.now).words self.now.keys) (next ∷ []))
            out.old.items out.new.items pending.old.items pending.new.items) }
        ensures longer { OnOk result (length out.old.items < length out.new.items) }
    {
        match next {
            Pending::Closing => {
                out.push(b')')?;
                Ok(())
            }
            Pending::Term(number) => {
                out.push(b' ')?;
                self.begin_term(rules, number, out, pending)?;
                Ok(())
            }
        }
    }

    /// Writes a name, or the beginning of a list up to its word; the rest of the list is then pending.
    fn begin_term(
        &self,
        rules: &RuleSet,
        number: usize,
        out: &mut Vec<u8>,
        pending: &mut Vec<Pending>,
    ) -> Result<(), AllocError>
        requires symbols { length self.now.sizes ≡ length (lists_of_set rules.now).words }
        requires number { number < length self.now.keys }
        ensures { OnOk result (Writes (length self.now.keys) (trees (lists_of_set rules.now).words self.now.keys)
            (text (term_at (trees (lists_of_set rules.now).words self.now.keys) number))
            out.old.items out.new.items pending.old.items pending.new.items) }
    {
        let key = self.key(number);
        let word = rules.symbol(key[0] as usize);
        if key.len() == 1 {
            out.extend_from_slice(word)?;
            return Ok(());
        }
        out.push(b'(')?;
        out.extend_from_slice(word)?;
        pending.push(Pending::Closing)?;
        push_parts(key, pending)?;
        Ok(())
    }
}

/// Puts the parts of a key on the stack, the first on its top.
fn push_parts(key: &[u32], pending: &mut Vec<Pending>) -> Result<(), AllocError>
    requires { 0 < length key.now }
    ensures { OnOk result (pending.new.items ≡ pending.old.items ++ reverse (map (λ k. Pending.Term k) (drop 1 key.now))) }
{
    let mut left = key.len();
    while left > 1 {
        left -= 1;
        pending.push(Pending::Term(key[left] as usize))?;
    }
    Ok(())
}
