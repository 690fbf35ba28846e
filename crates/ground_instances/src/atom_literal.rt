//! A literal by the number of its atom.
ghost use Rattle.std.specs.Prelude.{ℕ, Bool, ◌≡◌, ◌<◌, IfOk};

use std::alloc::AllocError;
use std::marker::Model;

/// How many atoms may have numbers that a literal holds.
const ATOMS: u32 = 2_147_483_648;

/// The number of an atom, below 2^31, and whether the literal is negated. Contracts see the two.
#[derive(Clone, Copy)]
pub struct AtomLiteral {
    /// Twice the number, and one more where the literal is negated.
    code: u32,
}

impl Model for AtomLiteral {
    ghost use Rattle.std.specs.Prelude.{ℕ, Bool};
    ghost use Rattle.std.proofs.Common.{ap};
    ghost use Rattle.ground_instances.specs.Codes.{literal_of_code, code_of, code_of-literal};

    ghost Value = { ℕ × Bool };

    ghost view = { λ literal. literal_of_code literal.code };

    ghost inverse = { λ literal. record { code = code_of literal } };

    ghost inverse_ok = { λ literal h. ap (λ code. record { code = code }) (code_of-literal literal.code) };
}

impl AtomLiteral {
    /// A literal of an atom with a number below 2^31.
    pub fn of(atom: u32, negated: bool) -> AtomLiteral
        requires { atom < 2147483648 }
        ensures { result ≡ (atom, negated) }
    {
        if negated {
            return AtomLiteral { code: atom * 2 + 1 };
        }
        AtomLiteral { code: atom * 2 }
    }

    /// A literal of an atom. A number that does not fit is refused as want of memory is.
    pub fn new(atom: usize, negated: bool) -> Result<AtomLiteral, AllocError>
        ensures { IfOk result (λ literal. literal ≡ (atom, negated)) }
    {
        if atom >= ATOMS as usize {
            return Err(AllocError);
        }
        Ok(AtomLiteral::of(atom as u32, negated))
    }

    /// The number of the atom.
    pub fn atom(self) -> u32
        ensures { result ≡ self.0 }
    {
        self.code / 2
    }

    /// Whether the literal is negated.
    pub fn is_negated(self) -> bool
        ensures { result ≡ self.1 }
    {
        self.code % 2 == 1
    }
}
