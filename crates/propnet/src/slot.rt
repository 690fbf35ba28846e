//! The number of a node, or none.
//!
//! It is one more than the number, and 0 for none, which no clause sees.
ghost use Rattle.std.specs.Prelude.{◌≡◌, ◌+◌, ◌<◌, ◌^◌, None, Some};

use std::marker::Model;

/// The number of a node, or none, in four bytes. Contracts see an option of a number.
#[derive(Clone, Copy)]
pub(crate) struct Slot {
    /// One more than the number, and 0 where there is none.
    ticket: u32,
}

impl Model for Slot {
    ghost use Rattle.std.specs.Prelude.{ℕ, Option};
    ghost use Rattle.std.proofs.Common.{ap};
    ghost use Rattle.propnet.specs.Slots.{number_of_ticket, slot_ticket, slot_ticket-number};

    ghost Value = { Option ℕ };

    ghost view = { λ slot. number_of_ticket slot.ticket };

    ghost inverse = { λ number. record { ticket = slot_ticket number } };

    ghost inverse_ok = { λ slot h. ap (λ ticket. record { ticket = ticket }) (slot_ticket-number slot.ticket) };
}

impl Slot {
    /// No number.
    pub(crate) fn none() -> Slot
        ensures { result ≡ None }
    {
        Slot { ticket: 0 }
    }

    /// A number.
    pub(crate) fn some(number: u32) -> Slot
        requires { number + 1 < 2 ^ 32 }
        ensures { result ≡ Some number }
    {
        Slot { ticket: number + 1 }
    }

    /// The number, where there is one.
    pub(crate) fn number(self) -> Option<u32>
        ensures { result ≡ self }
    {
        if self.ticket == 0 {
            return None;
        }
        Some(self.ticket - 1)
    }
}
