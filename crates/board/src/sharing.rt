//! A seat for each thread, and back to one.
ghost use Rattle.std.specs.Prelude.{◌≡◌, ◌≤◌};
ghost use Rattle.board.specs.Books.{left_part, right_part, joined};
ghost use Rattle.board.specs.Windows.{IsNarrower};
ghost use Rattle.board.specs.Seats.{book, IsSeatOf};

use super::parts::{Board, Seat};
use super::plays::{Both, Halves};
use super::values::Values;
use std::marker::PhantomData;

impl<V: Values> Seat<V> {
    /// Two seats, each with a half of the shares; of an odd number the first has one more. What the seat was told and
    /// has read goes to both, and the rest, its tasks too, stays with the first. The first seat of a board has 2^32
    /// shares, so 32 splits in a row have the two shares that each asks for.
    pub fn split(self, on: &Board<V>) -> (Seat<V>, Seat<V>)
        requires seat { IsSeatOf on.now self }
        requires shares { 2 ≤ (book self).shares }
        ensures first { IsSeatOf on.now result.0 × (book result.0 ≡ left_part (book self)) }
        ensures second { IsSeatOf on.now result.1 × (book result.1 ≡ right_part (book self)) }
    {
        let Seat {
            mut place,
            out,
            marker: _,
        } = self;
        let other = on.table.shared.split_seat::<Halves>(&mut place);
        (
            Seat {
                place,
                out,
                marker: PhantomData,
            },
            Seat {
                place: other,
                out,
                marker: PhantomData,
            },
        )
    }

    /// One seat with all that the two had, and the narrower of what they knew.
    pub fn join(self, other: Seat<V>, on: &Board<V>) -> Seat<V>
        requires seats { IsSeatOf on.now self × IsSeatOf on.now other }
        ensures seat { IsSeatOf on.now result }
        ensures book { book result ≡ joined (book self) (book other) }
        ensures narrower { IsNarrower (book self) (book result) × IsNarrower (book other) (book result) }
    {
        let Seat {
            mut place,
            out,
            marker: _,
        } = self;
        let Seat {
            place: second,
            out: second_out,
            marker: _,
        } = other;
        on.table.shared.join_seat::<Both>(&mut place, second);
        Seat {
            place,
            out: out || second_out,
            marker: PhantomData,
        }
    }
}
