//! What is known of many states before any of them is searched.
ghost use Rattle.std.specs.Prelude.{◌≡◌, ◌<◌, ◌≤ℤ◌, ℕ, pos, [], true, length, map, get_or, IfSome};
ghost use Rattle.std.specs.Int.{int_max};
ghost use Rattle.statement.specs.Value.{greatest, least, value};
ghost use Rattle.maximin.specs.Answer.{IsUpperBound};

use crate::answer::{SearchAnswer, lesser_lasts};
use game::{AtBound, Game, Question, Told};

/// What one of many states is worth, where that is told before it is taken.
pub fn told_worth<G: Game>(
    game: &G,
    many: &G::Many,
    place: usize,
    asked: Question,
) -> Option<SearchAnswer>
    requires many { G.fits_many game.now many.now }
    requires place { place < length (G.states game.now many.now) }
    requires role { asked.role < (G.rules game.now).roles }
    ensures worth { IfSome result (λ told. told.worth ≡ pos
        (value (G.rules game.now) asked.role asked.depth asked.at (get_or (G.states game.now many.now) place []))) }
    ensures lasts { IfSome result (λ told. told.lasts ≡ true → (d : ℕ) → told.worth ≡ pos
        (value (G.rules game.now) asked.role d asked.at (get_or (G.states game.now many.now) place []))) }
{
    match (game.told(many, place, asked.role), asked.depth, asked.at) {
        (Told::Ended(goal), _, _) => Some(SearchAnswer {
            worth: i16::from(goal),
            lasts: true,
        }),
        (Told::Open, 0, AtBound::Zero) => Some(SearchAnswer {
            worth: 0,
            lasts: false,
        }),
        _ => None,
    }
}

/// The lesser of a bound and the least value among those of many states that are told before they are taken.
pub fn least_told<G: Game>(
    game: &G,
    many: &G::Many,
    count: usize,
    asked: Question,
    b: i16,
) -> SearchAnswer
    requires many { G.fits_many game.now many.now }
    requires count { count ≡ length (G.states game.now many.now) }
    requires role { asked.role < (G.rules game.now).roles }
    ensures at_most { result.worth ≤ℤ b }
    ensures upper { IsUpperBound (λ d. least (map (value (G.rules game.now) asked.role d asked.at) (G.states game.now many.now))) asked.depth b result }
{
    let unknown = SearchAnswer {
        worth: b,
        lasts: true,
    };
    let mut upper = b;
    let mut lasts = true;
    for place in 0..count {
        let told = told_worth(game, many, place, asked).unwrap_or(unknown);
        lasts = lesser_lasts(upper, lasts, told);
        upper = upper.min(told.worth);
    }
    SearchAnswer {
        worth: upper,
        lasts,
    }
}

/// The greater of a bound and the greatest value among those of many states that are told before they are taken.
pub fn greatest_told<G: Game>(
    game: &G,
    many: &G::Many,
    count: usize,
    asked: Question,
    a: i16,
) -> i16
    requires many { G.fits_many game.now many.now }
    requires count { count ≡ length (G.states game.now many.now) }
    requires role { asked.role < (G.rules game.now).roles }
    ensures at_least { a ≤ℤ result }
    ensures at_most { result ≤ℤ int_max (pos (greatest (map (value (G.rules game.now) asked.role asked.depth asked.at) (G.states game.now many.now))))
        a }
{
    let unknown = SearchAnswer {
        worth: a,
        lasts: false,
    };
    let mut lower = a;
    for place in 0..count {
        let told = told_worth(game, many, place, asked).unwrap_or(unknown);
        lower = lower.max(told.worth);
    }
    lower
}
