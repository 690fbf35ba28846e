//! What bounds of a value say in a window.
ghost use Rattle.std.specs.Prelude.{◌≡◌, ◌≤◌, ◌≤ℤ◌, ℕ, pos, true, false, if◌then◌else◌};
ghost use Rattle.std.specs.Int.{int_min, int_max};
ghost use Rattle.std.specs.Int.Signed.{lt_z};
ghost use Rattle.search_table.specs.Worths.{AreBoundsOf};
ghost use Rattle.maximin.specs.Answer.{IsAnswer};

use crate::answer::{SearchAnswer, both_last};
use crate::window::SearchWindow;
use search_table::Bounds;

/// The part of a window that bounds of a value leave.
pub fn narrowed(known: Bounds, window: SearchWindow) -> SearchWindow
    ensures low { result.low ≡ int_max window.low (pos known.lo) }
    ensures high { result.high ≡ int_min window.high (pos known.hi) }
{
    SearchWindow {
        low: window.low.max(i16::from(known.lo)),
        high: window.high.min(i16::from(known.hi)),
    }
}

/// The answer where bounds of a value leave nothing of a window that ends here.
pub fn settled(known: Bounds, high: i16) -> SearchAnswer
    ensures worth { result.worth ≡ int_max high (pos known.lo) }
    ensures lasts { result.lasts ≡ known.lasts }
{
    SearchAnswer {
        worth: high.max(i16::from(known.lo)),
        lasts: known.lasts,
    }
}

/// The answer in a window, by one in the part of it that bounds leave, which ends here. It lasts only if they do, where it is this end.
pub fn widened(known: Bounds, high: i16, answer: SearchAnswer) -> SearchAnswer
    ensures worth { result.worth ≡ answer.worth }
    ensures lasts { result.lasts ≡ (if answer.lasts then (if lt_z answer.worth high then true else known.lasts) else false) }
{
    let lasts = if answer.worth < high {
        true
    } else {
        known.lasts
    };
    SearchAnswer {
        worth: answer.worth,
        lasts: both_last(lasts, answer),
    }
}

/// An answer as a value is.
fn as_worth(answer: i16) -> u8
    ensures { pos result ≡ int_min (int_max answer (pos 0)) (pos 100) }
{
    answer.clamp(0, 100) as u8
}

/// What an answer above the lower end says that the value is at least.
fn at_least(low: i16, answer: i16) -> u8
    ensures { (worth : ℕ) → worth ≤ 100 → answer ≤ℤ int_max (pos worth) low → result ≤ worth }
{
    if answer > low { as_worth(answer) } else { 0 }
}

/// What an answer below the upper end says that the value is at most.
fn at_most(high: i16, answer: i16) -> u8
    ensures { (worth : ℕ) → worth ≤ 100 → int_min (pos worth) high ≤ℤ answer → worth ≤ result }
{
    if answer < high { as_worth(answer) } else { 100 }
}

/// What an answer in a window says of the value.
pub fn bounds_by(window: SearchWindow, answer: SearchAnswer) -> Bounds
    ensures { (worth : ℕ → ℕ) (depth : ℕ) → ((d : ℕ) → worth d ≤ 100) → IsAnswer worth depth window.low window.high answer
        → AreBoundsOf worth depth result }
{
    Bounds {
        lo: at_least(window.low, answer.worth),
        hi: at_most(window.high, answer.worth),
        lasts: answer.lasts,
    }
}
