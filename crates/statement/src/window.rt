//! Between which bounds a value is asked for.
ghost use Rattle.std.specs.Prelude.{◌≤◌};

/// A low bound from -1 and a high bound up to 101, the low one less than the high one. A value is between them where it is more than
/// the low one and less than the high one.
#[derive(Clone, Copy, Debug, PartialEq, Eq)]
pub struct Window {
    /// The least number above the low bound.
    pub from: u8,
    /// The high bound.
    pub to: u8,
    ghost in_order: { from ≤ to },
    ghost in_range: { to ≤ 101 },
}

impl Window {
    ghost use Rattle.std.specs.Prelude.{◌≡◌, IfSome, IfNone};
    ghost use Rattle.statement.specs.declared.window.Window.{Window};
    ghost use Rattle.statement.specs.Windows.{above};

    /// The window of a low bound, which is -1 where there is none, and of a high bound.
    pub fn of(low: Option<u8>, high: u8) -> Option<Window>
        ensures low { IfSome result (λ window. window.from ≡ above low) }
        ensures high { IfSome result (λ window. window.to ≡ high) }
        ensures none { IfNone result (above low ≤ high → high ≤ 101 → ⊥) }
    {
        if high > 101 {
            return None;
        }
        let Some(low) = low else {
            return Some(Window { from: 0, to: high });
        };
        if low >= high {
            return None;
        }
        Some(Window {
            from: low + 1,
            to: high,
        })
    }
}
