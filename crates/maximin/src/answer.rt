//! What a search answers, and for how many turns.
ghost use Rattle.std.specs.Prelude.{◌≡◌, false, if◌then◌else◌};
ghost use Rattle.std.specs.Int.Signed.{lt_z};

/// What a search found in a window that states are worth.
#[derive(Debug, Clone, Copy)]
pub struct SearchAnswer {
    pub worth: i16,
    /// The answer is an upper bound at every greater number of turns too.
    pub lasts: bool,
}

/// Whether the lesser of two upper bounds lasts, of which the first stands where they are level.
pub fn lesser_lasts(upper: i16, lasts: bool, other: SearchAnswer) -> bool
    ensures { result ≡ (if lt_z other.worth upper then other.lasts else lasts) }
{
    if other.worth < upper {
        return other.lasts;
    }
    lasts
}

/// Whether the greater of two upper bounds lasts: it does where both do.
pub fn both_last(lasts: bool, other: SearchAnswer) -> bool
    ensures { result ≡ (if lasts then other.lasts else false) }
{
    lasts && other.lasts
}
