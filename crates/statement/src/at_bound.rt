//! What a state is worth where the turns to look ahead are over.
ghost use Rattle.std.specs.Prelude.{◌≡◌, ◌≤◌, ◌↔◌, Some};

/// A number from 0 to 100, as goal values are.
#[derive(Clone, Copy, Debug, PartialEq, Eq)]
pub struct Worth {
    /// The number.
    pub value: u8,
    ghost in_range: { value ≤ 100 },
}

impl Worth {
    ghost use Rattle.std.specs.Prelude.{IfSome, IfNone, ◌<◌};
    ghost use Rattle.statement.specs.declared.at_bound.Worth.{Worth};

    /// The worth of a number. There is none above 100.
    pub fn of(value: u8) -> Option<Worth>
        ensures some { IfSome result (λ worth. worth.value ≡ value) }
        ensures none { IfNone result (100 < value) }
    {
        if value <= 100 {
            Some(Worth { value })
        } else {
            None
        }
    }
}

/// What a state in which play goes on is worth to a role, where no turn is left to look ahead.
#[derive(Clone, Copy, Debug, PartialEq, Eq)]
pub enum AtBound {
    /// Nothing.
    Zero,
    /// Its goal value.
    Goal,
    /// The same in every such state.
    Unfinished(Worth),
}

impl AtBound {
    ghost use Rattle.statement.specs.declared.at_bound.AtBound.{AtBound};
    ghost use Rattle.statement.specs.AtBound.{bound_word};

    /// Reads `zero` or `goal`. There is none for any other text, also where it differs in case alone.
    pub fn parse(text: &[u8]) -> Option<AtBound>
        ensures { (at : AtBound) → (result ≡ Some at) ↔ (bound_word at ≡ Some text.now) }
    {
        match text {
            b"zero" => Some(AtBound::Zero),
            b"goal" => Some(AtBound::Goal),
            _ => None,
        }
    }
}
