//! Numbers of bytes by their decimal digits.
ghost use Rattle.std.specs.Prelude.{◌≡◌, ◌≤◌, ◌+◌, ◌-◌, ◌*◌, ◌^◌, ◌<◌, ◌≢◌, ℕ, true, false, MatchOption};
ghost use Rattle.program_requests.specs.Sizes.{is_digit, IsSize};
ghost use Rattle.program_requests.specs.Lines.{AsksForRules, AsksForNoRules};

/// The number that a digit makes of the one before it; none where the byte is no digit or the number has more than 64 bits.
fn with_digit(before: usize, byte: u8) -> Option<usize>
    ensures { MatchOption result (is_digit byte ≡ true → 2 ^ 64 ≤ before * 10 + (byte - 48))
        (λ number. (is_digit byte ≡ true) × (number ≡ before * 10 + (byte - 48)) × (number < 2 ^ 64)) }
{
    if byte < b'0' {
        return None;
    }
    if byte > b'9' {
        return None;
    }
    let tens = before.checked_mul(10)?;
    tens.checked_add((byte - b'0') as usize)
}

/// The number that digits write, if it has at most 64 bits.
fn size_of(digits: &[u8]) -> Option<usize>
    ensures { MatchOption result ((n : ℕ) → IsSize digits.now n → ⊥) (IsSize digits.now) }
{
    if digits.is_empty() {
        return None;
    }
    let mut size = 0;
    for byte in digits {
        let Some(next) = with_digit(size, *byte) else {
            return None;
        };
        size = next;
    }
    Some(size)
}

/// The number of bytes in a line that asks for rules.
pub(crate) fn rules_size(line: &[u8]) -> Option<usize>
    ensures { MatchOption result (AsksForNoRules line.now) (AsksForRules line.now) }
{
    let Some(digits) = line.strip_prefix(b"rules ") else {
        return None;
    };
    size_of(digits)
}
