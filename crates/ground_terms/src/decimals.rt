//! Small numbers as names.
ghost use Rattle.std.specs.Prelude.{◌≡◌, decimal};
ghost use Rattle.statement.specs.Tree.{name_eq};
ghost use Rattle.statement.specs.Kinds.{value_up_to};

/// Whether a name is a number in decimal, without a leading zero.
fn is_decimal(name: &[u8], number: u8) -> bool
    ensures { result ≡ name_eq name.now (decimal number) }
{
    let Some((last, rest)) = name.split_last() else {
        return false;
    };
    if *last != b'0' + number % 10 {
        return false;
    }
    if number < 10 {
        return rest.is_empty();
    }
    is_decimal(rest, number / 10)
}

/// The number up to a greatest one that a name is, in decimal without a leading zero.
pub(crate) fn value_up_to(name: &[u8], greatest: u8) -> Option<u8>
    ensures { result ≡ value_up_to greatest name.now }
{
    let mut value = greatest;
    while value > 0 {
        if is_decimal(name, value) {
            return Some(value);
        }
        value -= 1;
    }
    if is_decimal(name, 0) { Some(0) } else { None }
}
