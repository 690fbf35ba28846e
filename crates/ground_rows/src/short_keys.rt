//! The keys of atoms without lists.
ghost use Rattle.std.specs.Prelude.{◌≡◌, true, IfOk};
ghost use Rattle.ground_rows.specs.Pairs.{IsKeyOf};

use crate::parts::simple_number;
use rules::Part;
use std::alloc::AllocError;
use util_interner::in_32_bits;

/// Puts the key of an atom with a word and parts with places into a list, if no part is a list and each value is there, and tells whether it
/// is so. What was in the list goes.
pub fn put_key(
    word: usize,
    parts: &[Part],
    values: &[u32],
    key: &mut Vec<u32>,
) -> Result<bool, AllocError>
    ensures { IfOk result (λ there. there ≡ true → IsKeyOf values.now word parts.now key.new.items) }
{
    key.clear();
    let first = in_32_bits(word)?;
    key.push(first)?;
    key.reserve(parts.len())?;
    for part in parts {
        let Some(number) = simple_number(*part, values) else {
            return Ok(false);
        };
        let number = in_32_bits(number)?;
        key.push_reserved(number);
    }
    Ok(true)
}
