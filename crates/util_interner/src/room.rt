//! Room for what is to come, and numbers in 32 bits.
ghost use Rattle.std.specs.Prelude.{◌≡◌, [], IfOk};

use std::alloc::{AllocError, Global};

/// An empty list, with room for so many if that much memory can be had at once, and with none otherwise. Room takes no pages of
/// memory before it is used.
pub fn with_room<T>(alloc: Global, many: usize) -> Vec<T>
    ensures { result.items ≡ [] }
{
    match Vec::with_capacity(alloc, many) {
        Ok(list) => list,
        Err(AllocError) => Vec::new(alloc),
    }
}

/// A number in 32 bits. One that does not fit is refused as want of memory is.
pub fn in_32_bits(number: usize) -> Result<u32, AllocError>
    ensures { IfOk result (λ n. n ≡ number) }
{
    if number > u32::MAX as usize {
        return Err(AllocError);
    }
    Ok(number as u32)
}
