//! Where the words of a key are looked for.

/// A number that spreads keys. Nothing rests on it.
pub fn hash_of(key: &[u64]) -> u64 {
    let mut hash = 0u64;
    for word in key {
        hash = (hash.rotate_left(23) ^ *word).wrapping_mul(0x9E37_79B9_7F4A_7C15);
    }
    hash = (hash ^ (hash >> 32)).wrapping_mul(0xD6E8_FEB8_6659_FD93);
    hash ^ (hash >> 29)
}
