//! Growths that tests ask for: marks that tests/refuse counts between, and blocks that take all the memory there is.
use std::alloc::{AllocError, Global};

/// A growth of so many bytes is a mark for tests/refuse, which refuses what is asked for between two marks.
const MARK: usize = 4_242_421;

/// Marks where a call begins, or where it has ended.
pub fn mark(alloc: Global) {
    let _: Result<Vec<u8>, AllocError> = Vec::with_capacity(alloc, MARK);
}

/// Adds blocks of a size until there is no more memory for one.
fn fill(alloc: Global, size: usize, blocks: &mut Vec<Vec<u8>>) -> Result<(), AllocError> {
    for _ in 0..1_000_000u32 {
        let Ok(block) = Vec::with_capacity(alloc, size) else {
            break;
        };
        blocks.push(block)?;
    }
    Ok(())
}

/// Blocks that take all the memory there is, also what is kept of small sizes.
pub fn filled(alloc: Global) -> Result<Vec<Vec<u8>>, AllocError> {
    let mut blocks = Vec::with_capacity(alloc, 1_000_000)?;
    let mut size = 1usize << 46;
    for _ in 0..36u8 {
        fill(alloc, size, &mut blocks)?;
        size /= 2;
    }
    for steps in 0..128usize {
        fill(alloc, 2048 - 16 * steps, &mut blocks)?;
    }
    Ok(blocks)
}
