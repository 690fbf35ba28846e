//! Each command where streams or memory fail.
mod broken;
mod devices;
mod program;
mod starved;

use self::program::program;
use std::thread::Threads;

/// What the command line answers: the exit status, the output and the errors.
fn told<T: Threads + Sync + AllocGlobal>(
    rt: &T,
    words: &[&str],
    text: &[u8],
) -> (u8, Vec<u8>, Vec<u8>) {
    let mut input = text;
    let mut output = Vec::new(rt.alloc());
    let mut errors = Vec::new(rt.alloc());
    let status = program(rt, words, &mut input, &mut output, &mut errors);
    (status, output, errors)
}
