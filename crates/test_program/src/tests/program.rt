//! What the program does with words, over streams in memory.
use program_run::RunFault;
use program_session::main_program;
use program_streams::status_of;
use program_words::asked_of;
use std::io::{Read, Write};
use std::thread::Threads;

/// Reads words and does what they ask for, as the program does, and answers the exit status.
pub(crate) fn program<T: Threads + Sync + AllocGlobal, R: Read, W: Write, E: Write>(
    rt: &T,
    words: &[&str],
    input: &mut R,
    output: &mut W,
    errors: &mut E,
) -> u8 {
    let Ok(asked) = asked_of(rt.alloc(), words) else {
        return status_of(Err(RunFault::Memory), errors);
    };
    main_program(rt, &asked.request, input, output, errors)
}
