//! The program `gdlsolve`: the rules of a game on standard input or in a file, answers on standard output.
#![tactic(auto)]

use program_session::main_program;
use program_words::{Asked, asked_of, source_of, tell_unread};
use std::alloc::Global;
use std::io::{ErrorKind, Read, Write};
use std::process::ExitCode;
use std::rt::Files;
use std::thread::Threads;
use std::{env, io};

/// The status where the words are no command.
const MISUSE: u8 = 1;

/// The status for want of memory.
const NO_MEMORY: u8 = 3;

/// The status where the input failed.
const READ_FAULT: u8 = 4;

/// The arguments, of which the first is the program's name. They fail for want of memory, or where one of them is no UTF-8.
fn arguments(rt: &HostRuntime) -> io::Result<Vec<String>> {
    let owned: Vec<String> = env::args(rt)?.collect(rt.alloc())?;
    Ok(owned)
}

/// The exit status of the program with these words.
fn ended<T: Threads + Sync + AllocGlobal + Files, R: Read + Drop, W: Write, E: Write>(
    rt: &T,
    words: &[&str],
    input: R,
    output: &mut W,
    errors: &mut E,
) -> io::Result<u8> {
    let Asked { request, rules } = asked_of(rt.alloc(), words)?;
    match source_of(rt, rules, input) {
        Ok(mut input) => Ok(main_program(rt, &request, &mut input, output, errors)),
        Err(fault) => {
            tell_unread(errors, rules.unwrap_or(""), &fault);
            Ok(READ_FAULT)
        }
    }
}

/// The words behind the program's name.
fn words_of(alloc: Global, arguments: &[String]) -> io::Result<Vec<&str>> {
    let mut words = Vec::new(alloc);
    for word in arguments.iter().skip(1) {
        words.push(word.as_str())?;
    }
    Ok(words)
}

fn main(rt: HostRuntime) -> ExitCode {
    let status = match arguments(&rt) {
        Ok(arguments) => match words_of(rt.alloc(), &arguments) {
            Ok(words) => ended(&rt, &words, rt.stdin(), &mut rt.stdout(), &mut rt.stderr()),
            Err(fault) => Err(fault),
        },
        Err(fault) => Err(fault),
    };
    match status {
        Ok(status) => ExitCode::from(status),
        Err(fault) => {
            let starved = fault.kind() == ErrorKind::OutOfMemory;
            let words = if starved {
                "no memory"
            } else {
                "a word is no UTF-8"
            };
            let _ = eprintln!(rt; "{words}");
            ExitCode::from(if starved { NO_MEMORY } else { MISUSE })
        }
    }
}
