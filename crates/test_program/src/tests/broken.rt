//! Each command over readers and writers that fail, or go on slowly.
use super::devices::{AtEnd, Full, Torn};
use super::program::program;
use super::told;
use std::alloc::AllocError;
use std::io::{Read, Write};
use std::thread::Threads;
use test_games::texts::MATCH;

/// A text, and the words of a command that answers it with status 0. The rules are longer than what is written.
type Row<'a> = (&'a [u8], &'a [&'a str]);

/// The only role plays two turns, and then has 70.
const TWO: &[u8] =
    b"(role a)(base one)(base two)(input a go)(legal a go)(<= (next one) (not (true one)))(<= (next two) (true one))(<= terminal (true two))(goal a 70)";

/// Each command.
const COMMANDS: [Row; 10] = [
    (b"(a) (b  c) ; of two trees", &["show"]),
    (MATCH, &["show"]),
    (MATCH, &["check"]),
    (MATCH, &["net"]),
    (MATCH, &["moves", "--after", "(h t)"]),
    (MATCH, &["solve", "--role", "a", "--depth", "1"]),
    (
        MATCH,
        &["solve", "--role", "b", "--depth", "1", "--cut", "2x2"],
    ),
    (MATCH, &["solve", "--role", "a", "--depth", "2", "--deepen"]),
    (TWO, &["solve", "--role", "a", "--depth", "3", "--deepen"]),
    (MATCH, &["values", "--role", "a", "--depth", "1", "--lines"]),
];

/// What the command line answers over these devices: the exit status and the errors.
fn status_over<T: Threads + Sync + AllocGlobal, R: Read, W: Write>(
    rt: &T,
    words: &[&str],
    input: &mut R,
    output: &mut W,
) -> (u8, Vec<u8>) {
    let mut errors = Vec::new(rt.alloc());
    let status = program(rt, words, input, output, &mut errors);
    (status, errors)
}

/// Whether a reader that gives so many bytes at a time and fails after so many reads is told, where the text is not read to its end by then.
fn is_read<T: Threads + Sync + AllocGlobal>(
    rt: &T,
    row: Row,
    step: usize,
    reads: usize,
    want: &[u8],
) -> bool {
    let (text, words) = row;
    let mut input = Torn {
        left: text,
        step,
        reads,
    };
    let mut output = Vec::new(rt.alloc());
    let (status, errors) = status_over(rt, words, &mut input, &mut output);
    if reads <= text.len().div_ceil(step.max(1)) {
        status == 4 && output.is_empty() && errors.as_slice() == b"read fault\n".as_slice()
    } else {
        status == 0 && output.as_slice() == want && errors.is_empty()
    }
}

#[test]
fn each_command_tells_of_a_reader_that_fails(rt: HostRuntime) {
    for (text, words) in COMMANDS {
        let (_, want, _) = told(&rt, words, text);
        for reads in 0..text.len() {
            assert!(rt;
                is_read(&rt, (text, words), 2, reads, &want),
                "after {reads} at {words:?}"
            );
        }
        assert!(rt;
            is_read(&rt, (text, words), 1, usize::MAX, &want),
            "at {words:?}"
        );
    }
}

/// Whether a writer of single bytes that takes so many has a beginning of the answer, and whether it is told where that is not all of it.
fn is_written<T: Threads + Sync + AllocGlobal>(
    rt: &T,
    row: Row,
    room: usize,
    at_end: AtEnd,
    want: &[u8],
) -> bool {
    let (mut input, words) = row;
    let mut output = Full::new(rt.alloc(), room, at_end);
    let (status, errors) = status_over(rt, words, &mut input, &mut output);
    if at_end == AtEnd::FailsToFlush {
        // What is deepened is flushed behind each depth.
        status == 4
            && want.starts_with(&output.taken)
            && errors.as_slice() == b"write fault\n".as_slice()
    } else if room < want.len() {
        status == 4
            && output.taken.as_slice() == &want[..room]
            && errors.as_slice() == b"write fault\n".as_slice()
    } else {
        status == 0 && output.taken.as_slice() == want && errors.is_empty()
    }
}

#[test]
fn each_command_tells_of_a_writer_that_fails(rt: HostRuntime) {
    for (text, words) in COMMANDS {
        let (_, want, _) = told(&rt, words, text);
        for room in 0..text.len() {
            let row = (text, words);
            let is_told = is_written(&rt, row, room, AtEnd::TakesNone, &want)
                && is_written(&rt, row, room, AtEnd::Fails, &want);
            assert!(rt; is_told, "behind {room} at {words:?}");
        }
        let row = (text, words);
        assert!(rt;
            is_written(&rt, row, 4096, AtEnd::FailsToFlush, &want),
            "at {words:?}"
        );
    }
    let help: Row = (b"(a)", &["--help"]);
    let (_, want, _) = told(&rt, help.1, help.0);
    assert!(rt; is_written(&rt, help, 4096, AtEnd::FailsToFlush, &want));
}

#[test]
fn each_depth_is_flushed(rt: HostRuntime) {
    let mut input = TWO;
    let mut output = Full::new(rt.alloc(), 4096, AtEnd::TakesNone);
    let words = ["solve", "--role", "a", "--depth", "3", "--deepen"];
    let (status, errors) = status_over(&rt, &words, &mut input, &mut output);
    assert!(rt; status == 0 && errors.is_empty());
    // Behind the lines of the first depth, of the second, and of the end.
    assert!(rt; output.flushed.as_slice() == [34, 79, 87].as_slice());
}

#[test]
fn what_stands_behind_the_longest_text_is_left(rt: HostRuntime) -> Result<(), AllocError> {
    let mut text = Vec::new(rt.alloc());
    for _ in 0..1_048_577u32 {
        text.push(b' ')?;
    }
    text.push(b'(')?;
    let mut input = text.as_slice();
    let mut output = Vec::new(rt.alloc());
    let (status, _) = status_over(&rt, &["show"], &mut input, &mut output);
    assert!(rt; status == 2 && output.as_slice() == b"refused K1 TooLong\n".as_slice());
    assert!(rt; input == b"(".as_slice());
    Ok(())
}
