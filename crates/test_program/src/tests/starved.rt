//! Each command where all memory is taken, and with more and more of it to take.
use super::program::program;
use super::told;
use std::alloc::{AllocError, Global};
use std::test::Fail;
use std::thread::Threads;
use test_games::memory::filled;
use test_games::texts::{MATCH, SIXTEEN};

/// How many bytes are left beside the blocks that take all the rest.
const ROOM: usize = 1 << 22;

/// Less than this is not enough for any text, since room for one of the common length is taken first.
const LEAST: usize = 1 << 15;

/// How many bytes are set aside for what is written, and to spare.
const SPARE: usize = 1 << 14;

/// The size of the greatest block that can be had of the room, in steps of 1,024 bytes.
fn greatest(alloc: Global) -> usize {
    let mut size = ROOM;
    for _ in 0..4096u32 {
        let block: Result<Vec<u8>, AllocError> = Vec::with_capacity(alloc, size);
        if block.is_ok() {
            break;
        }
        size = size.saturating_sub(1024);
    }
    size
}

/// What a command comes to.
#[derive(Drop)]
enum Ended {
    Answered,
    Starved,
    Wrong,
}

/// What comes of a command where of the room's greatest block so many bytes, and few more, may be taken. Where that is not enough,
/// it says so and writes nothing.
fn ended_within<T: Threads + Sync + AllocGlobal>(
    rt: &T,
    words: &[&str],
    text: &[u8],
    want: &[u8],
    most: usize,
    free: usize,
) -> Result<Ended, AllocError> {
    let mut input = text;
    let mut output = Vec::with_capacity(rt.alloc(), 4096)?;
    let mut errors = Vec::with_capacity(rt.alloc(), 4096)?;
    let size = most.saturating_sub(SPARE).saturating_sub(free);
    let taken: Vec<u8> = Vec::with_capacity(rt.alloc(), size)?;
    let status = program(rt, words, &mut input, &mut output, &mut errors);
    drop(taken);
    let starved = status == 3
        && output.is_empty()
        && errors.as_slice() == b"no memory\n".as_slice();
    let answered = status == 0 && output.as_slice() == want && errors.is_empty();
    Ok(if answered {
        Ended::Answered
    } else if starved {
        Ended::Starved
    } else {
        Ended::Wrong
    })
}

/// How often there was not enough memory for a command, with a little more each time, until there was. None where something
/// else came of it.
fn starved_times<T: Threads + Sync + AllocGlobal>(
    rt: &T,
    words: &[&str],
    text: &[u8],
    want: &[u8],
) -> Result<Option<usize>, AllocError> {
    let most = greatest(rt.alloc());
    for times in 0..10_000usize {
        let free = LEAST.saturating_add(times.saturating_mul(256));
        match ended_within(rt, words, text, want, most, free)? {
            Ended::Answered => return Ok(Some(times)),
            Ended::Starved => {}
            Ended::Wrong => return Ok(None),
        }
    }
    Ok(None)
}

/// The same where all other memory is taken.
fn starved_beside<T: Threads + Sync + AllocGlobal>(
    rt: &T,
    words: &[&str],
    text: &[u8],
) -> Result<Option<usize>, AllocError> {
    let (_, want, _) = told(rt, words, text);
    // A large block that was given back lets the next ones come from the heap.
    let large: Vec<u8> = Vec::with_capacity(rt.alloc(), ROOM)?;
    drop(large);
    let room: Vec<u8> = Vec::with_capacity(rt.alloc(), ROOM)?;
    let _blocks = filled(rt.alloc())?;
    drop(room);
    starved_times(rt, words, text, &want)
}

/// A text, and the words of a command.
const COMMANDS: [(&[u8], &[&str]); 9] = [
    (MATCH, &["show"]),
    (MATCH, &["check"]),
    (MATCH, &["net"]),
    (MATCH, &["moves"]),
    (MATCH, &["solve", "--role", "a", "--depth", "1"]),
    (
        MATCH,
        &["solve", "--role", "a", "--depth", "1", "--cut", "2x2"],
    ),
    (MATCH, &["solve", "--role", "a", "--depth", "2", "--deepen"]),
    (MATCH, &["values", "--role", "a", "--depth", "1", "--lines"]),
    (
        SIXTEEN,
        &["solve", "--role", "r16", "--depth", "1", "--cut", "2x2"],
    ),
];

#[test]
fn nothing_is_written_without_memory(rt: HostRuntime) -> Result<(), Fail> {
    for (text, words) in COMMANDS {
        let Some(times) = starved_beside(&rt, words, text)? else {
            panic!(rt; "at {words:?}")
        };
        assert!(rt; times > 0, "{times} times at {words:?}");
    }
    Ok(())
}
