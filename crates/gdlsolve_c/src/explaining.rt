//! The call that explains a refusal.
ghost use Rattle.std.specs.Prelude.{◌≡◌, ◌≤◌, ℕ, List, [], IfOk, IfSome};
ghost use Rattle.gdlsolve_c.specs.Calls.{Fills};
ghost use Rattle.gdlsolve_c.specs.Explaining.{RoomExplained};
ghost use Rattle.diagnose_refusals.specs.Headed.{IsHeaded};

use crate::call::fill;
use diagnose_refusals::explanation;
use game_rules::RuleGame;
use program_words::{Request, request_in};
use statement::Width;
use std::alloc::{AllocError, Global};

/// The status of an explanation.
const EXPLAINED: u32 = 0;

/// The status of words that make no command.
const MISUSED: u32 = 1;

/// The status of want of memory.
const STARVED: u32 = 3;

/// What explains the reply to the request of words over rules, if they make a command.
fn explained(
    alloc: Global,
    words: &[&str],
    rules: &[u8],
    reply: &[u8],
) -> Result<Option<Vec<u8>>, AllocError>
    ensures { IfOk result (λ text. IfSome text (λ text. IsHeaded text.items)) }
{
    let Ok(request) = request_in(alloc, words, Width::Plain) else {
        return Err(AllocError);
    };
    let Request::Run(command, _) = &request else {
        return Ok(None);
    };
    let text = explanation::<RuleGame, ((), Global)>(&((), alloc), command, rules, reply)?;
    Ok(Some(text))
}

/// The same, of words with a byte 0 behind each.
fn explained_by(
    alloc: Global,
    words: &[u8],
    rules: &[u8],
    reply: &[u8],
) -> Result<Option<Vec<u8>>, AllocError>
    ensures { IfOk result (λ text. IfSome text (λ text. IsHeaded text.items)) }
{
    let Ok(text) = str::from_utf8(words) else {
        return Ok(None);
    };
    let list: Vec<&str> = text.split_terminator('\0').collect(alloc)?;
    explained(alloc, &list, rules, reply)
}

/// Explains a refusal, for people: where the fault stands and what it is about.
///
/// `words` and `rules` are those of the call of `gdlsolve_reply` that was refused, and `reply` is the line that it gave. The whole text has
/// `size` bytes, and the room is given as many of them as it has place for, as by `gdlsolve_reply`.
///
/// The answer is 0 for an explanation, 1 for words that make no command, with a `size` of 0, and 3 for want of memory, with a `size` of 0.
#[unsafe(no_mangle)]
pub extern "C" fn gdlsolve_explain(
    alloc: Global,
    words: &[u8],
    rules: &[u8],
    reply: &[u8],
    room: &mut [u8],
    size: &mut usize,
) -> u32
    ensures statuses { result ≤ 3 }
    ensures told { (bytes : List ℕ) × Fills room.old room.new size.new bytes }
    ensures explained { result ≡ 0 → RoomExplained room.old room.new size.new }
    ensures starved { result ≡ 3 → Fills room.old room.new size.new [] }
{
    let Ok(text) = explained_by(alloc, words, rules, reply) else {
        *size = 0;
        return STARVED;
    };
    let Some(text) = text else {
        *size = 0;
        return MISUSED;
    };
    *size = text.len();
    fill(room, &text);
    EXPLAINED
}
